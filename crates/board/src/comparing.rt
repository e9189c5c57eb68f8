//! Commands are compared whole, clocks of delivered packets included.
ghost use Rattle.std.specs.Prelude.{◌≡◌, nat_eq};
ghost use Rattle.wire_msg.specs.Kinds.{is_begin, is_tick};
ghost use Rattle.board.specs.Comparing.{same_lists, same_segment, same_hello, same_done, is_hello, is_done, same_body, same_packet, is_delivery, same_do, same_command};

use crate::Command;
use wire_msg::{Body, CkptDone, Do, Hello, Packet};
use xfs_base::SegRef;

fn same_segment(a: &SegRef, b: &SegRef) -> bool
    ensures { result ≡ same_segment a.now b.now }
{
    a.name.log.0 == b.name.log.0
        && a.name.seq == b.name.seq
        && (a.name.pass.inc == b.name.pass.inc
            && a.name.pass.att == b.name.pass.att
            && a.group == b.group)
}

fn same_hello(a: &Hello, b: &Hello) -> bool
    ensures { result ≡ same_hello a.now b.now }
{
    a.inc == b.inc && a.ask == b.ask
}

fn same_segments(a: &[SegRef], b: &[SegRef]) -> bool
    ensures { result ≡ same_lists same_segment a.now b.now }
{
    a == b
}

fn same_numbers(a: &[u32], b: &[u32]) -> bool
    ensures { result ≡ same_lists nat_eq a.now b.now }
{
    a == b
}

fn same_done(a: &CkptDone, b: &CkptDone) -> bool
    ensures { result ≡ same_done a.now b.now }
{
    (a.slot == b.slot && a.epoch == b.epoch)
        && (a.ask == b.ask
            && (same_segments(a.parts.as_slice(), b.parts.as_slice())
                && same_numbers(a.horizon.as_slice(), b.horizon.as_slice())))
}

fn is_hello(a: &Hello, b: &Body) -> bool
    ensures { result ≡ is_hello a.now b.now }
{
    match b {
        Body::Hello(b) => same_hello(a, b),
        _ => false,
    }
}

fn is_done(a: &CkptDone, b: &Body) -> bool
    ensures { result ≡ is_done a.now b.now }
{
    match b {
        Body::CkptDone(b) => same_done(a, b),
        _ => false,
    }
}

// Whether two bodies that the registry takes notice of are the same.
fn same_body(a: &Body, b: &Body) -> bool
    ensures { result ≡ same_body a.now b.now }
{
    match a {
        Body::Hello(a) => is_hello(a, b),
        Body::CkptDone(a) => is_done(a, b),
        _ => false,
    }
}

fn same_packet(a: &Packet, b: &Packet) -> bool
    ensures { result ≡ same_packet a.now b.now }
{
    a.from == b.from && (a.to == b.to && (a.clock == b.clock && same_body(&a.body, &b.body)))
}

fn is_begin(b: &Do) -> bool
    ensures { result ≡ is_begin b.now }
{
    match b {
        Do::Begin => true,
        Do::Deliver(_) => false,
        Do::Tick => false,
    }
}

fn is_tick(b: &Do) -> bool
    ensures { result ≡ is_tick b.now }
{
    match b {
        Do::Begin => false,
        Do::Deliver(_) => false,
        Do::Tick => true,
    }
}

fn is_delivery(a: &Packet, b: &Do) -> bool
    ensures { result ≡ is_delivery a.now b.now }
{
    match b {
        Do::Begin => false,
        Do::Deliver(b) => same_packet(a, b.as_packet()),
        Do::Tick => false,
    }
}

fn same_do(a: &Do, b: &Do) -> bool
    ensures { result ≡ same_do a.now b.now }
{
    match a {
        Do::Begin => is_begin(b),
        Do::Deliver(a) => is_delivery(a.as_packet(), b),
        Do::Tick => is_tick(b),
    }
}

impl Command {
    /// Whether this is the same command, clocks included.
    pub fn same(&self, other: &Command) -> bool
        ensures { result ≡ same_command self.now other.now }
    {
        same_do(&self.what, &other.what) && self.item == other.item
    }
}
