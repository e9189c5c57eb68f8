//! One turn of one node among all.
ghost use Rattle.std.specs.Prelude.{◌≡◌, ◌<◌, ◌+◌, ◌++◌, length, map, slice_set, IfOk, OnOk};
ghost use Rattle.world_base.specs.NextWorld.{clock_after, clock_at_most, sent_at, turn_of};

use crate::Member;
use std::alloc::Global;
use version_model::Act;
use wire_msg::{Do, Packet, SharedPacket};
use xfs_base::{List, Mem};

// The clock that follows this one; none past the end of all clocks.
fn next_clock(clock: u64) -> Option<u64>
    ensures { result ≡ clock_at_most (clock + 1) }
{
    if clock == u64::MAX {
        return None;
    }
    Some(clock + 1)
}

/// The clock of an event of a node whose clock is this one; none past the end of all clocks. It is one
/// more than the greater of the node's clock and that of the packet that comes.
pub fn clock_after(clock: u64, what: &Do) -> Option<u64>
    ensures { result ≡ clock_after clock what.now }
{
    match what {
        Do::Begin => next_clock(clock),
        Do::Deliver(packet) => next_clock(u64::max(clock, packet.as_packet().clock)),
        Do::Tick => next_clock(clock),
    }
}

/// Lets the node at a place have its turn: what it sends, with clock 0, and what it does.
#[tactic(auto, unfolding(crate::specs::NextWorld::turn_of))]
pub fn turn_of<N: Member>(
    alloc: Global,
    nodes: &mut List<N>,
    place: usize,
    what: &Do,
) -> Mem<(List<Packet>, List<Act>)>
    requires { place < length nodes.old }
    ensures { IfOk result (λ told. record { nodes = nodes.new; packets = told.0; acts = told.1 } ≡ turn_of N.transition nodes.old place what.now) }
{
    match nodes.get_mut(place) {
        None => Ok((List::new(alloc), List::new(alloc))),
        Some(node) => node.step(alloc, what),
    }
}

/// Puts packets behind those that were sent, with this clock.
pub fn send_all(
    alloc: Global,
    sent: &mut List<SharedPacket>,
    clock: u64,
    packets: List<Packet>,
) -> Mem<()>
    ensures { OnOk result (sent.new ≡ sent.old ++ map (sent_at clock) packets) }
{
    for packet in packets.into_vec() {
        let mut packet = packet;
        packet.clock = clock;
        sent.push(SharedPacket::of(alloc, packet)?)?;
    }
    Ok(())
}

/// Puts acts behind those that were done.
pub fn note_all(done: &mut List<Act>, acts: List<Act>) -> Mem<()>
    ensures { OnOk result (done.new ≡ done.old ++ acts) }
{
    for act in acts.into_vec() {
        done.push(act)?;
    }
    Ok(())
}

/// The clocks after an event of the node at a place.
pub fn set_clock(clocks: &mut List<u64>, place: usize, clock: u64)
    requires { place < length clocks.old }
    ensures { clocks.new ≡ slice_set clocks.old place clock }
{
    if let Some(kept) = clocks.get_mut(place) {
        *kept = clock;
    }
}
