//! What a board may be offered.
ghost use Rattle.std.specs.Prelude.{◌≡◌};
ghost use Rattle.board.specs.Heard.{is_heard, is_told};
ghost use Rattle.board.specs.Offering.{command_of};

use crate::Command;
use wire_msg::{Body, Do};

// Whether the registry takes notice of such a packet.
fn is_told(body: &Body) -> bool
    ensures { result ≡ is_told body.now }
{
    match body {
        Body::Hello(_) => true,
        Body::CkptDone(_) => true,
        _ => false,
    }
}

// Whether what happens changes the registry, or has it send.
fn is_heard(what: &Do) -> bool
    ensures { result ≡ is_heard what.now }
{
    match what {
        Do::Begin => true,
        Do::Deliver(packet) => is_told(&packet.as_packet().body),
        Do::Tick => true,
    }
}

impl Command {
    /// That this happens to the registry, with the number of the item that a Begin begins; none where the registry
    /// takes no notice of it.
    pub fn of(what: Do, item: u32) -> Option<Command>
        ensures { result ≡ command_of what item }
    {
        if is_heard(&what) {
            Some(Command { what, item })
        } else {
            None
        }
    }
}
