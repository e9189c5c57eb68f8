//! What is sent of a segment in flight.
ghost use Rattle.std.specs.Prelude.{◌≡◌, ◌<◌, ◌++◌, length, OnOk};
ghost use Rattle.client_log.specs.Transition.{send_at, sending_send};

use crate::Out;
use group_map::Member;
use log_flight::Flight;
use std::alloc::Global;
use xfs_base::{List, Mem};

/// Sends each member its fragment, but for those that are noted.
#[tactic(auto, unfolding(crate::specs::Transition::sending_send))]
pub(crate) fn send(alloc: Global, outs: &mut List<Out>, flight: &Flight) -> Mem<()>
    ensures { OnOk result (outs.new ≡ outs.old ++ sending_send flight.now) }
{
    for (place, member) in flight.members().iter().enumerate() {
        send_at(alloc, outs, flight, *member, place)?;
    }
    Ok(())
}

fn send_at(
    alloc: Global,
    outs: &mut List<Out>,
    flight: &Flight,
    member: Member,
    place: usize,
) -> Mem<()>
    requires { place < length flight.now.group.members }
    ensures { OnOk result (outs.new ≡ outs.old ++ send_at flight.now member place) }
{
    if flight.has_noted(place) {
        return Ok(());
    }
    let fragment = flight.fragment(alloc, place)?;
    outs.push(Out::Send { fragment, member })
}
