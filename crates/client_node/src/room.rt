//! The ends of counters: whether each is at least 65,536 below its end.
ghost use Rattle.std.specs.Prelude.{◌≡◌};
ghost use Rattle.client_node.specs.Phases.{phase_has_room};
ghost use Rattle.client_node.specs.Room.{asked_again, epochs_have_room, open_block, serving_has_room};

use crate::Phase;
use client_serving::Serving;
use log_owner::log_has_room;
use node_base::has_room;
use token_client::Tokens;
use xfs_base::limits::SLOT_COUNT;

/// Whether each counter of a phase is.
pub(crate) fn phase_has_room(phase: &Phase) -> bool
    ensures { result ≡ phase_has_room phase.now }
{
    match phase {
        Phase::Down(_) => true,
        Phase::Opening(_, opening) => opening.has_room(),
        Phase::Serving(serving) => serving_has_room(serving),
    }
}

fn serving_has_room(serving: &Serving) -> bool
    ensures { result ≡ serving_has_room serving.now }
{
    has_room(serving.maps.version)
        && has_room(serving.tokens.asked())
        && log_has_room(&serving.log)
        && epochs_have_room(&serving.tokens)
        && has_room(asked_again(serving))
}

// Whether each promised epoch is at least 65,536 below its end.
#[tactic(auto, unfolding(crate::specs::Room::epochs_have_room))]
fn epochs_have_room(tokens: &Tokens) -> bool
    ensures { result ≡ epochs_have_room tokens.now }
{
    for slot in 0..SLOT_COUNT {
        if !has_room(tokens.promised(slot)) {
            return false;
        }
    }
    true
}

// How often the open call asked again for its block.
fn asked_again(serving: &Serving) -> u32
    ensures { result ≡ asked_again serving.now.tokens (open_block serving.now.call) }
{
    let Some(call) = &serving.call else {
        return 0;
    };
    match call.block() {
        Some(block) => serving.tokens.repetition(block),
        None => 0,
    }
}
