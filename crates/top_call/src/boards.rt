//! What the program does for the word `boards`: it plays a script with three boards in the registry's place.
ghost use Rattle.std.specs.Prelude.{◌≡◌, ◌≤◌, None, IfOk, IfSome};
ghost use Rattle.board_law.specs.OneRun.{HasRegistry};
ghost use Rattle.script_print.specs.Printing.{IsScript};
ghost use Rattle.board_play.specs.Played.{IsBoardPlayed};
ghost use Rattle.board_play.specs.Plays.{estate_of};
ghost use Rattle.top_call.specs.Claim.{writing, boards_in, boards_wanted, run_answer, IsPlayedWithBoards, TellsOrGivesUp};
ghost use Rattle.transcript.specs.Text.{text_of};
ghost use Rattle.top_call.specs.Mounts.{NoReplies};
ghost use Rattle.top_call.specs.Told.{boards_where};

use crate::Outcome;
use crate::one_thread::{ended, write_run};
use crate::outside::Sink;
use board_play::{BoardEstate, board_play};
use script_text::Script;
use std::alloc::Global;
use world_base::Member;
use xfs_base::Mem;

/// Plays a script with boards.
fn played<N: Member>(alloc: Global, script: &Script) -> Mem<BoardEstate<N>>
    requires { IsScript script.now }
    ensures exact { IfOk result (λ e. e ≡ estate_of N.transition N.first script.now) }
    ensures played { IfOk result (λ e. HasRegistry N.transition N.first → IsBoardPlayed N.transition N.first e) }
{
    let estate = board_play::<N>(alloc, script)?;
    Ok(estate)
}

/// Writes the text of an estate with boards.
fn write_boards<N: Drop, K: Sink>(alloc: Global, played: BoardEstate<N>, sink: &mut K) -> Outcome<N>
    ensures told { TellsOrGivesUp (writing K.written K.faults sink.old sink.new) result (run_answer (text_of played.estate) played.estate) }
    ensures estate { IfSome result.estate (λ left. left ≡ played.estate) }
    ensures boards { result.boards ≡ boards_where result.estate played.events }
    ensures no_disks { result.disks ≡ None }
    ensures no_replies { NoReplies result.calls result.replies }
    ensures later { K.faults sink.old ≤ K.faults sink.new }
{
    let (estate, events) = played.into_parts();
    let outcome = write_run(alloc, estate, sink);
    outcome.with_boards(events)
}

/// Plays a script with boards, and writes the text of what it leaves.
pub(crate) fn play_boards<N: Member, K: Sink>(
    alloc: Global,
    script: &Script,
    sink: &mut K,
) -> Outcome<N>
    requires { IsScript script.now }
    ensures told { TellsOrGivesUp (writing K.written K.faults sink.old sink.new) result (boards_wanted N.transition N.first script.now) }
    ensures one_run { IfSome result.estate (λ e. IsPlayedWithBoards N.transition N.first e) }
    ensures boards { result.boards ≡ boards_in N.transition N.first result.estate }
    ensures no_disks { result.disks ≡ None }
    ensures no_replies { NoReplies result.calls result.replies }
    ensures later { K.faults sink.old ≤ K.faults sink.new }
{
    match played::<N>(alloc, script) {
        Ok(estate) => write_boards(alloc, estate, sink),
        Err(_) => ended(7),
    }
}
