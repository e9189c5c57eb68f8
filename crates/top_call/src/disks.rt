//! What the program does for the word `disks`: it plays a script with servers that stop and keep their disk.
ghost use Rattle.std.specs.Prelude.{◌≡◌, ◌≤◌, None, IfOk, IfSome};
ghost use Rattle.disk_play.specs.Courses.{disk_estate_of, disks_of};
ghost use Rattle.script_print.specs.Printing.{IsScript};
ghost use Rattle.top_call.specs.Claim.{writing, run_answer, IsPlayedWithDisks, TellsDisks, TellsOrGivesUp};
ghost use Rattle.top_call.specs.Disks.{DisksGive, DisksIn};
ghost use Rattle.top_call.specs.Mounts.{NoReplies};
ghost use Rattle.top_call.specs.Told.{disks_where};
ghost use Rattle.transcript.specs.Text.{text_of};

use crate::Outcome;
use crate::one_thread::{ended, write_run};
use crate::outside::Sink;
use disk_play::{DiskEstate, disk_play};
use disk_shelf::an_image_stands_for_one_state;
use script_text::Script;
use shelved_nodes::Shelved;
use std::alloc::Global;
use xfs_base::Mem;

/// Plays a script with servers that stop and keep their disk.
fn played<N: Shelved>(alloc: Global, script: &Script) -> Mem<DiskEstate<N>>
    requires { IsScript script.now }
    ensures script { IfOk result (λ played. played.estate.script ≡ script.now) }
    ensures run { IfOk result (λ played. IsPlayedWithDisks N.transition N.first played.estate) }
    ensures determined { IfOk result (λ played. played.estate ≡ disk_estate_of N.transition N.shelf_of N.first played.estate.script) }
    ensures gives { IfOk result (λ played. DisksGive N.shelf_of played.estate (disks_of N.transition N.shelf_of N.first played.estate.script) played.disks) }
{
    an_image_stands_for_one_state();
    let played = disk_play::<N>(alloc, script)?;
    Ok(played)
}

/// Writes the text of an estate with disks.
fn write_disks<N: Drop, K: Sink>(alloc: Global, played: DiskEstate<N>, sink: &mut K) -> Outcome<N>
    ensures told { TellsOrGivesUp (writing K.written K.faults sink.old sink.new) result (run_answer (text_of played.estate) played.estate) }
    ensures estate { IfSome result.estate (λ left. left ≡ played.estate) }
    ensures disks { result.disks ≡ disks_where result.estate played.disks }
    ensures no_boards { result.boards ≡ None }
    ensures no_replies { NoReplies result.calls result.replies }
    ensures later { K.faults sink.old ≤ K.faults sink.new }
{
    let (estate, disks) = played.into_parts();
    let outcome = write_run(alloc, estate, sink);
    outcome.with_disks(disks)
}

/// Plays a script with servers that stop, and writes the text of what it leaves.
pub(crate) fn play_disks<N: Shelved, K: Sink>(
    alloc: Global,
    script: &Script,
    sink: &mut K,
) -> Outcome<N>
    requires { IsScript script.now }
    ensures told { TellsDisks N.transition N.first script.now (writing K.written K.faults sink.old sink.new) result }
    ensures one_run { IfSome result.estate (λ e. IsPlayedWithDisks N.transition N.first e) }
    ensures disks { DisksIn N.transition N.first N.shelf_of result.estate result.disks }
    ensures no_boards { result.boards ≡ None }
    ensures no_replies { NoReplies result.calls result.replies }
    ensures later { K.faults sink.old ≤ K.faults sink.new }
{
    match played::<N>(alloc, script) {
        Ok(played) => write_disks(alloc, played, sink),
        Err(_) => ended(7),
    }
}
