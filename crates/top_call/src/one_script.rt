//! What the program does for the words `run`, `boards` and `disks`: it reads a script, and plays it by one thread.
ghost use Rattle.std.specs.Prelude.{Some};
ghost use Rattle.script_print.specs.Printing.{IsScript};
ghost use Rattle.top_call.specs.Claim.{writing, reading, Claim};
ghost use Rattle.top_call.specs.Disks.{DisksOf};
ghost use Rattle.top_call.specs.Mounts.{NoReplies};
ghost use Rattle.top_call.specs.Ways.{AnswersBy, command_by};

use crate::Outcome;
use crate::boards::play_boards;
use crate::disks::play_disks;
use crate::one_thread::play_script;
use crate::outside::{Sink, Source};
use crate::unread::{end_unread, read_script};
use script_text::Script;
use shelved_nodes::Shelved;
use std::alloc::Global;

/// How one thread plays a script.
#[derive(Clone, Copy, PartialEq, Eq)]
pub enum Way {
    /// With one registry, and without disks.
    Plainly,
    /// With three boards in the registry's place.
    WithBoards,
    /// With servers that stop and keep their disk.
    WithDisks,
}

/// Plays a script in a way, and writes the text of what it leaves.
fn play_by<N: Shelved, K: Sink>(
    alloc: Global,
    way: Way,
    script: &Script,
    sink: &mut K,
) -> Outcome<N>
    requires { IsScript script.now }
    ensures answer { AnswersBy N.transition N.first (command_by way) script.now (writing K.written K.faults sink.old sink.new) result }
    ensures disks { DisksOf N.transition N.first N.shelf_of (Some (command_by way)) result.estate result.disks }
    ensures no_replies { NoReplies result.calls result.replies }
{
    match way {
        Way::Plainly => play_script(alloc, script, sink),
        Way::WithBoards => play_boards(alloc, script, sink),
        Way::WithDisks => play_disks(alloc, script, sink),
    }
}

/// Reads an input, and plays the script that it spells in a way.
pub(crate) fn answer_script<N: Shelved, S: Source, K: Sink>(
    alloc: Global,
    way: Way,
    source: &mut S,
    sink: &mut K,
) -> Outcome<N>
    ensures claim { Claim N.transition N.first (Some (command_by way)) (reading S.left S.faults source.old source.new)
        (writing K.written K.faults sink.old sink.new) result }
    ensures disks { DisksOf N.transition N.first N.shelf_of (Some (command_by way)) result.estate result.disks }
    ensures no_replies { NoReplies result.calls result.replies }
{
    match read_script(alloc, false, source) {
        Ok(script) => play_by(alloc, way, &script, sink),
        Err(why) => end_unread(alloc, why, sink),
    }
}
