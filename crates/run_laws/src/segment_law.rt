//! What was ever in flight in the log of a client tells of blocks at first hand, in every run of the nodes. It has no code: the contract of each function
//! below is a law.

ghost use Rattle.run_laws.specs.segment_law.Flown.{ClientsFlewOriginals, LogsGoOnOriginal};
ghost use Rattle.run_laws.specs.segment_law.WritingLaws.{WritingLaws};

use crate::segment_tie::{items_say_all, runs_write_so};
use crate::world_lines::what_flies_is_its_text;

/// What was ever in flight in the log of a client: each such segment has Blocks and Deltas alone, each Delta of a version from 1 on that was never moved, of no
/// block two, and each Delta names the Block of its value. So it is of what is filed in the log, which was in flight.
///
/// - `events`: it stays so over what an event of the client makes of the small world of its log.
/// - `runs`: it is so at each count of the events of a run.
pub fn clients_flew_originals()
    ensures events { LogsGoOnOriginal }
    ensures runs { ClientsFlewOriginals }
{}

/// What the owners of logs write, on which the laws of runs stand.
pub fn writing_laws()
    ensures { WritingLaws }
{
    items_say_all();
    what_flies_is_its_text();
    runs_write_so();
    clients_flew_originals();
}
