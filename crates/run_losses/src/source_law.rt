//! What a manager reads while it takes a slot over had been filed and is stored, so what it says is lost had been filed, in every run of the nodes' world. It
//! has no code of the product: the functions below call the laws that they stand on, and their contracts are laws. `specs/source_law/Sources.antt` says them in
//! words of the nodes.

ghost use Rattle.run_losses.specs.source_law.Sources.{TakeoversLoseWhatWasFiled, TakeoversReadWhatIsStored, TakeoversReadWhatWasFiled};

use crate::taking_law::takeovers_lose_what_is_torn;
use log_law::laws_of_logs;
use run_laws::reading_law::readers_hold_what_came;
use run_laws::world_reads::every_run_stands;

/// At each moment of every run up to which no restart of a client or of the cleaner was doubtful, of what a manager reads then while it takes a slot over, a
/// part of the checkpoint that its news name or a segment of a log (the 1996 paper, on recovery of managers):
///
/// - `filed`: it had been filed: a client, the cleaner or a manager told so by then.
/// - `stored`: unless a server was told to delete it, each member of its group holds its fragment or has lost its disk since the group was made; so where it is
///   torn more have lost their disk than the parity makes good (on RAID).
pub fn takeovers_read_what_was_filed()
    ensures filed { TakeoversReadWhatWasFiled }
    ensures stored { TakeoversReadWhatIsStored }
{
    every_run_stands();
    readers_hold_what_came();
    laws_of_logs();
}

/// Where a manager says that a segment is lost, in an event up to which no restart of a client or of the cleaner was doubtful, it takes a slot over in an epoch
/// and has read that segment for it since a moment at which the segment had been filed, and at which more members of its group than the parity makes good
/// lacked their fragments, or servers have been told to delete it; where it was torn and none had been told so by that moment, more members had lost their disk
/// than the parity makes good (the 1996 paper, on RAID).
pub fn takeovers_lose_what_was_filed()
    ensures losses { TakeoversLoseWhatWasFiled }
{
    takeovers_read_what_was_filed();
    takeovers_lose_what_is_torn();
}
