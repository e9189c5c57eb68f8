//! Only what is gone is refused as lost, in every run of the nodes' world. It has no code of the product: the function below calls the laws that it stands
//! on, and its contract is a law. `specs/Losses.antt` of `headline` says when it is.

ghost use Rattle.run_losses.specs.earned_law.Earned.{LostActsAreEarned};

use crate::lost_law::reads_lose_what_is_torn;
use crate::reader_law::only_readers_say_lost;
use crate::source_law::takeovers_lose_what_was_filed;
use crate::taking_law::takeovers_lose_what_is_torn;
use crate::whole_law::reopenings_lose_what_was_whole;

/// Whatever messages are lost, repeated or reordered, however disks are lost and rebuilt, and whichever nodes stop and start again: each act that a segment
/// is lost is of the node to which the event happens, and it is earned, in one of three ways (the 1996 paper, on RAID). A client, or the cleaner, scans its
/// log to open it: the segment was torn at a moment since it began to, and whole there but for lost disks. A manager takes a slot over: the segment was torn
/// while it read it for that, or had been deleted; and it had been filed, up to the first doubtful restart. A client serves and its item waits for its
/// answer: up to the first doubtful restart the segment was torn while the call of the item read it, or while a manager read it that told the client so, in
/// the epoch that the client has promised; and it had been filed, and not deleted. So it is in every run of a script of whose setup a run can be started.
pub fn each_lost_act_is_earned()
    ensures earned { LostActsAreEarned }
{
    only_readers_say_lost();
    reopenings_lose_what_was_whole();
    takeovers_lose_what_is_torn();
    takeovers_lose_what_was_filed();
    reads_lose_what_is_torn();
}
