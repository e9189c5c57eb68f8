//! What a client says is lost while it reads a block was torn then, in every run of the nodes' world up to the first doubtful restart. It has no code of the
//! product: the function below calls the laws that it stands on, and its contract is a law. `specs/lost_law/Reads.antt` says it in words of the nodes.

ghost use Rattle.run_losses.specs.lost_law.Reads.{ReadsLoseWhatIsTorn};

use crate::fetched_law::calls_read_what_was_filed;
use crate::fetching_law::fetches_lose_what_is_torn;
use crate::keeping_law::grants_lead_to_what_stands;
use crate::standing_law::what_is_gone_stood;

/// Whatever messages are lost, repeated or reordered, however disks are lost and rebuilt, and whichever nodes stop and start again: where a client that
/// serves says that a segment is lost, there was a moment at which the segment had been filed and more members of its group than the parity makes good lacked
/// their fragments, while no server had been told to delete it (the 1996 paper, on RAID). Either the client's open call reads the segment, and the call of
/// the same item has read it from that moment on; or a manager told it so, in the epoch that the client has promised for the slot of the block, and that
/// manager read the segment from that moment on, until it said so, while it took the slot over in that epoch. So it is in every run of a script of whose
/// setup a run can be started, while no restart that ended was doubtful.
pub fn reads_lose_what_is_torn()
    ensures earned { ReadsLoseWhatIsTorn }
{
    fetches_lose_what_is_torn();
    what_is_gone_stood();
    grants_lead_to_what_stands();
    calls_read_what_was_filed();
}
