//! What a manager says is lost while it takes a slot over was torn, or was deleted, in every run of the nodes' world. It has no code of the product: the
//! function below calls the laws that it stands on, and its contract is a law. `specs/taking_law/Takings.antt` says it in words of the nodes.

ghost use Rattle.run_losses.specs.taking_law.Takings.{TakeoversLoseWhatIsTorn};

use log_tie::settings_exist;
use run_laws::reading_law::readers_hold_what_came;
use run_laws::world_logs::runs_keep_logs;

/// Whatever messages are lost, repeated or reordered, however disks are lost and rebuilt, and whichever nodes stop and start again: where a manager says
/// that a segment is lost, it takes a slot over in an epoch and has read that segment for it since a moment at which more members of the segment's group than
/// its parity makes good lacked their fragments while no server had been told to delete it, or servers have been told to delete it (the 1996 paper, on RAID).
/// So it is in every run of a script of whose setup a run can be started.
pub fn takeovers_lose_what_is_torn()
    ensures torn { TakeoversLoseWhatIsTorn }
{
    settings_exist();
    runs_keep_logs();
    readers_hold_what_came();
}
