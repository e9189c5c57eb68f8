//! What a reopening says is lost was torn, in every run of the nodes' world. It has no code of the product: the function below calls the laws that it stands
//! on, and its contract is a law. `specs/torn_law/Torn.antt` says it in words of the nodes.

ghost use Rattle.run_losses.specs.torn_law.Torn.{ReopeningsLoseWhatIsTorn};

use log_tie::settings_exist;
use run_laws::world_logs::runs_keep_logs;

/// Whatever messages are lost, repeated or reordered, however disks are lost and rebuilt, and whichever nodes stop and start again: where a client, or the
/// cleaner, says while it opens its log that a segment is lost, there was a moment since it began to open the log at which it read the segment, more members of
/// the segment's group than its parity makes good lacked their fragments, and no server had been told to delete it (the 1996 paper, on RAID). So it is in every
/// run of a script of whose setup a run can be started.
pub fn reopenings_lose_what_is_torn()
    ensures torn { ReopeningsLoseWhatIsTorn }
{
    settings_exist();
    runs_keep_logs();
}
