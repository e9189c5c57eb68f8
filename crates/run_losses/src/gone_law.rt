//! What a client says is lost because a manager answered that it is gone, that manager had said was lost while it took the slot over, in every run of the
//! nodes' world. It has no code of the product: the function below calls the laws that it stands on, and its contract is a law. `specs/gone_law/Gones.antt`
//! says it in words of the nodes.

ghost use Rattle.run_losses.specs.gone_law.Gones.{ClientsAreToldWhatWasLost, GonesAreOfBroken, ManagersSayGoneWhatTheyLost};

use log_tie::settings_exist;
use manager_moves::manager_events_are_moves;
use run_laws::reading_law::readers_hold_what_came;
use run_laws::world_law::nodes_are_seen;
use run_laws::world_logs::runs_keep_logs;

/// What is said to be gone was lost, whatever messages are lost, repeated or reordered, however disks are lost and rebuilt, and whichever nodes stop and start
/// again (the 1996 paper, on RAID).
///
/// - `node`: each Gone that a manager sends is of a slot that is broken then, in the epoch that it names and by the segment that it names.
/// - `managers`: where a slot of a manager of a run is broken in an epoch, that manager said before that the segment was lost, while it took this slot over
///   in that epoch, and so it did where it has sent a Gone: at a moment since which it has read the segment there more members of the segment's group than
///   its parity makes good lacked their fragments while no server had been told to delete it, or by then servers had been told to delete it.
/// - `clients`: where a client of a run that serves says that a segment is lost at an event that brings it a Gone of that segment, the Gone is a manager's
///   that was sent, it names the epoch that the client has promised for the slot of its block, and that manager said so before of that slot in that epoch.
pub fn gone_was_lost()
    ensures node { GonesAreOfBroken }
    ensures managers { ManagersSayGoneWhatTheyLost }
    ensures clients { ClientsAreToldWhatWasLost }
{
    manager_events_are_moves();
    settings_exist();
    runs_keep_logs();
    readers_hold_what_came();
    nodes_are_seen();
}
