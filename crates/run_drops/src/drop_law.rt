//! What servers are told to delete was dropped, and is below its horizon, in every run of the nodes' world. It has no code of the product: the
//! function below calls the laws that it stands on, and its contracts are laws. `specs/Deletions.antt` of `headline` says it in words of the nodes.

ghost use Rattle.run_drops.specs.drop_law.Drops.{EveryRunDeletesBelowHorizons, EveryRunDropsWhatItDeletes};

use log_tie::settings_exist;
use node_moves::cleaner_moves::cleaner_events_are_moves;
use run_laws::world_law::nodes_are_seen;
use run_laws::world_logs::runs_keep_logs;

/// What servers are told to delete, whatever messages are lost, repeated or reordered and whichever nodes stop (the 1996 paper, "The Log Cleaner").
///
/// - `dropped`: at each moment of a run no node but the cleaner has told a server to delete anything; a segment that a server has been told to delete was
///   dropped, in an act of an event by then or of that event; and what the cleaner drops in an event, a server is told to delete in that event.
/// - `below`: and it is below the least horizon of its log that the registry keeps, so nobody that opens the log reads it again; of a manager's log nothing is
///   deleted.
pub fn what_is_deleted_was_dropped()
    ensures dropped { EveryRunDropsWhatItDeletes }
    ensures below { EveryRunDeletesBelowHorizons }
{
    settings_exist();
    runs_keep_logs();
    nodes_are_seen();
    cleaner_events_are_moves();
}
