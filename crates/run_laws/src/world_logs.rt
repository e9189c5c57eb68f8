//! The laws of every run of the nodes' world about the logs of clients, of the cleaner and of managers: what was told to be filed is whole, and one name has
//! one text. It has no code of the product: each function below calls the laws that it stands on, and its contract is a law. The proof carries, for each of
//! these owners, a run of the small world of its log (`log_law`) beside the run of the nodes; `specs/world_logs/Standing.antt` says how the two stand to each
//! other.

ghost use Rattle.run_laws.specs.world_logs.Horizons.{RunsReachHorizons};
ghost use Rattle.run_laws.specs.world_logs.Lines.{LinesHaveTexts, RunsHaveLines};
ghost use Rattle.run_laws.specs.world_logs.Listing.{RunsListTheirLogs};
ghost use Rattle.run_laws.specs.world_logs.Logs.{RunsKeepLogs, RunsKeepManagersLogs, RunsKeepTheCleanersLog};
ghost use Rattle.run_laws.specs.world_logs.NodeLaws.{LogEvents, NodeLaws};

use crate::filed_law::nodes_tell_what_is_filed;
use crate::world_law::nodes_are_seen;
use group_map::laws::groups_stay_as_made;
use log_law::laws_of_logs;
use log_tie::settings_exist;
use node_logs::cleaner_log_tie::cleaner_log_events_are_seen;
use node_logs::client_log_tie::client_log_events_are_seen;
use node_logs::manager_log_tie::{
    manager_log_events_are_seen, servers_list_what_was_stored, what_is_told_is_in_range,
    what_servers_tell_is_bytes,
};
use node_logs::node_log_tie::{
    cleaner_events_are_seen, registry_events_are_seen, server_events_are_seen,
};

/// What each kind of node does in an event is seen in the small world of a log: that of its owner, and of those that have none.
pub fn log_events_are_seen()
    ensures { LogEvents }
{
    client_log_events_are_seen();
    server_events_are_seen();
    registry_events_are_seen();
    cleaner_events_are_seen();
    cleaner_log_events_are_seen();
    manager_log_events_are_seen();
    what_servers_tell_is_bytes();
    servers_list_what_was_stored();
}

/// The laws of the nodes, and of the small world of a log, on which the laws of runs stand.
pub fn logs_are_seen()
    ensures { NodeLaws }
{
    nodes_are_seen();
    log_events_are_seen();
    what_is_told_is_in_range();
    laws_of_logs();
}

/// Whatever messages are lost, repeated or reordered, and whichever nodes stop and start again, logs are whole at
/// each moment of a run (the 1996 paper, on RAID): of each segment that the owner of a log told to be filed, and of
/// which no Delete was sent, each member of its group holds its fragment, or its server has lost its disk since the
/// group was made; and whatever is held, stored or sent under a name of the log is a fragment of one segment, the
/// same for all of that name.
///
/// - `horizons`: in every run of a script of whose setup a run can be started, the least horizon that the registry
///   keeps of a client's log, or of the cleaner's, is 1 at most, or no more than one beyond a segment that this
///   owner itself told to be filed.
/// - `keeps`: the logs of clients are whole, and one name has one text, in every such run, however clients fall and open their logs again.
/// - `cleaners`: so is the cleaner's log.
/// - `managers`: so is the log of each manager, which begins anew wherever the manager restarts.
/// - `lines`: each of these logs has a line in such a run: its small world at each count of the events, each of which runs on to the next, by its owner alone
///   at an event of its owner.
/// - `lists`: what a server lists in such a run is of a log of the run's clients, of its cleaner or of its managers.
/// - `texts`: lines have one text of each name: that of each segment of the name that was in flight in any log, at any count.
pub fn runs_keep_logs()
    ensures horizons { RunsReachHorizons }
    ensures keeps { RunsKeepLogs }
    ensures cleaners { RunsKeepTheCleanersLog }
    ensures managers { RunsKeepManagersLogs }
    ensures lines { RunsHaveLines }
    ensures lists { RunsListTheirLogs }
    ensures texts { LinesHaveTexts }
{
    logs_are_seen();
    nodes_tell_what_is_filed();
    groups_stay_as_made();
    settings_exist();
}
