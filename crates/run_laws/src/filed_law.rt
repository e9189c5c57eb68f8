//! What is told of logs was filed, in every run of the nodes' world: no horizon of a checkpoint is more than one beyond a segment that was acted to be filed.
//! It has no code of the product: each function below calls the laws that it stands on, and its contract is a law.

ghost use Rattle.run_laws.specs.filed_law.NodeLaws.{NodeLaws};
ghost use Rattle.run_laws.specs.filed_law.Told.{EventsKeepTold, EveryRunToldWasFiled, RunsStartTold, ToldHorizonsWereFiled};

use node_tellings::filed_tie::{
    cleaner_tells_what_is_filed, clients_tell_what_is_filed, managers_tell_what_is_filed,
    registry_tells_what_is_filed, servers_tell_what_is_filed,
};

/// What each kind of node holds and tells of logs was filed: the laws of the nodes on which the laws of runs stand.
pub fn nodes_tell_what_is_filed()
    ensures { NodeLaws }
{
    clients_tell_what_is_filed();
    managers_tell_what_is_filed();
    servers_tell_what_is_filed();
    cleaner_tells_what_is_filed();
    registry_tells_what_is_filed();
}

/// At each moment of every run no node holds, and no packet that was sent tells, anything of logs beyond what was filed in the acts up to then: no end that is
/// reported, no deltas, nothing applied and no horizon.
///
/// - `start`: so it is before the first event.
/// - `events`: each event keeps it so.
/// - `runs`: so it is at the end of each run, and hence of each front of one.
/// - `horizons`: where it is so, the least horizon of a log that the registry keeps is 1, or no more than one beyond a segment of the log that was filed.
pub fn what_is_told_was_filed()
    ensures start { RunsStartTold }
    ensures events { EventsKeepTold }
    ensures runs { EveryRunToldWasFiled }
    ensures horizons { ToldHorizonsWereFiled }
{
    nodes_tell_what_is_filed();
}
