//! What a node does in one event, as what happens in the small world of one log (`log_law`): the tie of the nodes to it. It has no code: each function below
//! has an empty body, and its contract is a law. `specs/node_log_tie/Sight.antt` says how what nodes send is seen there.

ghost use Rattle.node_logs.specs.node_log_tie.CleanerEvents.{CleanerEventGoes, CleanerStarts};
ghost use Rattle.node_logs.specs.node_log_tie.CleanerStores.{CleanerStoresItsOwn};
ghost use Rattle.node_logs.specs.node_log_tie.RegistryEvents.{RegistryEventGoes, RegistryGoesAbove, RegistryStarts};
ghost use Rattle.node_logs.specs.node_log_tie.ServerEvents.{SentMapsName, ServerEventGoes, ServerStarts};

/// What an event makes of a storage server is a run of the small world, if the packet that comes was sent there and the maps that were sent there have each
/// group id name its stripe.
///
/// - `start`: a server at its start is seen where its shelf is empty.
/// - `events`: a server that is seen before an event is seen after it in a world to which that one runs on; all that it sends was sent there, and all but its
///   shelf and what was sent is as it was. What a rebuild fills in was listed, and cut from fragments that came.
/// - `maps`: at each moment of a run of the small world, maps that were sent have each group id name its stripe.
pub fn server_events_are_seen()
    ensures start { ServerStarts }
    ensures events { ServerEventGoes }
    ensures maps { SentMapsName }
{}

/// What an event makes of the registry is a run of the small world, if the packet that comes was sent there, and what the registry keeps is owed: the groups of
/// its map are those that their ids name, and no horizon that it keeps is beyond what was filed.
///
/// - `start`: at the start of a run the registry is seen where each server is of generation 1, and the least horizon is 1.
/// - `events`: a registry that is seen before an event is seen after it in a world to which that one runs on; all that it sends was sent there: maps that are
///   whole, and to the owner of the log the least horizon that is kept then.
/// - `above`: so it is of a log above 9, as a manager's is: no horizon tells of it, and none need be filed.
pub fn registry_events_are_seen()
    ensures start { RegistryStarts }
    ensures events { RegistryEventGoes }
    ensures above { RegistryGoesAbove }
{}

/// What an event makes of the cleaner is a run of the small world of another log than its own, by drops alone, if the packet that comes was sent there.
///
/// - `start`: the cleaner at its start is seen.
/// - `events`: a cleaner that is seen before an event is seen after it in a world to which that one runs on by drops: each segment of the log that it has
///   deleted was listed by a server, and is below the least horizon. All that it sends was sent there, and each segment that it acts to be dropped is dropped
///   there, and nothing but what it has servers delete; it stores and fences for its own log alone. Of a log above 9, as a manager's is, it drops nothing.
/// - `own`: each fragment that it has servers store is of its own log.
pub fn cleaner_events_are_seen()
    ensures start { CleanerStarts }
    ensures events { CleanerEventGoes }
    ensures own { CleanerStoresItsOwn }
{}
