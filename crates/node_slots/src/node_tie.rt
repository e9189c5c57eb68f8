//! What a node does in one event, as inputs of its token machines: the tie of the nodes to the small world
//! of tokens (`token_law`), for one slot of the map. It has no code: each function below has an empty body,
//! and its contract is a law, for a world whose logs keep their word and for one whose logs may lose what they
//! held. `specs/node_tie/Sight.antt` says how what nodes send is seen in the small world.

ghost use Rattle.node_slots.specs.node_tie.AskingEvents.{StartsAsking, EventsKeepAsking};
ghost use Rattle.node_slots.specs.node_tie.CleanerEvents.{CleanerStarts, CleanerTakes};
ghost use Rattle.node_slots.specs.node_tie.ClientEvents.{ClientStarts, ClientTakes};
ghost use Rattle.node_slots.specs.node_tie.ManagerEvents.{FirstManagerAgrees, ManagerEventGoes};
ghost use Rattle.node_slots.specs.node_tie.RegistryEvents.{RegistryEventGoes, RegistryStarts};
ghost use Rattle.node_slots.specs.node_tie.StoreEvents.{ServersSay};

/// A client asks for at most one block, the one that its open call needs, in the mode that it needs
/// (the 1996 paper, on cache consistency).
///
/// - `start`: it does so before its first event.
/// - `events`: each event keeps it so, whatever a packet says.
pub fn clients_ask_for_their_call()
    ensures start { StartsAsking }
    ensures events { EventsKeepAsking }
{}

/// What an event makes of a client is a run of the small world, if the packet that comes was sent there.
///
/// - `start`: a client at its start is seen in the opening of the small world.
/// - `events`: a client that is seen there before an event is seen after it in a world to which that one
///   runs on; all that the client sends was sent there, and what it acts is acted there, in that order. Where logs
///   keep their word, its log is seen, too, and what is filed of it in the event said the same before, if what the
///   client reads of a place is what the segment there says, and a log that is open again ends where the books do.
pub fn client_events_are_seen()
    ensures start { ClientStarts }
    ensures events { ClientTakes }
{}

/// What an event makes of a manager is a run of the small world, if the packet that comes was sent there and
/// nobody entered an epoch that is new to the manager; and, where logs keep their word, if the Deltas that a
/// slot takes cover its index, and a takeover gathered what was filed.
///
/// - `start`: a manager at its start is seen in the opening of the small world.
/// - `events`: a manager that is seen there before an event is seen after it in a world to which that one
///   runs on; all that the manager sends was sent there, and all that it acts is done there.
pub fn manager_events_are_seen()
    ensures start { FirstManagerAgrees }
    ensures events { ManagerEventGoes }
{}

/// What the registry, servers and the cleaner do to the epochs of a slot, and what they send.
///
/// - `start`: the registry has epoch 1 of each slot, and each manager in its first incarnation.
/// - `events`: an event leaves a slot as it was or gives it anew under the next epoch; a manager that tells
///   of a later incarnation has its slots given anew; what the registry sends tells of its present maps.
/// - `servers`: they send nothing of tokens and no maps, and none of their acts changes a history.
/// - `cleaner_start`: the cleaner has promised epoch 1 of each slot, its log is empty, and it has no job.
/// - `cleaner`: what it has promised of a slot doesn't fall, also over a restart, and it reports no later epoch; it
///   sends nothing else of tokens and no maps, and none of its acts changes a history. Its event is a run of the
///   small world, in which its acts are done and of logs its own alone changes: where logs keep their word it writes
///   copies of what filed segments say, if what a Live tells it is so.
pub fn other_events_are_seen()
    ensures start { RegistryStarts }
    ensures events { RegistryEventGoes }
    ensures servers { ServersSay }
    ensures cleaner_start { CleanerStarts }
    ensures cleaner { CleanerTakes }
{}
