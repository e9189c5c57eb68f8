//! What a node does in one event, as inputs of the machines that know where blocks lie: the tie of the nodes to the small world
//! of `index_tie`, for one slot of the map. It has no code: each function below has an empty body, and its contract is a law.
//! `specs/node_index_tie/Sight.antt` says how what nodes send is seen in the small world.
//!
//! Of texts each name has one, which is given from outside: that what is filed, what a takeover reads and what a manager has in flight are
//! the texts of their names is owed, as is that Deltas, reports, news, checks and checkpoints that come tell what is so, and that no log is
//! at its last number. What events of clients and of the cleaner are as a whole isn't shown here, but what their feeds tell is.

ghost use Rattle.node_slots.specs.node_index_tie.ManagerEvents.{FirstManagerAgrees, ManagerEventGoes, ManagersStay};
ghost use Rattle.node_slots.specs.node_index_tie.OwnerEvents.{FeedsGrow, FeedsStay, OwnersTell};
ghost use Rattle.node_slots.specs.node_index_tie.RegistryEvents.{RegistryEventGoes, RegistryStarts};

/// What an event makes of a manager is a run of the small world, if the packet that comes was sent there and tells what is so.
///
/// - `start`: a manager at its start is seen in the opening of the small world.
/// - `events`: a manager that is seen there before an event is seen after it in a world to which that one runs on; what it sends of the slot
///   was sent there.
/// - `others`: what others do leaves a manager seen, where they leave it the slots that it holds.
pub fn manager_events_are_seen()
    ensures start { FirstManagerAgrees }
    ensures events { ManagerEventGoes }
    ensures others { ManagersStay }
{}

/// What an event makes of the registry is a run of the small world, if the checkpoint that comes was sent there: the epoch of the slot rises,
/// or a checkpoint of it is kept.
///
/// - `start`: the registry at its start is seen in the opening of the small world.
/// - `events`: a registry that is seen there before an event is seen after it in a world to which that one runs on; its maps tell of the slot
///   what that one keeps.
pub fn registry_events_are_seen()
    ensures start { RegistryStarts }
    ensures events { RegistryEventGoes }
{}

/// What the owner of a log, a client or the cleaner, tells managers of a slot is what the log filed.
///
/// - `tell`: Deltas that a feed has it send tell what was filed in their range, where the feed was told of what was filed.
/// - `stay`: an acknowledgement, and a new epoch of a slot, leave the feed so.
/// - `grow`: a feed that is told of what its log files is so again, and what another log files leaves it so.
pub fn what_owners_tell_is_filed()
    ensures tell { OwnersTell }
    ensures stay { FeedsStay }
    ensures grow { FeedsGrow }
{}
