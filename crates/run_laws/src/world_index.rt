//! The law of every run of the nodes' world about where blocks lie: the index of each slot is the join of what it has applied, and cleaning loses nothing. It
//! has no code of the product: its function calls the laws that it stands on, and its contract is a law. The proof carries, for each slot of the map, a run of
//! the small world of the slot's index (`index_tie`) beside the run of the nodes and that of the small world of tokens (`world_law`);
//! `specs/world_index/Standing.antt` says how the two stand to each other. Each event keeps them so (`proofs/world_index/Turns.antt`), where it is given what
//! `specs/world_index/Owes.antt` says that it is owed, which is not shown here; what that file says that tokens give is shown
//! (`proofs/world_index/Tokens.antt`).

ghost use Rattle.run_laws.specs.world_index.Laws.{EveryRunKeepsIndexes};
ghost use Rattle.run_laws.specs.world_index.NodeLaws.{NodeLaws};

use crate::world_law::nodes_are_seen;
use index_tie::cleaning_loses_nothing;
use node_slots::node_index_tie::{manager_events_are_seen, registry_events_are_seen};
use node_slots::owner_index_tie::{
    cleaner_index_events_are_seen, client_index_events_are_seen, server_index_events_are_seen,
};

/// What each kind of node does in an event is seen in the small world of a slot's index: the laws of the nodes on which the laws of runs stand.
pub fn index_events_are_seen()
    ensures { NodeLaws }
{
    nodes_are_seen();
    client_index_events_are_seen();
    cleaner_index_events_are_seen();
    server_index_events_are_seen();
    manager_events_are_seen();
    registry_events_are_seen();
    cleaning_loses_nothing();
}

/// In every run whose events are given what they are owed, whatever messages are lost, repeated or reordered and
/// whichever nodes stop, the index of a slot says of each block the newest that it was told, and the cleaner deletes
/// no segment that has the newest version of a block (the 1996 paper, on the log cleaner).
///
/// - `keeps`: so it is of every run of a script of whose setup a run can be started, at each moment and of each slot: the index of each
///   manager that manages the slot is the join of what it has applied of the logs, and no Delete was sent of a segment that has the
///   newest row of a block.
pub fn runs_keep_indexes()
    ensures keeps { EveryRunKeepsIndexes }
{
    nodes_are_seen();
    index_events_are_seen();
    cleaning_loses_nothing();
}
