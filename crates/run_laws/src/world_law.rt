//! The laws of every run of the nodes' world: no block has two owners, no slot two managers at one epoch,
//! nobody holds what a client fell with that isn't back, and falls are apart. It has no code of the product: each function below
//! calls the laws that it stands on, and its contract is a law. The proof carries, for each slot of the map, a
//! run of the small world of tokens (`token_law`) beside the run of the nodes; `specs/world_law/Standing.antt` says how the
//! two stand to each other. Each event keeps them so (`proofs/world_law/Turns.antt`), also in a world whose logs keep their
//! word, where these give the event what `specs/world_law/Owes.antt` says.

ghost use Rattle.run_laws.specs.world_law.Fallen.{EveryRunHasFallsApart, NobodyHoldsWhatFell};
ghost use Rattle.run_laws.specs.world_law.Managers.{EveryRunHasOneManager};
ghost use Rattle.run_laws.specs.world_law.NodeLaws.{NodeLaws};
ghost use Rattle.run_laws.specs.world_law.Owners.{EveryRunHasOneOwner};

use node_slots::node_tie::{
    client_events_are_seen, clients_ask_for_their_call, manager_events_are_seen,
    other_events_are_seen,
};
use token_law::{acts_are_legal, tokens_keep_their_word};

/// What each kind of node does in an event is seen in the small world of tokens: the laws of the nodes on which the laws of runs stand.
pub fn nodes_are_seen()
    ensures { NodeLaws }
{
    clients_ask_for_their_call();
    client_events_are_seen();
    manager_events_are_seen();
    other_events_are_seen();
}

/// In every run, whatever messages are lost, repeated or reordered and whichever nodes stop, at each of its
/// moments a block has one owner at most, and then no other client holds it (the 1996 paper, on cache
/// consistency). It asks nothing of losses of storage.
///
/// - `one_owner`: so it is of every run of a script of whose setup a run can be started.
pub fn every_run_has_one_owner()
    ensures one_owner { EveryRunHasOneOwner }
{
    nodes_are_seen();
    tokens_keep_their_word();
}

/// In every run, at each of its moments, a slot of the map has one manager at an epoch at most, and what that
/// believes covers what is held and what may still be taken (the 1996 paper, on cache consistency). It asks nothing of losses of storage.
///
/// - `one_manager`: of every run of a script of whose setup a run can be started, at each moment and of each
///   slot: no two managers manage it at one epoch, none at an epoch above the registry's; each client that
///   serves, and the cleaner where it serves, has promised each epoch at which a manager manages it; and who manages it at the registry's epoch
///   believes of each client that serves at least what that holds, and what a Grant that was sent to it would
///   give, where it would still accept that.
pub fn every_run_has_one_manager()
    ensures one_manager { EveryRunHasOneManager }
{
    nodes_are_seen();
    tokens_keep_their_word();
}

/// In every run, at each of its moments, nobody holds a block with which a client fell that isn't back (the 1996
/// paper, on cache consistency): its act Fell named the block, and its act Back hasn't come. It asks nothing of
/// losses of storage.
///
/// - `nobody`: so it is of every run of a script of whose setup a run can be started.
/// - `apart`: in every such run no client falls again before it is back, and no fall names a block twice.
pub fn what_fell_is_held_by_nobody()
    ensures nobody { NobodyHoldsWhatFell }
    ensures apart { EveryRunHasFallsApart }
{
    nodes_are_seen();
    tokens_keep_their_word();
    acts_are_legal();
}
