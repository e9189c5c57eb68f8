//! What managers believe of clients covers what these hold and would still accept, in every run of the nodes' world. It has no code of the product: the function
//! below calls the laws that it stands on, and its contract is a law. `specs/Beliefs.antt` of `headline` says it in words of the nodes.

ghost use Rattle.run_holdings.specs.belief_law.Beliefs.{EveryRunsManagersBelieve};

use run_laws::world_law::nodes_are_seen;
use token_law::tokens_keep_their_word;

/// A manager of a slot at an epoch, be it the registry's or an earlier one, believes of each client that serves and has promised that epoch at least what it
/// holds, that it has a copy of what it reads, and what it would still accept of Grants, Supplies and Forwards that were sent; and so it believes of each client
/// that serves, whatever that has promised, until one manages the slot at a greater epoch. Once it no longer manages the slot, the same is so of what it believed
/// at the last moment at which it did. So it is at each moment of every run, whatever messages are lost, repeated or reordered and whichever nodes stop (the 1996
/// paper, on cache consistency and on managers). It asks nothing of losses of storage.
pub fn managers_believe_their_clients()
    ensures believed { EveryRunsManagersBelieve }
{
    nodes_are_seen();
    tokens_keep_their_word();
}
