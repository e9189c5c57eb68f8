//! What is settled of each block is the newest of what logs filed, in every run of the nodes' world. It has no code of the product: the function below calls the
//! laws that it stands on, and its contract is a law. `specs/Settled.antt` of `headline` says it in words of the nodes.

ghost use Rattle.run_holdings.specs.settled_law.Settled.{EveryRunsBlocksAreSettled};

use log_law::laws_of_logs;
use node_slots::owner_index_tie::server_index_events_are_seen;
use run_laws::restart_law::undoubted_runs_are_sure;
use run_laws::world_law::nodes_are_seen;
use run_laws::world_lines::lines_are_filed;
use run_laws::world_reads::every_run_stands;
use token_law::dirty_blocks_lead;

/// What is settled of a block, at each moment of every run up to which no restart that ended was doubtful, whatever messages are lost, repeated or reordered and
/// whichever nodes stop (the 1996 paper, on cache consistency and on recovery): by the run's own table of what logs filed, the join of all that is filed of a
/// block is its newest version, and lies where that version's value is, where no client that serves has the block dirty and none fell with it that isn't back.
/// Where a client has it dirty, the join is the version that the client knows as settled, its own is the newest, and all versions above the settled one are its.
pub fn what_is_settled_is_the_join()
    ensures settled { EveryRunsBlocksAreSettled }
{
    laws_of_logs();
    nodes_are_seen();
    server_index_events_are_seen();
    undoubted_runs_are_sure();
    lines_are_filed();
    every_run_stands();
    dirty_blocks_lead();
}
