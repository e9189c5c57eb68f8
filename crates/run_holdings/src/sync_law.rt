//! Where a sync is done, all that its client wrote is settled. It has no code of the product: the function below calls the laws that it stands on, and its
//! contract is a law. `specs/Syncs.antt` of `headline` says it in words of the nodes.

ghost use Rattle.run_holdings.specs.sync_law.Syncs.{EachSyncSettles};

use crate::settled_law::what_is_settled_is_the_join;
use node_slots::client_law::writes_what_is_dirty;
use run_answers::linear_law::runs_are_linearizable;

/// In each run of a script of whose setup a run can be started: at the end of an event in which a client answers that a sync is done it has no dirty block. So up
/// to the first doubtful restart, of each block of which its version is the newest, and with which no client fell that isn't back, the join of all that is filed
/// is this version, and lies where its value is.
pub fn syncs_settle()
    ensures settles { EachSyncSettles }
{
    writes_what_is_dirty();
    runs_are_linearizable();
    what_is_settled_is_the_join();
}
