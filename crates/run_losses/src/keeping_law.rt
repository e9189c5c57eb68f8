//! A Grant that a client would still accept leads to what stands, in every run of the nodes' world. It has no code of the product: the function below calls the
//! laws that it stands on, and its contract is a law. `specs/keeping_law/Keeping.antt` says it in words of the nodes, `specs/keeping_law/Grants.antt` what a
//! manager tells in a Grant.

ghost use Rattle.run_losses.specs.keeping_law.Grants.{ManagersGrantWhatTheyHold};
ghost use Rattle.run_losses.specs.keeping_law.Keeping.{GrantsLeadToWhatStands};

use index_tie::cleaning_loses_nothing;
use run_laws::restart_law::undoubted_runs_are_sure;
use run_laws::world_law::nodes_are_seen;
use run_laws::world_lines::lines_are_filed;
use run_laws::world_reads::every_run_stands;
use token_law::{grants_tell_the_newest, tokens_keep_their_word};

/// What a Grant tells of where a block lies (the 1996 paper, on cache consistency and on cleaning).
///
/// - `told`: whatever happens to a manager in whose slots wants wait in place, each Grant that it sends tells what its index holds of the block after the
///   event.
/// - `stood`: whatever messages are lost, repeated or reordered, whichever nodes stop and start again, and however epochs pass from manager to manager: at
///   each moment up to which no restart of a client or of the cleaner was doubtful, where a client that serves would accept a Grant that was sent to it, no
///   server had been told to delete the segment that it leads to, at any moment by which the Grant was not sent. So it is in every run of a script of whose
///   setup a run can be started.
pub fn grants_lead_to_what_stands()
    ensures told { ManagersGrantWhatTheyHold }
    ensures stood { GrantsLeadToWhatStands }
{
    nodes_are_seen();
    tokens_keep_their_word();
    grants_tell_the_newest();
    cleaning_loses_nothing();
    undoubted_runs_are_sure();
    lines_are_filed();
    every_run_stands();
}
