//! What a client is told is gone had not been deleted, in every run of the nodes' world up to the first doubtful restart. It has no code of the product: the
//! function below calls the laws that it stands on, and its contract is a law. `specs/standing_law/Gone.antt` says it in words of the nodes.

ghost use Rattle.run_losses.specs.standing_law.Gone.{GonesAreOfWhatStands};

use crate::gone_law::gone_was_lost;
use crate::source_law::takeovers_read_what_was_filed;
use index_tie::cleaning_loses_nothing;
use log_law::what_flew_is_written;
use node_slots::node_tie::manager_events_are_seen;
use run_laws::world_reads::every_run_stands;
use token_law::tokens_keep_their_word;

/// Whatever messages are lost, repeated or reordered, however disks are lost and rebuilt, and whichever nodes stop and start again: where a client that
/// serves says that a segment is lost at an event that brings it a Gone, no server has been told to delete the segment, and it had been filed and was torn at
/// a moment from which on the manager that sent the Gone read it, while it took the slot of the block over in the epoch that the client has promised. So it
/// is in every run of a script of whose setup a run can be started, while no restart that ended was doubtful.
///
/// A manager that breaks in an epoch never manages the slot in that epoch, and nobody manages it in a later one than a client has promised: so the registry's
/// horizons of the slot are still those with which the takeover began, and no segment that it reads has been dropped (the 1996 paper, on cleaning).
pub fn what_is_gone_stood()
    ensures stood { GonesAreOfWhatStands }
{
    manager_events_are_seen();
    tokens_keep_their_word();
    cleaning_loses_nothing();
    what_flew_is_written();
    every_run_stands();
    gone_was_lost();
    takeovers_read_what_was_filed();
}
