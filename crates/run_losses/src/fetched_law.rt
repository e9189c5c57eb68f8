//! What a client's open call reads had been filed, and is stored, in every run of the nodes' world up to the first doubtful restart. It has no code of the
//! product: the function below calls the laws that it stands on, and its contract is a law. `specs/fetched_law/Reads.antt` says it in words of the nodes.

ghost use Rattle.run_losses.specs.fetched_law.Reads.{CallsReadWhatIsStored, CallsReadWhatWasFiled};

use crate::fetching_law::fetches_lose_what_is_torn;
use log_law::laws_of_logs;
use run_laws::world_reads::every_run_stands;

/// Whatever messages are lost, repeated or reordered, however disks are lost and rebuilt, and whichever nodes stop and start again: at each moment of every run
/// of a script of whose setup a run can be started, up to which no restart of a client or of the cleaner was doubtful, of what the open call of a client reads:
///
/// - `filed`: the owner of a log had told that it is filed.
/// - `stored`: unless a server was told to delete it, each member of its group holds its fragment or has lost its disk since the group was made; so where it is
///   torn more have lost their disk than the parity makes good (the 1996 paper, on RAID).
pub fn calls_read_what_was_filed()
    ensures filed { CallsReadWhatWasFiled }
    ensures stored { CallsReadWhatIsStored }
{
    fetches_lose_what_is_torn();
    laws_of_logs();
    every_run_stands();
}
