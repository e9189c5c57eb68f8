//! Only a node that reads says that a segment is lost, in every run of the nodes' world. It has no code of the product: the function below calls the laws
//! that it stands on, and its contract is a law. `specs/Readers.antt` says it in words of the nodes.

ghost use Rattle.run_losses.specs.reader_law.Readers.{OnlyReadersSayLost};

use crate::fetching_law::fetches_lose_what_is_torn;
use run_laws::world_law::nodes_are_seen;

/// Whatever messages are lost, repeated or reordered, and whichever nodes stop and start again: where in an event it is said that a segment is lost, the node
/// to which the event happens says so of itself; and it is a client, or the cleaner, that scans its log to open it, a client that serves and whose item waits
/// for its answer, or a manager. No server, nor the registry, says so, nor a cleaner that serves, nor a client that is down or whose opening segment is in
/// flight. So it is in every run of a script of whose setup a run can be started.
pub fn only_readers_say_lost()
    ensures readers { OnlyReadersSayLost }
{
    fetches_lose_what_is_torn();
    nodes_are_seen();
}
