//! The law of readers in every run of the nodes' world: what a client's call, a manager's takeover and the cleaner hold of the segments that they read came in
//! packets that were sent to them. It has no code of the product: the function below calls the laws that it stands on, and its contract is a law. What each
//! reading ends with, `reading_tie` says.

ghost use Rattle.run_laws.specs.reading_law.Readings.{RunsReadWhatCame};

use crate::world_law::nodes_are_seen;
use group_map::laws::groups_stay_as_made;
use node_tellings::reading_tie::{
    cleaner_empties_what_was_listed, cleaner_reads_what_came, clients_read_what_came,
    managers_read_what_came,
};

/// Whatever messages are lost, repeated or reordered, and whichever nodes stop and start again, readers hold what came.
///
/// - `runs`: at each moment of every run of a script of whose setup a run can be started, each answer in the round of a reader was sent to it by a server, in
///   answer to the question of the round; each fragment among them is of the name that is looked for; and the group of the segment has the members and the
///   parity that the registry's map gives it at the end of the run, as have the groups of all maps that were sent. A fragment of each segment that the
///   cleaner's job is about, over its group, was listed to the cleaner by a server.
pub fn readers_hold_what_came()
    ensures runs { RunsReadWhatCame }
{
    clients_read_what_came();
    managers_read_what_came();
    cleaner_reads_what_came();
    cleaner_empties_what_was_listed();
    groups_stay_as_made();
    nodes_are_seen();
}
