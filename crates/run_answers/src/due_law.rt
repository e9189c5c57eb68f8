//! A node serves until a crash of it begins, and what is due at the Begin of an item is answered in that event. It has no code of the product: the functions
//! below stand for the laws that their contracts state. `specs/Dues.antt` of `headline` says how a node stands behind an event, and
//! what it must answer as an item begins.

ghost use Rattle.run_answers.specs.due_law.Turns.{EachStartServes, EachEventKeepsStanding};
ghost use Rattle.run_answers.specs.due_law.Dues.{EachItemIsDue};
ghost use Rattle.run_answers.specs.due_law.Runs.{EachRunAnswersDue};

use node_slots::node_tie::other_events_are_seen;

/// Each node serves at the start. In whatever event, one that serves does so on, but where a crash of it begins, which is done in that event; one that opens its
/// log does so on, until it serves and the open item is done, or what it needs is lost, which is answered, and it has fallen; one that has fallen stays so until a
/// restart of it begins, and neither acts nor sends at an event by which no item begins.
pub fn nodes_serve_until_they_crash()
    ensures starts { EachStartServes }
    ensures events { EachEventKeepsStanding }
{}

/// Whatever item of its own a node begins, where its counters are far from their ends and a node that has fallen, or awaits the maps, has no item open: a crash is
/// done by one that has not fallen, before which the open item is cut, and one that has fallen answers it Down; a restart of one that has not fallen is answered
/// Up, and by one that has fallen it is begun, where a manager answers it at once; a loss is done, before which the open item is cut, and the server's next
/// generation begins with an empty shelf; a slot that can be given gets its next epoch, which is the answer, and all other nodes are told the new maps; and all
/// else is answered Down by one that doesn't serve, and Busy by one that serves while an item is open. By a refusal nothing else is acted, nothing is sent, and it
/// stands as before.
pub fn what_is_due_is_answered()
    ensures dues { EachItemIsDue }
{}

/// So it is whatever events a script's world goes through: each node serves at the start, and in each event of a node, but where its clock would pass the end of
/// all clocks, the node takes its step, by which it keeps its standing so and answers what is due. At each moment what is open of a node fits where it stands, and
/// the registry can give each slot anew, while the version of its maps is far from its end.
pub fn runs_answer_what_is_due()
    ensures runs { EachRunAnswersDue }
{
    other_events_are_seen();
}
