//! A law of openings of logs: a scan doesn't run out of questions before its node does. It has no code: the function below has an empty body.

ghost use Rattle.node_logs.specs.opening_law.Questions.{GroupsCome, PacketAsksFew, QuestionsAreLeft, StartAsksFew, TickAsksFew};

/// An opening asks by the questions of its node, and has one left while the node has room for more.
///
/// - `start`, `packet`, `tick`: the scan has asked no more questions than its node, but for one by which it waits in vain.
/// - `left`: where that is so a further question can be asked.
/// - `groups`: the groups of a scan after an input are those before it, or came with it.
pub fn openings_have_questions_left()
    ensures start { StartAsksFew }
    ensures packet { PacketAsksFew }
    ensures tick { TickAsksFew }
    ensures left { QuestionsAreLeft }
    ensures groups { GroupsCome }
{}
