//! The flow of packets from node to node, without numbers and clocks, and how the play of a script follows it, over nodes of any kind. It has no code: each
//! function below has an empty body, and its contract is a law.
#![tactic(auto)]

ghost use Rattle.quiet_flow.specs.Laws.{LinesFollow, LinesFollowRounds, PlaysFollow};

/// A play follows the flow of packets from node to node, where no node looks at the clock of a packet.
///
/// - `follow`: where that drains with so many deliveries, so does the play, by deliveries alone.
/// - `lines`: so does a line of a script whose item is answered on the way, and its events are the begin of the item and at most so many deliveries.
/// - `rounds`: so does a line whose item is answered once time passed at each node, and its events are the begin of the item, deliveries, that round and more
///   deliveries.
pub fn plays_follow_the_flow<N>()
    ensures follow { PlaysFollow N }
    ensures lines { LinesFollow N }
    ensures rounds { LinesFollowRounds N }
{}
