//! What a reader of segments holds came, and what it reads is joined of what came: a client's call that reads a block from a log, a manager's takeover, and the
//! cleaner with a segment in its hand. It has no code: each function below has an empty body, and its contract is a law. `specs/reading_tie/Came.antt` says
//! when the answers of a reading came, and `specs/reading_tie/Arrivals.antt` what a packet brings.
//!
//! The laws are stated of the packets that were sent to a node; they are proved of whatever came, in `proofs/reading_tie/Clients.antt`,
//! `proofs/reading_tie/Managers.antt` and `proofs/reading_tie/Cleaners.antt`. The reading of an opening is told of by the law of logs.

ghost use Rattle.node_tellings.specs.reading_tie.CleanerMeets.{CleanerEventsMeet, CleanerMeetsRise, CleanerStartsMet};
ghost use Rattle.node_tellings.specs.reading_tie.CleanerReads.{CleanerEventsKeep, CleanerHoldsRise, CleanerReadsWhatCame, CleanerStarts};
ghost use Rattle.node_tellings.specs.reading_tie.ClientReads.{ClientEventsKeep, ClientHoldsRise, ClientStarts, ClientsReadWhatCame};
ghost use Rattle.node_tellings.specs.reading_tie.ManagerReads.{ManagerEventsKeep, ManagerHoldsRise, ManagerStarts};
ghost use Rattle.node_tellings.specs.reading_tie.TakeoverReads.{TakeoversReadWhatCame};

/// What a client reads of a block's place came.
///
/// - `start`: a client at its start reads nothing, and knows the groups of the setup.
/// - `rises`: what came in packets came in more packets too.
/// - `events`: where each answer in the round of its open call came, each fragment among them is of the segment that is looked for, and its groups are cut as
///   said, and the packet that is delivered was sent, and its maps are so, then it is so after the event.
/// - `reads`: where an answer that came makes the reading end with a segment, fragments that came of the name of the block's place, told in answer to one
///   question, join to the text of the segment, and the item at the place is a Block of the block.
pub fn clients_read_what_came()
    ensures start { ClientStarts }
    ensures rises { ClientHoldsRise }
    ensures events { ClientEventsKeep }
    ensures reads { ClientsReadWhatCame }
{}

/// What a manager's takeover reads of its sources came.
///
/// - `start`: a manager at its start takes nothing over, and knows the groups of the setup.
/// - `rises`: what came in packets came in more packets too.
/// - `events`: where of each takeover of its slots each answer in the round came, each fragment among them is of the segment that is read, which is the one to
///   which a part that the news names, or a reported end, led down by the priors of segments that were so read, and its groups are cut as said, and the packet
///   that is delivered was sent, and its maps are so, then it is so after the event.
/// - `reads`: where an answer that came completes the segment that is read, fragments that came of its name join to its text.
pub fn managers_read_what_came()
    ensures start { ManagerStarts }
    ensures rises { ManagerHoldsRise }
    ensures events { ManagerEventsKeep }
    ensures reads { TakeoversReadWhatCame }
{}

/// What the cleaner reads of the segment in its hand came.
///
/// - `start`: the cleaner at its start has nothing in hand, and knows the groups of the setup.
/// - `rises`: what came in packets came in more packets too.
/// - `events`: where each answer in the round of the segment in hand came, each fragment among them is of that segment, and its groups are cut as said, and the
///   packet that is delivered was sent, and its maps are so, then it is so after the event.
/// - `reads`: where an answer that came makes the reading end with a segment, fragments that came of the name of the segment in hand join to its text.
pub fn cleaner_reads_what_came()
    ensures start { CleanerStarts }
    ensures rises { CleanerHoldsRise }
    ensures events { CleanerEventsKeep }
    ensures reads { CleanerReadsWhatCame }
{}

/// What a job of the cleaner is about was listed.
///
/// - `start`: the cleaner at its start has no job.
/// - `rises`: what was listed in packets was listed in more packets too.
/// - `events`: where of each candidate of its job, of each segment that is to be emptied, and of the one in its hand, a server listed a fragment of that name
///   and over that group, and the packet that is delivered was sent, then it is so after the event.
pub fn cleaner_empties_what_was_listed()
    ensures start { CleanerStartsMet }
    ensures rises { CleanerMeetsRise }
    ensures events { CleanerEventsMeet }
{}
