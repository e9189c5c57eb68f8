//! What the cleaner does in one event, as what the owner of its own log does in the small world of that log (`log_law`), as `client_log_tie` says it of a
//! client. It has no code: the function below has an empty body, and its contract is a law. `specs/cleaner_log_tie/Owner.antt` says how the cleaner is seen
//! there.

ghost use Rattle.node_logs.specs.cleaner_log_tie.OwnerEvents.{OwnerStarts, OwnerTakes};

/// What an event makes of the cleaner is a run of the small world of its log, by its owner and by drops alone, if the packet that comes was sent there.
///
/// - `start`: the cleaner at its start is seen in the opening of the small world, where the ids of the setup's groups fit.
/// - `events`: a cleaner that is seen there before an event is seen after it in a world to which that one runs on; all that it sends was sent there, all that
///   it tells to be filed is filed there, and all of its own log that it tells to be dropped is dropped there, and nothing but what it has servers delete; the
///   owner doesn't fall on the way, or nothing begins to fly; unless it serves then, it serves nowhere on the way, and where it comes to serve, that is by one
///   thing that happens; and unless it serves or writes its opening segment then, it does neither on the way.
///
/// What is owed still: of the chain that a scan tells, that behind its end the log can go on (its numbers fit the format, and its number has one after it), and
/// that it goes down to the horizon that was taken last; and that numbers are in the ranges of their types (the ids of the groups of maps, the row of a `Live`,
/// the bytes of a fragment).
pub fn cleaner_log_events_are_seen()
    ensures start { OwnerStarts }
    ensures events { OwnerTakes }
{}
