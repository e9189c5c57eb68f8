//! What an event of a manager is made of: the few things that a manager does, each with what it does it for, and that each event is a list of these. So a law
//! of a manager is shown of each of them, and of every event at once. It has no code of the product: the function below has an empty body, and its contract
//! is a law. `specs/Moves.antt` lists the moves.
#![tactic(auto)]

ghost use Rattle.manager_moves.specs.Moves.{ManagerEventsAreMoves};

/// Whatever happens to a manager, while it serves what it does is a list of moves: a slot takes an input, answers a check, or refuses a want where it is broken;
/// a checkpoint of it is begun or named; its takeover hears what came, asks again, or begins; the writer of its checkpoints takes an input, or its log, and that
/// ends as before or with the segment that was in flight, which is filed; it takes the maps that came; or it says what no slot says. Else one takeover has the
/// answer of a server to its question, and nothing else is done; or it serves no more; or it is welcomed, with a new log, and what it does then is a list of
/// moves that begins with no slot known.
pub fn manager_events_are_moves()
    ensures { ManagerEventsAreMoves }
{}
