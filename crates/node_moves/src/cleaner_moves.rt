//! What an event of the cleaner is made of. It has no code: the function below has an empty body, and its contract is a law.
//! `specs/cleaner_moves/Moves.antt` lists the moves.

ghost use Rattle.node_moves.specs.cleaner_moves.Moves.{CleanerEventsAreMoves};

/// Whatever happens to the cleaner, what it does is a list of moves: an item is begun, waits or is answered; it falls, starts again, or the opening of its log
/// goes on; its job begins, or takes an input, and what that says is done; its log takes an input, and what that says is done; it takes the maps that came,
/// promises a slot to a later epoch, and reports the end of its log to a manager that asked; and the reading of the segment in hand hears a server, ends, or
/// begins a further round.
pub fn cleaner_events_are_moves()
    ensures { CleanerEventsAreMoves }
{}
