//! What a client that serves does is made of. It has no code: the function below has an empty body, and its contract is a law. `specs/call_moves/Moves.antt`
//! lists the moves.

ghost use Rattle.serving_moves.specs.call_moves.Moves.{CallsAreMoves, CallsStay, PacketsAreMoves, TicksAreMoves};

/// Whatever comes to a client that serves, as time passes, and whatever call on blocks it makes, what it does is a list of moves: a step by which its open call,
/// its number and its items stay, no item is answered, and nothing is acted but that segments are filed; or a segment that its open call needs is lost, of which
/// the open item is told. Two things are more: a manager may say that a segment is lost, and what the answer to a call on blocks tells of is acted, once. So the
/// call that is open behind moves is the one that was open.
pub fn serving_clients_take_moves()
    ensures packets { PacketsAreMoves }
    ensures ticks { TicksAreMoves }
    ensures calls { CallsAreMoves }
    ensures stays { CallsStay }
{}
