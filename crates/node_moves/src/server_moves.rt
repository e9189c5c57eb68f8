//! What an event of a storage server is made of. It has no code: the function below has an empty body, and its contract is a law.
//! `specs/server_moves/Moves.antt` lists the moves.

ghost use Rattle.node_moves.specs.server_moves.Moves.{ServerEventsAreMoves};

/// Whatever happens to a storage server, what it does is a list of moves: it takes or answers the packet that came, as it stood before the event; its rebuild
/// takes what came for it, and what that says is done; an item is begun or answered; its disk is lost where an item said so; a question is drawn, or its Hello
/// is said.
pub fn server_events_are_moves()
    ensures { ServerEventsAreMoves }
{}
