//! What an event of a client that serves is made of: the few things that it does, and that each event is a list of these; and so of its tokens, of each input but
//! a grant. So a law of a client is shown of each of them, and of every event at once. It has no code of the product: the function below has an empty body, and
//! its contract is a law. `specs/Moves.antt` and `specs/Tokens.antt` list the moves.
#![tactic(auto)]

ghost use Rattle.client_moves.specs.Moves.{ServingEventsAreMoves};
ghost use Rattle.client_moves.specs.Tokens.{InputsAreMoves};

/// - `events`: whatever happens to a client that serves, what it does is a list of moves: its tokens, its log, its feed or its cache take an input; a slot is
///   promised to a manager; a reading is over with its fetch; something is said for these; and its open call waits for its call on blocks, or goes on with the
///   answer. Before these, once in an event, it may ask for the maps, or take those that came; a manager refuses its open want, or grants a block, of which its
///   open call reads what lies at the place; a server answers the question of what is read; time has what is read fetched again; or its next item is begun.
/// - `inputs`: what an input that is no grant makes of its tokens is a list of moves: another state of a block is put, a block is wanted, a slot is promised, or
///   something is said, but not that a block is to be read.
pub fn serving_clients_make_moves()
    ensures events { ServingEventsAreMoves }
    ensures inputs { InputsAreMoves }
{}
