//! The tie of the machine of a board to the abstract protocol of three boards: whatever one board does on an input is a
//! list of the protocol's steps at that board. It has no code of the product: the function below has an empty body,
//! and its contract is a law.

ghost use Rattle.std.specs.Prelude.{ℕ, ◌<◌, ◌≡◌, suc};
ghost use Rattle.board_protocol.specs.Step.{Steps};
ghost use Rattle.board_protocol.specs.World.{World, start};
ghost use Rattle.board.specs.declared.command.Command.{Command};
ghost use Rattle.board.specs.declared.input.In.{In};
ghost use Rattle.board.specs.State.{BoardState, board_start};
ghost use Rattle.board.specs.Transition.{transition};
ghost use Rattle.board_law.specs.board_tie.Follows.{Follows};
ghost use Rattle.board_law.specs.board_tie.Sent.{Came};
ghost use Rattle.board_law.specs.board_tie.Shown.{Shows, owner};

/// The tie of a board, at every moment of a run of the protocol.
///
/// - `starts`: each board of the machine begins as the protocol's.
/// - `follows`: what the machine makes of an input is a list of steps of the protocol, which changes no other board; what it
///   sends the protocol has sent then, and what it gives to apply is what the protocol's board has applied more. Of a
///   packet that comes it is known that the protocol has sent it.
pub fn each_input_is_a_list_of_steps()
    ensures starts { (place : ℕ) → place < 3 → Shows place ((start owner).board place) (board_start (suc place)) }
    ensures follows { (w : World Command) → Steps (start owner) w → (place : ℕ) → place < 3 → (s : BoardState) → Shows place (w.board place) s
        → (input : In) → Came w input → Follows w place (transition s input) }
{}
