//! What is true of commands and ballots.
ghost use Rattle.std.specs.Prelude.{◌≡◌, ◌≤◌, ◌<◌, ◌↔◌, ℕ, IsTrue, length, max};
ghost use Rattle.board.specs.declared.command.Command.{Command};
ghost use Rattle.board.specs.Ballots.{owner_of, next_ballot};
ghost use Rattle.board.specs.declared.input.In.{In};
ghost use Rattle.board.specs.Comparing.{same_command};
ghost use Rattle.board.specs.State.{BoardState, chosen_part};
ghost use Rattle.board.specs.Transition.{transition};

/// Commands are compared whole: those that are the same by the test are one command, clocks of delivered packets
/// included.
pub fn commands_are_compared_whole()
    ensures { (a b : Command) → IsTrue (same_command a b) ↔ (a ≡ b) }
{}

/// What a board takes as its next promise is the least ballot of its own above what it promised.
///
/// - `own`: it belongs to the board.
/// - `above`: it is above the promise.
/// - `least`: no ballot of the board lies between.
pub fn next_ballot_is_the_least()
    ensures own { (number promised : ℕ) → 1 ≤ number → number ≤ 3 → owner_of (next_ballot number promised) ≡ number }
    ensures above { (number promised : ℕ) → promised < next_ballot number promised }
    ensures least { (number promised ballot : ℕ) → promised < ballot → owner_of ballot ≡ number → next_ballot number promised ≤ ballot }
{}

/// A board applies no more commands than it shows to be chosen then, or had applied before.
pub fn what_is_applied_is_shown()
    ensures { (s : BoardState) → (input : In) → (transition s input).state.applied ≤ max s.applied (length (chosen_part (transition s input).state)) }
{}
