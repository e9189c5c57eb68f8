//! Quiet scripts: which they are, what is claimed of their runs, and the induction over their lines, over nodes of any kind. It has no code: the function below
//! has an empty body, and its contract is a law.
#![tactic(auto)]

ghost use Rattle.quiet_script.specs.Laws.{AcceptedIsOrderly};

/// A quiet script that is read from a text is orderly: a run of its setup can be started, it has at most 20,000 lines, each of a client that there is, and the
/// numbers and the bytes of each are in range.
pub fn accepted_scripts_are_orderly()
    ensures orderly { AcceptedIsOrderly }
{}
