//! The law of quiet scripts, so far: kinds of lines that lead from one drained state to the next, within bounds. It has no code: each function below has an
//! empty body, and its contract is a law.
#![tactic(auto)]

ghost use Rattle.quiet_law.specs.Laws.{HeldIsReadAtOnce, LonelyPutsAreAnswered, NothingIsSyncedAtOnce, OwnedIsWritten, StartIsDrained, StartsAsScene, WaitingIsSynced};

/// Every run starts drained.
///
/// - `placed`: before the first event each node is as the first scene has it.
/// - `drained`: and that scene is drained.
pub fn runs_start_drained()
    ensures placed { StartsAsScene }
    ensures drained { StartIsDrained }
{}

/// Lines that are answered when they begin, from one drained state to the next.
///
/// - `held`: a get of a block that the client holds.
/// - `nothing`: a sync of a client where nothing waits to be written.
pub fn lines_are_answered_at_once()
    ensures held { HeldIsReadAtOnce }
    ensures nothing { NothingIsSyncedAtOnce }
{}

/// Lines that ask a manager, from one drained state to the next.
///
/// - `lonely_puts`: a put of a block that nobody else is believed to hold, by two deliveries, and 2n + 16 more where 24 wait then.
pub fn lines_that_ask_are_answered()
    ensures lonely_puts { LonelyPutsAreAnswered }
{}

/// Lines by which a segment is written, from one drained state to the next.
///
/// - `syncs`: a sync where something waits, by 2n + 16 deliveries over a group of n members.
/// - `owned_puts`: a put of a block that the client owns, by none, or by as many where 24 wait then.
pub fn lines_that_seal_are_answered()
    ensures syncs { WaitingIsSynced }
    ensures owned_puts { OwnedIsWritten }
{}
