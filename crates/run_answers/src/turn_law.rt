//! Items that begin in turn are not refused without need. It has no code of the product: the functions below stand for the laws that their contracts state.
//! `specs/Turns.antt` of `headline` says them of runs.

ghost use Rattle.run_answers.specs.turn_law.InTurn.{EachCrashIsFelt, EachRunInTurn};

/// In a run in which each item of a node but a crash, or the loss of a disk, begins only once all earlier items of the node are answered, as by workers: no item
/// is answered that its node is busy, and that it is down only behind a crash, or behind a restart that was answered that a segment is lost, with no other crash
/// or restart of the node between.
pub fn runs_in_turn_are_never_busy()
    ensures turns { EachRunInTurn }
{}

/// Whatever events a script's world goes through: a restart of a client, a manager or the cleaner that stands right behind a crash of it among its items is never
/// answered that the node is up.
pub fn each_crash_is_felt()
    ensures crashes { EachCrashIsFelt }
{}
