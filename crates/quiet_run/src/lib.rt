//! The law of the runs of quiet scripts, by induction over their lines, and the last two kinds of lines, gets of blocks that another client owns. It has no code: each
//! function below has an empty body, and its contract is a law.
#![tactic(auto)]

ghost use Rattle.quiet_run.specs.Laws.{GetsFromDirtyAreAnswered, OwnedCopiesArePassedOn};
ghost use Rattle.quiet_run.specs.Runs.{EachLineLeadsOn, LinesAnswerScripts, QuietScriptsAreAnswered};

/// A get of a block that the client doesn't hold, and that another client owns and holds clean, is answered: the owner gives way to a copy, and passes that on; and
/// where it has none any more the client asks again in the next round and is granted a copy.
pub fn owned_copies_are_passed_on()
    ensures passed { OwnedCopiesArePassedOn }
{}

/// A get of a block that another client owns and has not settled is answered: the block is recalled, the owner's segment goes its way, and the owner passes a copy
/// on, or the block is read from the log after a round.
pub fn dirty_blocks_are_read()
    ensures gets { GetsFromDirtyAreAnswered }
{}

/// Where each quiet line leads from one drained state to the next, within 128 deliveries and a round, the run of each quiet script is answered within the bounds.
pub fn quiet_scripts_are_answered()
    ensures by_lines { LinesAnswerScripts }
{}

/// Each quiet line leads from one drained state to the next, whoever holds the block that it names; so the run of each quiet script is answered within the bounds.
///
/// - `lines`: within 128 deliveries, or within 63, a round and 65.
/// - `answered`: of each quiet script, with no premise but its ranges.
pub fn all_quiet_scripts_are_answered()
    ensures lines { EachLineLeadsOn }
    ensures answered { QuietScriptsAreAnswered }
{}
