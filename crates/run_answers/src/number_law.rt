//! Numbers that nodes answer are true. It has no code of the product: the functions below stand for the laws that their contracts state.
//! `specs/Numbers.antt` of `headline` says it of runs.

ghost use Rattle.run_answers.specs.number_law.Runs.{EachRunsCleaningsAreTrue, EachRunsRebuildsAreTrue};

/// In each run of a script: what a server answers that was filled in and that is gone, as its rebuild is over, is so of all that there was to fill in as the last
/// list came that answers its question, by the lists of all other servers since the item began. Each of these segments was read, by fragments of it that came since
/// then, and the server's own fragment stood on its shelf behind an event, or its name was barred; or all other members of its group had answered, and too few had
/// a fragment. No rebuild is over as it begins.
pub fn rebuilds_are_true()
    ensures runs { EachRunsRebuildsAreTrue }
{}

/// In each run of a script: a count that the cleaner answers to an item is the number of segments that it has dropped since the item began, and no item is answered
/// so as it begins.
pub fn cleanings_are_true()
    ensures runs { EachRunsCleaningsAreTrue }
{}
