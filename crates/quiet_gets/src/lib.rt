//! Gets of blocks that a client doesn't hold and that nobody owns, in quiet runs, from one drained state to the next: definitions and proofs about them. It has no
//! code: each function below has an empty body, and its contract is a law.
#![tactic(auto)]

ghost use Rattle.quiet_gets.specs.Laws.{CopiesArePassedOn, LonelyGetsAreAnswered};

/// A get of a block that the client doesn't hold and that nobody else is believed to hold is answered: it asks the block's manager, and where the block lies in a
/// log each member of the group of its segment.
pub fn lonely_gets_are_answered()
    ensures lonely { LonelyGetsAreAnswered }
{}

/// A get of a block that the client doesn't hold, of which others are believed to have copies and which nobody is believed to own, is answered: one of them passes
/// its copy on, and where that one has none any more the client asks again in the next round and is granted a copy.
pub fn copies_are_passed_on()
    ensures passed { CopiesArePassedOn }
{}
