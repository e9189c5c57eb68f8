//! Blocks that are taken back from clients that hold them clean or own them and have not settled them, in quiet runs: what each node does at a recall and at the word
//! that the block was given up, layers of such packets, and puts of such blocks, from one drained state to the next; definitions and proofs about them. It has no
//! code: each function below has an empty body, and its contract is a law.
#![tactic(auto)]

ghost use Rattle.quiet_gives.specs.Laws.{CleanBlocksArePut, PutsFromDirtyAreAnswered};

/// A put of a block that others hold clean is answered: each of them gives it up, within a recall and an answer, and the put goes on as if nobody else had held it.
pub fn puts_take_clean_blocks()
    ensures from_clean { CleanBlocksArePut }
{}

/// A put of a block that another client owns and has not settled is answered: the block is recalled, the owner's segment goes its way, and the owner gives it up.
pub fn dirty_owners_give_way()
    ensures puts { PutsFromDirtyAreAnswered }
{}
