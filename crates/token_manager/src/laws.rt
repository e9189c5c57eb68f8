//! What holds over any list of inputs. Each function stands for the law that its contract states; a call
//! of it does nothing.
ghost use Rattle.std.specs.Prelude.{◌≡◌, ◌≤◌, ◌⊎◌, ℕ, List, None, length};
ghost use Rattle.xfs_base.specs.declared.block.BlockId.{BlockId};
ghost use Rattle.xfs_base.specs.declared.entry.Entry.{Entry};
ghost use Rattle.xfs_base.specs.declared.token.Mode.{Mode};
ghost use Rattle.token_manager.specs.declared.input.In.{In};
ghost use Rattle.index_pages.specs.Pages.{pages_merge, pages_clean};
ghost use Rattle.slot_beliefs.specs.Index.{Indexed, block_index_merge, pages_of, block_index_clean, IsCounted};
ghost use Rattle.slot_beliefs.specs.declared.job.Wanted.{Wanted};
ghost use Rattle.slot_beliefs.specs.Recalls.{applied_of, job_at};
ghost use Rattle.token_manager.specs.SlotState.{SlotState};
ghost use Rattle.token_manager.specs.Transition.{on_want, slot_start, transition};
ghost use Rattle.token_manager.specs.Laws.{state_after, CountsTurns, IsNotTick, given_out, stamps_after, HandsOut, OwnsAlone, IsGuarded, RecallsAreGivenOut, IsAnswered, IsTaken, WaitsAt};

/// Whatever a slot took, the live blocks that it counts in each segment are those that a count from
/// scratch over the places of its index gives.
pub fn counts_follow_the_index()
    ensures { (epoch : ℕ) (index : List (BlockId × Entry)) (beliefs : List (BlockId × ℕ × Mode)) (applied : List ℕ) (inputs : List In)
        → IsCounted (state_after (slot_start epoch index beliefs applied) inputs).index }
{}

/// What is applied of a log never falls.
pub fn applied_never_falls()
    ensures { (s : SlotState) (inputs : List In) (log : ℕ) → applied_of s.applied log ≤ applied_of (state_after s inputs).applied log }
{}

/// Of one input: each input but a tick gives out the turns after the last, in order. Its grants, forwards and
/// recalls bear them, in the epoch of the slot, which stays; and the state keeps the last.
pub fn each_stamp_is_fresh()
    ensures { (s : SlotState) (input : In) → IsNotTick input
        → ((transition s input).state.epoch ≡ s.epoch) × CountsTurns s.epoch s.turn (transition s input).outs (transition s input).state.turn }
{}

/// Over any inputs the stamps that are given out are those of the turns after the last one of the state
/// before, each once and in order; so no two of them are equal. A tick gives out none: it sends recalls
/// again under their stamps.
pub fn no_stamp_is_given_out_twice()
    ensures { (s : SlotState) (inputs : List In) → given_out s inputs ≡ stamps_after s.epoch s.turn (length (given_out s inputs)) }
{}

/// While a want waits for a block, the block is not granted, and no copy of it is passed on: what an input
/// grants or forwards has no want that waits for it in the state that follows.
pub fn waiting_bars_grants()
    ensures { (epoch : ℕ) (index : List (BlockId × Entry)) (beliefs : List (BlockId × ℕ × Mode)) (applied : List ℕ) (inputs : List In) (input : In)
        (block : BlockId)
        → HandsOut block (transition (state_after (slot_start epoch index beliefs applied) inputs) input).outs
        → job_at (transition (state_after (slot_start epoch index beliefs applied) inputs) input).state.jobs block ≡ None }
{}

/// Where owners are alone at the start, they are alone for ever: whoever is believed to own a block is the
/// only one that is believed to have anything of it. And each want that waits awaits an answer from just
/// the other clients that must give way to it: from the owner, or where the asker wants to write, from all
/// who have anything of the block.
pub fn owners_are_alone()
    ensures { (epoch : ℕ) (index : List (BlockId × Entry)) (beliefs : List (BlockId × ℕ × Mode)) (applied : List ℕ) (inputs : List In)
        → OwnsAlone (slot_start epoch index beliefs applied).beliefs → IsGuarded (state_after (slot_start epoch index beliefs applied) inputs) }
{}

/// Each recall of a want that waits bears the epoch of the slot, and a turn from 1 to the last that was
/// given out; so a tick sends no stamp that the slot did not give out.
pub fn recalls_are_given_out()
    ensures { (epoch : ℕ) (index : List (BlockId × Entry)) (beliefs : List (BlockId × ℕ × Mode)) (applied : List ℕ) (inputs : List In)
        → RecallsAreGivenOut (state_after (slot_start epoch index beliefs applied) inputs) }
{}

/// The pages of a slot's index are what the entries that are merged make of them, and cleaning makes them
/// clean: so what is known of pages into which entries are merged is known of a slot's.
pub fn pages_follow_the_index()
    ensures merged { (i : Indexed) (m : BlockId × Entry) → pages_of (block_index_merge i m) ≡ pages_merge (pages_of i) m.0 m.1 }
    ensures cleaned { (i : Indexed) → pages_of (block_index_clean i) ≡ pages_clean (pages_of i) }
{}

/// A want that is no cause to be dropped is answered at once, or waits for its block: that is, one that wants
/// something, of a block for which no other waits, by a client whose log is applied up to the end that it names.
pub fn each_want_is_answered_or_waits()
    ensures { (s : SlotState) (want : Wanted) (end : ℕ) → IsTaken s want end
        → IsAnswered want (on_want s want end).outs ⊎ WaitsAt (on_want s want end).state want.block want }
{}

/// Whatever a slot took, a want that waits is not forgotten at the next input: it is answered, or goes on waiting.
pub fn no_want_is_forgotten()
    ensures { (epoch : ℕ) (index : List (BlockId × Entry)) (beliefs : List (BlockId × ℕ × Mode)) (applied : List ℕ) (inputs : List In) (input : In)
        (block : BlockId) (want : Wanted)
        → WaitsAt (state_after (slot_start epoch index beliefs applied) inputs) block want
        → IsAnswered want (transition (state_after (slot_start epoch index beliefs applied) inputs) input).outs
        ⊎ WaitsAt (transition (state_after (slot_start epoch index beliefs applied) inputs) input).state block want }
{}
