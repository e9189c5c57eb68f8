//! What is true of the ranges that a feed gives, whatever it was told before. Each function stands for
//! the law that its contract states; a call of it does nothing. Inputs are listed
//! oldest first.
ghost use Rattle.std.specs.Prelude.{◌≡◌, ◌+◌, ◌<◌, ◌≤◌, ℕ, List, [], ◌∷◌, All};
ghost use Rattle.std.specs.List.{flat_map, range_with_len};
ghost use Rattle.xfs_base.specs.declared.block.BlockId.{BlockId};
ghost use Rattle.xfs_base.specs.declared.entry.Entry.{Entry};
ghost use Rattle.xfs_base.specs.Blocks.{slot_of};
ghost use Rattle.xfs_base.specs.Limits.{slot_count};
ghost use Rattle.delta_index.specs.Entries.{first_greatest};
ghost use Rattle.delta_index.specs.Join.{join};
ghost use Rattle.delta_feed.specs.declared.input.In.{In};
ghost use Rattle.delta_feed.specs.declared.input.In.TheVariants.{Push, Tick};
ghost use Rattle.delta_feed.specs.declared.output.Out.TheVariants.{Range};
ghost use Rattle.delta_feed.specs.FeedState.{acked_of};
ghost use Rattle.delta_feed.specs.Transition.{transition};
ghost use Rattle.delta_feed.specs.History.{state_after, end_of, filed_by, acknowledged_by, deltas_between};
ghost use Rattle.delta_feed.specs.RangeLaws.{TellsRange, IsTrueRange};

/// Each range that a feed gives tells its slot, from the first segment that the slot has not acknowledged
/// to the last that is filed, what the filed segments in it say of the slot's blocks: the rows join to
/// what those segments join to, and are of the slot's blocks alone.
pub fn ranges_tell_what_was_filed()
    ensures { (base : ℕ) (inputs : List In) (input : In) → All (IsTrueRange base inputs) (transition (state_after base inputs) input).outs }
{}

/// A slot is kept up to date: where its acknowledgement is below the end, a push gives a range.
pub fn push_tells_what_is_lacking()
    ensures { (base : ℕ) (inputs : List In) (slot : ℕ) → slot < slot_count → acknowledged_by base slot inputs < end_of base inputs
        → (rows : List (BlockId × Entry))
        × ((transition (state_after base inputs) (Push slot)).outs ≡ Range slot (acknowledged_by base slot inputs + 1) (end_of base inputs) rows ∷ []) }
{}

/// A slot that has all is told nothing.
pub fn push_tells_nothing_known()
    ensures { (base : ℕ) (inputs : List In) (slot : ℕ) → slot < slot_count → end_of base inputs ≤ acknowledged_by base slot inputs
        → (transition (state_after base inputs) (Push slot)).outs ≡ [] }
{}

/// A tick gives what a push of each slot in order gives.
pub fn tick_pushes_each_slot()
    ensures { (base : ℕ) (inputs : List In)
        → (transition (state_after base inputs) Tick).outs ≡ flat_map (λ slot. (transition (state_after base inputs) (Push slot)).outs) (range_with_len 0 slot_count) }
{}

/// A feed answers of a slot the greatest acknowledgement since the slot's last new epoch, or its base
/// where none is above it.
pub fn acknowledgements_are_kept()
    ensures { (base : ℕ) (inputs : List In) (slot : ℕ) → slot < slot_count → acked_of (state_after base inputs) slot ≡ acknowledged_by base slot inputs }
{}

/// A manager that knows what the filed segments up to some number say of a block, and takes a range that
/// begins no later than the next number and ends no earlier, then knows what the filed segments up to the
/// range's end say: a range that is repeated or overlaps what is known adds just what is new.
pub fn ranges_extend_what_is_known()
    ensures { (base : ℕ) (inputs : List In) (slot first upto : ℕ) (rows : List (BlockId × Entry)) → TellsRange base inputs slot first upto rows
        → (applied : ℕ) (block : BlockId) → slot_of block.ino.0 ≡ slot → first ≤ applied + 1 → applied ≤ upto
        → first_greatest (join (deltas_between (base + 1) applied (filed_by base inputs)) block) (join rows block)
        ≡ join (deltas_between (base + 1) upto (filed_by base inputs)) block }
{}
