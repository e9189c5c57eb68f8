//! What is true of a cache, whatever it was told before. Each function stands for the law that its
//! contract states; a call of it does nothing. A history is what a cache took, oldest first.
ghost use Rattle.std.specs.Prelude.{◌≡◌, ℕ, ◌≤◌, true, List, [], ◌∷◌, ◌++◌, All, length};
ghost use Rattle.xfs_base.specs.declared.block.BlockId.{BlockId};
ghost use Rattle.coop_cache.specs.declared.input.In.{In};
ghost use Rattle.coop_cache.specs.CacheState.{CacheState};
ghost use Rattle.coop_cache.specs.Transition.{is_clean, transition};
ghost use Rattle.coop_cache.specs.Use.{state_after, IsByUse, IsLeastUsed};
ghost use Rattle.coop_cache.specs.Leaving.{StaysOrIsTold, TellsWhereFull};

/// The order is exact: of two blocks that a cache keeps, the earlier in its order was used last before the
/// later.
pub fn order_is_by_use()
    ensures { (capacity : ℕ) (history : List In) → IsByUse history (state_after capacity history).blocks }
{}

/// A victim is the least recently used: it was used last before every block that the cache keeps.
pub fn victim_is_least_recently_used()
    ensures { (capacity : ℕ) (history : List In) (input : In)
        → All (IsLeastUsed (history ++ input ∷ []) (state_after capacity (history ++ input ∷ [])).blocks)
        (transition (state_after capacity history) input).outs }
{}

/// A cache never keeps more clean blocks than it may.
pub fn capacity_is_kept()
    ensures { (capacity : ℕ) (history : List In) → length (state_after capacity history).blocks ≤ capacity }
{}

/// A clean block leaves only by a Dirty or a Gone of it, or as the victim that is told.
pub fn leaves_only_told()
    ensures { (s : CacheState) (input : In) (block : BlockId) → is_clean s block ≡ true → StaysOrIsTold s input block }
{}

/// A victim is told only where a cache was full, and one at a time.
pub fn victim_only_where_full()
    ensures { (capacity : ℕ) (history : List In) (input : In)
        → TellsWhereFull (state_after capacity history) (transition (state_after capacity history) input).outs }
{}
