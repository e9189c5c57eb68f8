//! What is true of joins, and of an index after any merges. Each function stands for the law that its
//! contract states; a call of it does nothing.
ghost use Rattle.std.specs.Prelude.{◌≡◌, ◌≢◌, ◌↔◌, IsTrue, List, [], ◌∷◌, ◌++◌};
ghost use Rattle.xfs_base.specs.declared.block.BlockId.{BlockId};
ghost use Rattle.xfs_base.specs.declared.entry.Entry.{Entry};
ghost use Rattle.delta_index.specs.Entries.{no_entry, is_newer, first_greatest, HasSameRank, DiffersInRank};
ghost use Rattle.delta_index.specs.Index.{entry_of, merged_all};
ghost use Rattle.delta_index.specs.Join.{entries_of, join, IsJoin, MayChangePlaces};

/// After any list of merges an index holds of each block the join of them.
pub fn index_is_the_join()
    ensures { (merges : List (BlockId × Entry)) (block : BlockId) → entry_of (merged_all [] merges) block ≡ join merges block }
{}

/// The joins determine the index: one that is recovered from other merges with the same joins is the one
/// that was never lost.
pub fn joins_determine_the_index()
    ensures { (merges others : List (BlockId × Entry)) → ((block : BlockId) → join merges block ≡ join others block)
        → merged_all [] merges ≡ merged_all [] others }
{}

/// The join is the entry of greatest version and hop among those merged that are above version 0 and
/// hop 0, and of equal ones the earliest; where there is none, it is no entry.
pub fn join_is_the_first_greatest()
    ensures { (merges : List (BlockId × Entry)) (block : BlockId) (entry : Entry) → (entry ≡ join merges block) ↔ IsJoin (entries_of block merges) entry }
{}

/// The first greatest of three does not depend on which two are compared first.
pub fn first_greatest_is_associative()
    ensures { (a b c : Entry) → first_greatest (first_greatest a b) c ≡ first_greatest a (first_greatest b c) }
{}

/// An entry is the first greatest of itself and itself.
pub fn first_greatest_is_idempotent()
    ensures { (a : Entry) → first_greatest a a ≡ a }
{}

/// No entry adds nothing to what is known.
pub fn no_entry_adds_nothing()
    ensures { (a : Entry) → first_greatest a no_entry ≡ a }
{}

/// Entries that differ in version or hop may change places.
pub fn differing_entries_commute()
    ensures { (a b : Entry) → DiffersInRank a b → first_greatest a b ≡ first_greatest b a }
{}

/// The join of one list after another is the first greatest of their joins.
pub fn join_of_a_concatenation()
    ensures { (earlier later : List (BlockId × Entry)) (block : BlockId)
        → join (earlier ++ later) block ≡ first_greatest (join earlier block) (join later block) }
{}

/// A merge that was made before changes nothing.
pub fn repeated_merge_changes_nothing()
    ensures { (before between later : List (BlockId × Entry)) (m : BlockId × Entry) (block : BlockId)
        → join (before ++ m ∷ (between ++ m ∷ later)) block ≡ join (before ++ m ∷ (between ++ later)) block }
{}

/// Neighbours in a list of merges may change places where they are of two blocks, or differ in version
/// or hop.
pub fn differing_merges_change_places()
    ensures { (before later : List (BlockId × Entry)) (m n : BlockId × Entry) (block : BlockId) → MayChangePlaces m n
        → join (before ++ m ∷ n ∷ later) block ≡ join (before ++ n ∷ m ∷ later) block }
{}

/// Of entries of one version and hop the earlier stays, so there the order counts: two that differ, as in
/// their places, give two joins by their order.
pub fn order_of_equals_counts()
    ensures { (block : BlockId) (a b : Entry) → HasSameRank a b → IsTrue (is_newer a no_entry) → a ≢ b
        → join ((block, a) ∷ (block, b) ∷ []) block ≢ join ((block, b) ∷ (block, a) ∷ []) block }
{}
