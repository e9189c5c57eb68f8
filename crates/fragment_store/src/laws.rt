//! What holds over any list of stores, fences, deletions and fills. Each function stands for the law that its
//! contract states; a call of it does nothing.
ghost use Rattle.std.specs.Prelude.{◌≡◌, ◌⊎◌, Contains, IsTrue, IsFalse, List, Some};
ghost use Rattle.xfs_base.specs.declared.fragment.Fragment.{Fragment};
ghost use Rattle.xfs_base.specs.declared.segment.LogId.{LogId};
ghost use Rattle.xfs_base.specs.declared.segment.SegName.{SegName};
ghost use Rattle.xfs_base.specs.Segments.{pass_cmp};
ghost use Rattle.xfs_base.specs.Stamps.{is_greater};
ghost use Rattle.fragment_store.specs.Calls.{on_lose};
ghost use Rattle.fragment_store.specs.Histories.{Call, DeletedAreAway, after_calls};
ghost use Rattle.fragment_store.specs.Histories.Call.{Delete};
ghost use Rattle.fragment_store.specs.ShelfState.{ShelfState, new_shelf, held_at, is_marked, fence_of};

/// The fence of a log never falls.
pub fn fences_never_fall()
    ensures { (s : ShelfState) (calls : List Call) (log : LogId)
        → IsFalse (is_greater (pass_cmp (fence_of s.fences log) (fence_of (after_calls s calls).fences log))) }
{}

/// What is held stays, the same, unless its name is deleted; a name that was deleted stays marked, and
/// nothing of it is held again: so it is of an empty shelf, in the first generation and in each that a loss
/// begins, and so it stays.
pub fn kept_until_deleted()
    ensures held { (s : ShelfState) (calls : List Call) (name : SegName) (f : Fragment) → held_at s.held name ≡ Some f
        → (held_at (after_calls s calls).held name ≡ Some f) ⊎ Contains calls (Delete name) }
    ensures marked { (s : ShelfState) (calls : List Call) (name : SegName) → IsTrue (is_marked s.marks name)
        → IsTrue (is_marked (after_calls s calls).marks name) }
    ensures away { (s : ShelfState) (calls : List Call) → DeletedAreAway s → DeletedAreAway (after_calls s calls) }
    ensures away_at_first { DeletedAreAway new_shelf }
    ensures away_after_a_loss { (s : ShelfState) → DeletedAreAway (on_lose s) }
{}
