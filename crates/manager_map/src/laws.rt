//! What holds over any list of calls.
ghost use Rattle.std.specs.Prelude.{◌≡◌, ◌<◌, ◌≤◌, ◌+◌, ℕ, List, min};
ghost use Rattle.xfs_base.specs.Limits.{u32_end, slot_count};
ghost use Rattle.manager_map.specs.declared.entry.SlotEntry.{SlotEntry};
ghost use Rattle.manager_map.specs.Slots.{manager_map_start, entry_at};
ghost use Rattle.manager_map.specs.Moves.{Move, after_moves, moves_of};

/// Over any list of calls of `advance`, refused ones among them, no epoch falls; while a slot's epoch
/// stays, so does its manager; and from the start the epoch of a slot is one more than the number of
/// times that it was moved, up to 4,294,967,295.
pub fn epochs_never_fall()
    ensures never_fall { (slots : List SlotEntry) (moves : List Move) (slot : ℕ)
        → (entry_at slots slot).epoch ≤ (entry_at (after_moves slots moves) slot).epoch }
    ensures one_manager { (slots : List SlotEntry) (moves : List Move) (slot : ℕ)
        → (entry_at (after_moves slots moves) slot).epoch ≡ (entry_at slots slot).epoch
        → entry_at (after_moves slots moves) slot ≡ entry_at slots slot }
    ensures counted { (managers : ℕ) (moves : List Move) (slot : ℕ) → slot < slot_count
        → (entry_at (after_moves (manager_map_start managers) moves) slot).epoch ≡ min (1 + moves_of slot moves) u32_end }
{}
