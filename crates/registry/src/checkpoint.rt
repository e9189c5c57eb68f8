//! What is kept of the newest checkpoint of a slot.
ghost use Rattle.std.specs.Prelude.{◌≡◌, IfOk, map, slice_index};
ghost use Rattle.registry.specs.Checkpoints.{first_checkpoint, none_lower, no_lower, covers_kept, parts_at, horizon_at};

use std::alloc::Global;
use xfs_base::limits::BY_LOG;
use xfs_base::{Crosses, List, Mem, SegRef};

/// The places of the nine logs in a horizon.
const PLACES: [usize; BY_LOG] = [0, 1, 2, 3, 4, 5, 6, 7, 8];

/// The newest checkpoint of a slot.
pub struct Checkpoint {
    /// Its segments.
    pub parts: List<SegRef>,
    /// For each log 1 to 9 the first segment number that it does not cover.
    pub horizon: List<u32>,
}

impl Drop for Checkpoint {
    fn drop(self) {
        let Checkpoint { parts, horizon } = self;
        drop(parts);
        drop(horizon);
    }
}

impl Crosses for Checkpoint {}

// The number at a place; 0 past the end.
fn number_at(numbers: &[u32], place: usize) -> u32
    ensures { result ≡ slice_index numbers.now place }
{
    match numbers.get(place) {
        Some(number) => *number,
        None => 0,
    }
}

// Whether no number of a horizon is below the one that is kept.
fn none_lower(kept: &[u32], horizon: &[u32]) -> bool
    ensures { result ≡ none_lower kept.now horizon.now }
{
    PLACES.iter().all(|place| number_at(kept, *place) <= number_at(horizon, *place))
}

// Whether a horizon has its nine numbers, none below the one that is kept.
fn no_lower(kept: &[u32], horizon: &[u32]) -> bool
    ensures { result ≡ no_lower kept.now horizon.now }
{
    horizon.len() == BY_LOG && none_lower(kept, horizon)
}

/// Whether a horizon may take the place of the one that is kept for a slot.
pub(crate) fn covers_kept(checkpoints: &[Checkpoint], slot: u8, horizon: &[u32]) -> bool
    ensures { result ≡ covers_kept checkpoints.now slot horizon.now }
{
    match checkpoints.get(usize::from(slot)) {
        Some(kept) => no_lower(kept.horizon.as_slice(), horizon),
        None => false,
    }
}

/// The checkpoint of a slot that has none: no segments, and each log is uncovered from its first.
fn first_checkpoint(alloc: Global) -> Mem<Checkpoint>
    ensures { IfOk result (λ made. made ≡ first_checkpoint) }
{
    let horizon = vec![in alloc; 1u32; BY_LOG]?;
    Ok(Checkpoint {
        parts: List::new(alloc),
        horizon: List::from_vec(horizon),
    })
}

/// The checkpoints of these slots at the start.
pub(crate) fn first_checkpoints(alloc: Global, slots: &[u8]) -> Mem<Vec<Checkpoint>>
    ensures { IfOk result (λ made. made.items ≡ map (λ _. first_checkpoint) slots.now) }
{
    let mut made = List::new(alloc);
    for _slot in slots {
        made.push(first_checkpoint(alloc)?)?;
    }
    Ok(made.into_vec())
}

/// A copy of the segments of a slot's checkpoint.
pub(crate) fn parts_at(alloc: Global, checkpoints: &[Checkpoint], slot: u8) -> Mem<List<SegRef>>
    ensures { IfOk result (λ parts. parts ≡ parts_at checkpoints.now slot) }
{
    match checkpoints.get(usize::from(slot)) {
        Some(kept) => kept.parts.copy(alloc),
        None => Ok(List::new(alloc)),
    }
}

/// A copy of the horizon of a slot's checkpoint.
pub(crate) fn horizon_at(alloc: Global, checkpoints: &[Checkpoint], slot: u8) -> Mem<List<u32>>
    ensures { IfOk result (λ horizon. horizon ≡ horizon_at checkpoints.now slot) }
{
    match checkpoints.get(usize::from(slot)) {
        Some(kept) => kept.horizon.copy(alloc),
        None => Ok(List::new(alloc)),
    }
}
