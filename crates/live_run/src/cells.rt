//! The cells of a run: how they are made; and how they, or others, are put behind locks and had back.
ghost use Rattle.std.specs.Prelude.{◌≡◌, ◌<◌, ◌++◌, ◌∷◌, [], ℕ, length, reverse, slice_get, Some, All, IfOk, IfSome, MatchOption};
ghost use Rattle.node_base.specs.Setups.{IsSetup};
ghost use Rattle.world_base.specs.Cluster.{cluster_of, node_count};
ghost use Rattle.live_links.specs.Ends.{IsInsOf, IsOutsOf, IsUnused};
ghost use Rattle.live_links.specs.Made.{AreLinks};

use crate::workers::Seat;
use live_links::{Cell, Ins, Outs, RunName};
use script_text::Script;
use std::alloc::{AllocError, Global};
use std::sync::Mutex;
use world_base::Member;
use xfs_base::Mem;

/// Takes the last one.
fn pop_last<T>(all: &mut Vec<T>) -> Option<T>
    ensures { IfSome result (λ x. all.old.items ≡ all.new.items ++ x ∷ []) }
{
    all.pop()
}

/// Those in the other order.
pub fn turned_round<T>(all: Vec<T>) -> Vec<T>
    ensures order { result.items ≡ reverse all.items }
    ensures count { length result.items ≡ length all.items }
{
    let mut all = all;
    all.reverse();
    all
}

/// The cells of the nodes of a script, to which nothing happened yet, in order of nodes, each with the ends of its place.
pub fn first_cells<N: Member, R: RunName>(
    alloc: Global,
    script: &Script,
    count: usize,
    outs: Vec<Outs>,
    ins: Vec<Ins>,
) -> Mem<Vec<Cell<N, R>>>
    requires script { script.now ≡ R.script }
    requires setup { IsSetup script.now.setup }
    requires count { count ≡ node_count (cluster_of script.now.setup) }
    requires outs { outs.items ≡ R.outs }
    requires links { AreLinks count count outs.items ins.items }
    ensures count { IfOk result (λ cells. length cells.items ≡ count) }
    ensures fresh { IfOk result (λ cells. All (λ c. c.journal.moments ≡ []) cells.items) }
    ensures each { IfOk result (λ cells. (p : ℕ) (c : _) → slice_get cells.items p ≡ Some c
        → (c.journal.place ≡ p) × (slice_get outs.items p ≡ Some c.outs) × (slice_get ins.items p ≡ Some c.ins)) }
{
    let mut cells = Vec::new(alloc);
    let mut outs = outs;
    let mut ins = ins;
    for _ in 0..count {
        let row = match pop_last(&mut outs) {
            None => return Err(AllocError),
            Some(row) => row,
        };
        let ends = match pop_last(&mut ins) {
            None => return Err(AllocError),
            Some(ends) => ends,
        };
        let cell = Cell::start(alloc, script, outs.len(), row, ends)?;
        cells.push(cell)?;
    }
    Ok(turned_round(cells))
}

/// Puts each behind a lock of its own.
pub fn seats_of<T: Drop>(alloc: Global, all: Vec<T>) -> Mem<Vec<Seat<T>>>
    ensures { IfOk result (λ seats. length seats.items ≡ length all.items) }
{
    let mut seats = Vec::new(alloc);
    for one in all {
        seats.push(Mutex::new(Some(one)))?;
    }
    Ok(seats)
}

/// What was left behind the locks. Where one is gone memory was wanting.
pub fn left_at<T: Drop>(alloc: Global, seats: Vec<Seat<T>>) -> Mem<Vec<T>>
    ensures { IfOk result (λ all. length all.items ≡ length seats.items) }
{
    let mut all = Vec::new(alloc);
    for seat in seats {
        match seat.into_inner() {
            None => return Err(AllocError),
            Some(one) => all.push(one)?,
        }
    }
    Ok(all)
}
