//! A run by worker threads: what happened to its nodes is one run of them.
ghost use Rattle.std.specs.Prelude.{◌≡◌, ◌+◌, ℕ, true, false, List as Seq, length, slice_get, Some, All, IfOk};
ghost use Rattle.node_base.specs.Setups.{IsSetup};
ghost use Rattle.world_base.specs.Cluster.{cluster_of, node_at, node_count};
ghost use Rattle.journals.specs.declared.moment.Moment.{Moment as One};
ghost use Rattle.journals.specs.Journals.{whats};
ghost use Rattle.journals.specs.Merging.{whats_of};
ghost use Rattle.live_links.specs.Ending.{IsEnded};
ghost use Rattle.live_links.specs.Facts.{IsDone};
ghost use Rattle.live_links.specs.Made.{AreLinks};
ghost use Rattle.live_links.specs.Parts.{AreParts};
ghost use Rattle.live_run.specs.Live.{IsFront, IsLive, NamesNodes};

use crate::cells::{first_cells, left_at, seats_of};
use crate::workers::{Round, Visited, Watch, run_workers};
use journals::merge;
use live_links::{Cell, Ins, Outs, Parts, RunName, links, look_all};
use script_text::Script;
use std::alloc::Global;
use std::marker::Brand;
use std::sync::Wait;
use std::thread::Threads;
use world_base::{Cluster, Estate, Member};
use xfs_base::{Gate, Mem};

/// Whether all items of all nodes are answered.
pub fn all_done<N: Member, R: RunName>(cells: &[Cell<N, R>]) -> bool
    ensures { result ≡ true → All (λ c. IsDone N.transition N.first R.script c.journal.place c.journal.moments) cells.now }
{
    for cell in cells {
        if !cell.done() {
            return false;
        }
    }
    true
}

/// In how many rounds of one thread time passes behind the last answer before a run is given up.
pub const LAST: u16 = 256;

/// Whether time passed so often at each node behind its last answer that the run may be given up.
pub fn all_waited<N: Member, R: RunName>(cells: &[Cell<N, R>]) -> bool
    ensures { result ≡ true → All (λ c. IsEnded N.transition N.first R.script false c.journal.place c.journal.moments) cells.now }
{
    for cell in cells {
        if cell.waited() < u64::from(LAST) {
            return false;
        }
    }
    true
}

/// Lets each have its turns, in their order, and says what happened in this round.
pub fn one_round<T: Visited>(alloc: Global, all: Vec<T>, idle: bool) -> Mem<(Vec<T>, Round)>
    ensures { IfOk result (λ r. length r.0.items ≡ length all.items) }
{
    let mut next = Vec::new(alloc);
    let mut round = Round::over(true);
    for one in all {
        let before = one.answers();
        let (one, moved) = one.have_turns(alloc, idle)?;
        round.moved = round.moved || moved;
        round.answered = round.answered || before < one.answers();
        round.done = round.done && one.is_over();
        next.push(one)?;
    }
    Ok((next, round))
}

/// Takes the turns that are missing, in one thread, until each item of each node is answered, or until time passed at each
/// node so often since an item was answered anywhere that none will be. It says whether all are answered.
fn finish<N: Member, R: RunName, W: Wait>(
    rt: &W,
    alloc: Global,
    cells: Vec<Cell<N, R>>,
) -> Mem<(Vec<Cell<N, R>>, bool)>
    ensures count { IfOk result (λ r. length r.0.items ≡ length cells.items) }
    ensures ended { IfOk result (λ r. All (λ c. IsEnded N.transition N.first R.script r.1 c.journal.place c.journal.moments) r.0.items) }
{
    let mut cells = cells;
    let mut watch = Watch::new();
    for _ in rt.forever() {
        if all_done(cells.as_slice()) {
            return Ok((cells, true));
        }
        if watch.has_passed(LAST) && all_waited(cells.as_slice()) {
            return Ok((cells, false));
        }
        let idle = watch.is_idle(1);
        let (next, round) = one_round(alloc, cells, idle)?;
        cells = next;
        watch = watch.with(idle, round);
    }
    unreachable!()
}

/// Takes more cells apart, which have ended as the run has, behind those that were.
pub fn apart<N: Member, R: RunName>(parts: Parts<N>, cells: Vec<Cell<N, R>>) -> Mem<Parts<N>>
    requires parts { AreParts N.transition N.first R.script R.outs parts.full parts.journals.items parts.nodes parts.outs.items parts.ins.items }
    requires ended { All (λ c. IsEnded N.transition N.first R.script parts.full c.journal.place c.journal.moments) cells.items }
    ensures full { IfOk result (λ p. p.full ≡ parts.full) }
    ensures parts { IfOk result (λ p. AreParts N.transition N.first R.script R.outs p.full p.journals.items p.nodes p.outs.items p.ins.items) }
    ensures count { IfOk result (λ p. length p.journals.items ≡ length parts.journals.items + length cells.items) }
    ensures front { IfOk result (λ p. IsFront parts.journals.items p.journals.items) }
{
    let mut parts = parts;
    for cell in cells {
        parts.add(cell)?;
    }
    Ok(parts)
}

/// Merges the journals of all cells to one run, full or given up as they are, in which to each node happened just what its
/// journal has.
pub fn merged<N: Member, R: RunName>(
    alloc: Global,
    script: &Script,
    parts: Parts<N>,
) -> Mem<Estate<N>>
    requires script { script.now ≡ R.script }
    requires setup { IsSetup script.now.setup }
    requires names { NamesNodes script.now }
    requires rings { length R.outs ≡ node_count (cluster_of script.now.setup) }
    requires count { length parts.journals.items ≡ node_count (cluster_of script.now.setup) }
    requires parts { AreParts N.transition N.first R.script R.outs parts.full parts.journals.items parts.nodes parts.outs.items parts.ins.items }
    ensures script { IfOk result (λ e. e.script ≡ script.now) }
    ensures run { IfOk result (λ e. IsLive N.transition N.first parts.full e) }
    ensures each { IfOk result (λ e. (p : ℕ) (j : Seq One) → slice_get parts.journals.items p ≡ Some j
        → whats_of (node_at (cluster_of script.now.setup) p) e.events ≡ whats j) }
{
    let (journals, nodes, mut outs, mut ins) = parts.into_rows();
    look_all(&mut outs, &mut ins);
    merge(alloc, script, journals, nodes)
}

/// Runs the cells of the run R by so many workers.
fn live_cells<N: Member + Send, R: RunName + Send + Sync, W: Threads + Wait + Sync, G: Gate>(
    rt: &W,
    alloc: Global,
    script: &Script,
    cells: Vec<Cell<N, R>>,
    workers: u8,
    gate: &G,
) -> Mem<(Estate<N>, bool)>
    requires script { script.now ≡ R.script }
    requires setup { IsSetup script.now.setup }
    requires names { NamesNodes script.now }
    requires rings { length R.outs ≡ node_count (cluster_of script.now.setup) }
    requires count { length cells.items ≡ node_count (cluster_of script.now.setup) }
    ensures script { IfOk result (λ r. r.0.script ≡ script.now) }
    ensures run { IfOk result (λ r. IsLive N.transition N.first r.1 r.0) }
{
    let seats = seats_of(alloc, cells)?;
    run_workers(rt, alloc, seats.as_slice(), workers, gate);
    let cells = left_at(alloc, seats)?;
    let (cells, full) = finish(rt, alloc, cells)?;
    let parts = apart(Parts::none(alloc, full), cells)?;
    let estate = merged::<N, R>(alloc, script, parts)?;
    Ok((estate, full))
}

/// Runs the nodes of a script over these rings by so many workers. Whoever calls it names the run R by the two.
fn live_linked<N: Member + Send, R: RunName + Send + Sync, W: Threads + Wait + Sync, G: Gate>(
    rt: &W,
    alloc: Global,
    script: &Script,
    outs: Vec<Outs>,
    ins: Vec<Ins>,
    workers: u8,
    gate: &G,
) -> Mem<(Estate<N>, bool)>
    requires script { script.now ≡ R.script }
    requires setup { IsSetup script.now.setup }
    requires names { NamesNodes script.now }
    requires outs { outs.items ≡ R.outs }
    requires links { AreLinks (node_count (cluster_of script.now.setup)) (node_count (cluster_of script.now.setup)) outs.items ins.items }
    ensures script { IfOk result (λ r. r.0.script ≡ script.now) }
    ensures run { IfOk result (λ r. IsLive N.transition N.first r.1 r.0) }
{
    let count = Cluster::of(&script.setup).count();
    let cells: Vec<Cell<N, R>> = first_cells(alloc, script, count, outs, ins)?;
    live_cells(rt, alloc, script, cells, workers, gate)
}

/// Runs the nodes of a script by so many workers, none to 255, with a gate that watches them. If it returns
/// Ok, what happened is one run of the script in which the items of each node were begun in their order, each at
/// its due; it says whether none is left out and each is answered. Else the run was given up: time passed at each node
/// 256 times or more behind its last answer. That it returns is not claimed. Where memory is wanting for a node, the run ends for want of memory; so it does
/// where a cell is found gone, or at another place than its own, which no type excludes.
pub fn live<N: Member + Send, W: Threads + Wait + Sync, G: Gate>(
    rt: &W,
    alloc: Global,
    script: &Script,
    workers: u8,
    gate: &G,
) -> Mem<(Estate<N>, bool)>
    requires setup { IsSetup script.now.setup }
    requires names { NamesNodes script.now }
    ensures script { IfOk result (λ r. r.0.script ≡ script.now) }
    ensures run { IfOk result (λ r. IsLive N.transition N.first r.1 r.0) }
{
    let (outs, ins) = links(alloc, Cluster::of(&script.setup).count())?;
    live_linked::<N, Brand, W, G>(rt, alloc, script, outs, ins, workers, gate)
}
