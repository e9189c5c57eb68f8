//! A run with applications: it is one run by workers, and each client's calls and replies are known.
ghost use Rattle.std.specs.Prelude.{◌≡◌, ◌+◌, ◌≤◌, true, false, ℕ, length, slice_get, Some, All, IfOk};
ghost use Rattle.node_base.specs.Setups.{IsSetup};
ghost use Rattle.world_base.specs.Cluster.{cluster_of, node_count};
ghost use Rattle.live_links.specs.Ending.{IsEnded};
ghost use Rattle.live_links.specs.Facts.{IsDone};
ghost use Rattle.live_links.specs.Made.{AreLinks};
ghost use Rattle.live_run.specs.Live.{IsLive, NamesNodes};
ghost use Rattle.mounts.specs.Mounted.{IsMounted};
ghost use Rattle.mounts.specs.Ports.{ArePairs};

use crate::settling::clients_apart;
use crate::starting::{applications_of, clients_of, pairs_of};
use crate::threads::run_threads;
use crate::{Application, Mount, MountName, MountedCell, Port};
use live_links::{Cell, Ins, Outs, links};
use live_run::{
    LAST, Round, Watch, all_done, all_waited, apart, first_cells, left_at, merged, one_round,
    seats_of,
};
use script_text::Script;
use std::alloc::Global;
use std::marker::Brand;
use std::sync::Wait;
use std::thread::Threads;
use world_base::{Cluster, Member};
use xfs_base::{Gate, Mem};

/// Whether all items of all clients are answered.
fn all_clients_done<N: Member, R: MountName>(clients: &[MountedCell<N, R>]) -> bool
    ensures { result ≡ true → All (λ c. IsDone N.transition N.first R.script c.cell.journal.place c.cell.journal.moments) clients.now }
{
    for client in clients {
        if !client.done() {
            return false;
        }
    }
    true
}

/// Whether all items of all nodes are answered.
fn all_over<N: Member, R: MountName>(clients: &[MountedCell<N, R>], others: &[Cell<N, R>]) -> bool
    ensures clients { result ≡ true → All (λ c. IsDone N.transition N.first R.script c.cell.journal.place c.cell.journal.moments) clients.now }
    ensures others { result ≡ true → All (λ c. IsDone N.transition N.first R.script c.journal.place c.journal.moments) others.now }
{
    if !all_clients_done(clients) {
        return false;
    }
    all_done(others)
}

/// Whether time passed so often at each client behind its last answer that the run may be given up.
fn all_clients_waited<N: Member, R: MountName>(clients: &[MountedCell<N, R>]) -> bool
    ensures { result ≡ true → All (λ c. IsEnded N.transition N.first R.script false c.cell.journal.place c.cell.journal.moments) clients.now }
{
    for client in clients {
        if client.cell.waited() < u64::from(LAST) {
            return false;
        }
    }
    true
}

/// Whether time passed so often at each node.
fn all_have_waited<N: Member, R: MountName>(
    clients: &[MountedCell<N, R>],
    others: &[Cell<N, R>],
) -> bool
    ensures clients { result ≡ true → All (λ c. IsEnded N.transition N.first R.script false c.cell.journal.place c.cell.journal.moments) clients.now }
    ensures others { result ≡ true → All (λ c. IsEnded N.transition N.first R.script false c.journal.place c.journal.moments) others.now }
{
    if !all_clients_waited(clients) {
        return false;
    }
    all_waited(others)
}

/// Lets each application go on once, and says whether one did something.
fn go_on_all<R: MountName, G: Gate>(
    alloc: Global,
    applications: Vec<Application<R>>,
    gate: &G,
) -> Mem<(Vec<Application<R>>, bool)> {
    let mut next = Vec::new(alloc);
    let mut any_moved = false;
    for application in applications {
        let (application, moved) = application.go_on(gate)?;
        any_moved = any_moved || moved;
        next.push(application)?;
    }
    Ok((next, any_moved))
}

/// Takes the turns that are missing, in one thread, until each item of each node is answered, or until time passed at each
/// node so often since an item was answered anywhere that none will be; the applications go on between them. It says
/// whether all are answered.
fn finish<N: Member, R: MountName, W: Wait, G: Gate>(
    rt: &W,
    alloc: Global,
    clients: Vec<MountedCell<N, R>>,
    others: Vec<Cell<N, R>>,
    applications: Vec<Application<R>>,
    gate: &G,
) -> Mem<
    (
        Vec<MountedCell<N, R>>,
        Vec<Cell<N, R>>,
        Vec<Application<R>>,
        bool,
    ),
>
    ensures clients { IfOk result (λ r. length r.0.items ≡ length clients.items) }
    ensures others { IfOk result (λ r. length r.1.items ≡ length others.items) }
    ensures clients_ended { IfOk result (λ r. All (λ c. IsEnded N.transition N.first R.script r.3 c.cell.journal.place c.cell.journal.moments) r.0.items) }
    ensures others_ended { IfOk result (λ r. All (λ c. IsEnded N.transition N.first R.script r.3 c.journal.place c.journal.moments) r.1.items) }
{
    let mut clients = clients;
    let mut others = others;
    let mut applications = applications;
    let mut watch = Watch::new();
    for _ in rt.forever() {
        if all_over(clients.as_slice(), others.as_slice()) {
            return Ok((clients, others, applications, true));
        }
        if watch.has_passed(LAST) && all_have_waited(clients.as_slice(), others.as_slice()) {
            return Ok((clients, others, applications, false));
        }
        let idle = watch.is_idle(1);
        let (next_applications, one) = go_on_all(alloc, applications, gate)?;
        let (next_clients, other) = one_round(alloc, clients, idle)?;
        let (next_others, third) = one_round(alloc, others, idle)?;
        applications = next_applications;
        clients = next_clients;
        others = next_others;
        let cells = other.and(third);
        let round = Round {
            moved: one || cells.moved,
            ..cells
        };
        watch = watch.with(idle, round);
    }
    unreachable!()
}

/// Merges the journals of cells to one run, full or given up as they are, and tells what applications called and were
/// replied.
fn told<N: Member, R: MountName>(
    alloc: Global,
    script: &Script,
    clients: Vec<MountedCell<N, R>>,
    others: Vec<Cell<N, R>>,
    applications: Vec<Application<R>>,
    full: bool,
) -> Mem<crate::mounted_run::Mounted<N>>
    requires script { script.now ≡ R.script }
    requires setup { IsSetup script.now.setup }
    requires names { NamesNodes script.now }
    requires rings { length R.outs ≡ node_count (cluster_of script.now.setup) }
    requires clients { length clients.items ≡ script.now.setup.clients }
    requires count { length clients.items + length others.items ≡ node_count (cluster_of script.now.setup) }
    requires clients_ended { All (λ c. IsEnded N.transition N.first R.script full c.cell.journal.place c.cell.journal.moments) clients.items }
    requires others_ended { All (λ c. IsEnded N.transition N.first R.script full c.journal.place c.journal.moments) others.items }
    ensures script { IfOk result (λ m. m.estate.script ≡ script.now) }
    ensures run { IfOk result (λ m. IsLive N.transition N.first m.full m.estate) }
    ensures mounted { IfOk result (λ m. IsMounted N.transition N.first m.full m.estate m.calls m.replies) }
{
    let (parts, told) = clients_apart(alloc, clients, applications, full)?;
    let all = apart(parts, others)?;
    let estate = merged::<N, R>(alloc, script, all)?;
    let (calls, replies) = told.into_lists();
    Ok(crate::mounted_run::Mounted {
        full,
        estate,
        calls,
        replies,
    })
}

/// Runs the clients, the other cells and the applications of the run R, by so many workers and a thread for each
/// application.
fn mounted_cells<N: Member + Send, R: MountName + Send + Sync, W: Threads + Wait + Sync, G: Gate>(
    rt: &W,
    alloc: Global,
    script: &Script,
    clients: Vec<MountedCell<N, R>>,
    others: Vec<Cell<N, R>>,
    applications: Vec<Application<R>>,
    workers: u8,
    gate: &G,
) -> Mem<crate::mounted_run::Mounted<N>>
    requires script { script.now ≡ R.script }
    requires setup { IsSetup script.now.setup }
    requires names { NamesNodes script.now }
    requires rings { length R.outs ≡ node_count (cluster_of script.now.setup) }
    requires clients { length clients.items ≡ script.now.setup.clients }
    requires count { length clients.items + length others.items ≡ node_count (cluster_of script.now.setup) }
    ensures script { IfOk result (λ m. m.estate.script ≡ script.now) }
    ensures run { IfOk result (λ m. IsLive N.transition N.first m.full m.estate) }
    ensures mounted { IfOk result (λ m. IsMounted N.transition N.first m.full m.estate m.calls m.replies) }
{
    let clients = seats_of(alloc, clients)?;
    let others = seats_of(alloc, others)?;
    let applications = seats_of(alloc, applications)?;
    run_threads(
        rt,
        alloc,
        clients.as_slice(),
        others.as_slice(),
        applications.as_slice(),
        workers,
        gate,
    );
    let clients = left_at(alloc, clients)?;
    let others = left_at(alloc, others)?;
    let applications = left_at(alloc, applications)?;
    let (clients, others, applications, full) = finish(
        rt,
        alloc,
        clients,
        others,
        applications,
        gate,
    )?;
    told(alloc, script, clients, others, applications, full)
}

/// Runs the nodes of a script over these rings, with applications over those. Whoever calls it names the run R by the
/// script and both.
fn mounted_linked<N: Member + Send, R: MountName + Send + Sync, W: Threads + Wait + Sync, G: Gate>(
    rt: &W,
    alloc: Global,
    script: &Script,
    outs: Vec<Outs>,
    ins: Vec<Ins>,
    mounts: Vec<Mount>,
    ports: Vec<Port>,
    workers: u8,
    gate: &G,
) -> Mem<crate::mounted_run::Mounted<N>>
    requires script { script.now ≡ R.script }
    requires setup { IsSetup script.now.setup }
    requires names { NamesNodes script.now }
    requires outs { outs.items ≡ R.outs }
    requires links { AreLinks (node_count (cluster_of script.now.setup)) (node_count (cluster_of script.now.setup)) outs.items ins.items }
    requires ports { ports.items ≡ R.ports }
    requires pairs { ArePairs script.now script.now.setup.clients mounts.items ports.items }
    ensures script { IfOk result (λ m. m.estate.script ≡ script.now) }
    ensures run { IfOk result (λ m. IsLive N.transition N.first m.full m.estate) }
    ensures mounted { IfOk result (λ m. IsMounted N.transition N.first m.full m.estate m.calls m.replies) }
{
    let count = Cluster::of(&script.setup).count();
    let applications: Vec<Application<R>> = applications_of(alloc, script, mounts)?;
    let cells: Vec<Cell<N, R>> = first_cells(alloc, script, count, outs, ins)?;
    let (clients, others) = clients_of(alloc, cells, ports)?;
    mounted_cells(
        rt,
        alloc,
        script,
        clients,
        others,
        applications,
        workers,
        gate,
    )
}

/// Runs the nodes of a script by so many workers, none to 255, with an application for each client that calls its
/// items from a thread of its own, and a gate that watches them. If it returns Ok, what happened is one run of the
/// script in which the items of each node were begun in their order, each at its due; it says whether none is left out
/// and each is answered. Else the run was given up: time passed at each node 256 times or more behind its last answer. For
/// each client what was called are its first items, in order, each once, in a full run all, and what was replied is what
/// it answered, in order, each once. That it returns is not claimed.
/// Where memory is wanting for a node or an application, the run ends for want of memory; so it does where a cell or an
/// application is found gone or at another place than its own, where an item is called out of order, or where a node
/// answers more often than it has items, which no type excludes.
pub fn mounted<N: Member + Send, W: Threads + Wait + Sync, G: Gate>(
    rt: &W,
    alloc: Global,
    script: &Script,
    workers: u8,
    gate: &G,
) -> Mem<crate::mounted_run::Mounted<N>>
    requires setup { IsSetup script.now.setup }
    requires names { NamesNodes script.now }
    ensures script { IfOk result (λ m. m.estate.script ≡ script.now) }
    ensures run { IfOk result (λ m. IsLive N.transition N.first m.full m.estate) }
    ensures mounted { IfOk result (λ m. IsMounted N.transition N.first m.full m.estate m.calls m.replies) }
{
    let (outs, ins) = links(alloc, Cluster::of(&script.setup).count())?;
    let (mounts, ports) = pairs_of(alloc, script, usize::from(script.setup.clients))?;
    mounted_linked::<N, Brand, W, G>(rt, alloc, script, outs, ins, mounts, ports, workers, gate)
}
