//! The clients and the applications of a run, as they are made.
ghost use Rattle.std.specs.Prelude.{◌≡◌, ◌+◌, ◌<◌, ◌≤◌, ◌++◌, ◌∷◌, ℕ, [], length, slice_get, Some, All, IfOk, IsTrue};
ghost use Rattle.world_base.specs.Cluster.{cluster_of, node_count};
ghost use Rattle.live_links.specs.Facts.{dues_at};
ghost use Rattle.mounts.specs.declared.port.Port.{Port as Other};
ghost use Rattle.mounts.specs.Ports.{ArePairs, IsFreshPort};

use crate::pairs::pair;
use crate::{Application, Mount, MountName, MountedCell, Port};
use live_links::Cell;
use live_run::turned_round;
use script_text::Script;
use std::alloc::{AllocError, Global};
use world_base::{Cluster, Due, Member, dues_of};
use xfs_base::{List, Mem, NodeId};

/// The number of a client; 0 for other nodes.
fn client_of(node: NodeId) -> u8 {
    match node {
        NodeId::Client(client) => client,
        _ => 0,
    }
}

/// The name of the node at a place of a script, and when its items may be begun.
fn items_at(alloc: Global, script: &Script, place: usize) -> Mem<(NodeId, List<Due>)>
    requires { place < node_count (cluster_of script.now.setup) }
    ensures { IfOk result (λ r. r.1 ≡ dues_at script.now place) }
{
    let node = Cluster::of(&script.setup).node_at(place);
    let dues = dues_of(alloc, script.lines.as_slice(), node)?;
    Ok((node, dues))
}

/// How many items there are.
fn count_of(dues: &List<Due>) -> Mem<u32>
    ensures { IfOk result (λ count. count ≡ length dues.now) }
{
    if dues.len() <= 4_294_967_295 {
        Ok(dues.len() as u32)
    } else {
        Err(AllocError)
    }
}

/// The rings between the first so many nodes of a script and their applications, each with a slot for each item of its
/// node. The ends stand in order of nodes.
pub(crate) fn pairs_of(alloc: Global, script: &Script, count: usize) -> Mem<(Vec<Mount>, Vec<Port>)>
    requires { count ≤ node_count (cluster_of script.now.setup) }
    ensures { IfOk result (λ r. ArePairs script.now count r.0.items r.1.items) }
{
    let mut mounts = Vec::new(alloc);
    let mut ports = Vec::new(alloc);
    for place in 0..count {
        let (_, dues) = items_at(alloc, script, place)?;
        let calls = count_of(&dues)?;
        let (mount, port) = pair(alloc, calls)?;
        mounts.push(mount)?;
        ports.push(port)?;
    }
    Ok((mounts, ports))
}

/// The applications of the first nodes of a script, one for each mount, that have called nothing yet.
pub(crate) fn applications_of<R: MountName>(
    alloc: Global,
    script: &Script,
    mounts: Vec<Mount>,
) -> Mem<Vec<Application<R>>>
    requires script { script.now ≡ R.script }
    requires pairs { ArePairs R.script (length mounts.items) mounts.items R.ports }
    requires fits { length mounts.items ≤ node_count (cluster_of script.now.setup) }
    ensures { IfOk result (λ applications. length applications.items ≡ length mounts.items) }
{
    let mut applications = Vec::new(alloc);
    for mount in mounts {
        let place = applications.len();
        let (node, dues) = items_at(alloc, script, place)?;
        applications.push(Application::start(alloc, place, client_of(node), mount, dues))?;
    }
    Ok(applications)
}

/// Takes the last one; where there is none memory was wanting.
pub(crate) fn take_last<T>(all: &mut Vec<T>) -> Mem<T>
    ensures { IfOk result (λ x. all.old.items ≡ all.new.items ++ x ∷ []) }
{
    match all.pop() {
        None => Err(AllocError),
        Some(x) => Ok(x),
    }
}

/// Whether a cell stands at a place.
fn stands_at<N: Member, R: MountName>(cell: &Cell<N, R>, place: usize) -> bool
    ensures { IsTrue result → cell.now.journal.place ≡ place }
{
    cell.place() == place
}

/// The first cells with a port each, and the others. A cell of another place than its port's is answered like want of
/// memory: no type says at which place a cell stands.
pub(crate) fn clients_of<N: Member, R: MountName>(
    alloc: Global,
    cells: Vec<Cell<N, R>>,
    ports: Vec<Port>,
) -> Mem<(Vec<MountedCell<N, R>>, Vec<Cell<N, R>>)>
    requires fresh { All (λ c. c.journal.moments ≡ []) cells.items }
    requires ports { ports.items ≡ R.ports }
    requires unused { (p : ℕ) (q : Other) → slice_get ports.items p ≡ Some q → IsFreshPort q }
    ensures clients { IfOk result (λ r. length r.0.items ≡ length ports.items) }
    ensures count { IfOk result (λ r. length r.0.items + length r.1.items ≡ length cells.items) }
{
    let mut clients = Vec::new(alloc);
    let mut left = turned_round(cells);
    for port in ports {
        let cell = take_last(&mut left)?;
        if !stands_at(&cell, clients.len()) {
            return Err(AllocError);
        }
        clients.push(MountedCell::start(cell, port))?;
    }
    Ok((clients, turned_round(left)))
}
