//! The nodes of a run.
ghost use Rattle.std.specs.Prelude.{◌≡◌, ◌++◌, IfOk, OnOk, filter};
ghost use Rattle.node_base.specs.Nodes.{peers_of, server_in, has_node, is_other, peers_all, others, clients, managers, servers};

use std::alloc::Global;
use xfs_base::{List, Mem, NodeId, Setup};

/// How many nodes of each kind there are; there is one cleaner and one registry.
#[derive(Clone, Copy, PartialEq, Eq)]
pub struct Peers {
    /// Clients are numbered from 1 to this.
    pub clients: u8,
    /// Managers are numbered from 1 to this.
    pub managers: u8,
    /// Storage servers are numbered from 1 to this.
    pub servers: u8,
}

/// The number of a storage server; none of another node.
pub fn server_in(node: NodeId) -> Option<u8>
    ensures { result ≡ server_in node }
{
    match node {
        NodeId::Server(number) => Some(number),
        NodeId::Client(_) | NodeId::Manager(_) | NodeId::Cleaner | NodeId::Registry => None,
    }
}

impl Peers {
    /// The nodes of a setup.
    pub fn of(setup: &Setup) -> Peers
        ensures { result ≡ peers_of setup.now }
    {
        Peers {
            clients: setup.clients,
            managers: setup.managers,
            servers: setup.servers,
        }
    }

    /// Whether there is such a node.
    pub fn has(self, node: NodeId) -> bool
        ensures { result ≡ has_node self node }
    {
        match node {
            NodeId::Client(number) => 1 <= number && number <= self.clients,
            NodeId::Manager(number) => 1 <= number && number <= self.managers,
            NodeId::Server(number) => 1 <= number && number <= self.servers,
            NodeId::Cleaner => true,
            NodeId::Registry => true,
        }
    }

    /// All nodes, in order.
    pub fn all(self, alloc: Global) -> Mem<List<NodeId>>
        ensures { IfOk result (λ nodes. nodes ≡ peers_all self) }
    {
        let mut nodes = List::new(alloc);
        add_clients(&mut nodes, self.clients)?;
        add_managers(&mut nodes, self.managers)?;
        add_servers(&mut nodes, self.servers)?;
        nodes.push(NodeId::Cleaner)?;
        nodes.push(NodeId::Registry)?;
        Ok(nodes)
    }

    /// All nodes but this one, in order.
    pub fn others(self, alloc: Global, node: NodeId) -> Mem<List<NodeId>>
        ensures { IfOk result (λ nodes. nodes ≡ others self node) }
    {
        let all = self.all(alloc)?;
        others_among(alloc, node, all.as_slice())
    }
}

// Those of these nodes that are others than this one.
fn others_among(alloc: Global, node: NodeId, all: &[NodeId]) -> Mem<List<NodeId>>
    ensures { IfOk result (λ nodes. nodes ≡ filter (is_other node) all.now) }
{
    let mut nodes = List::new(alloc);
    for other in all {
        if is_other(node, *other) {
            nodes.push(*other)?;
        }
    }
    Ok(nodes)
}

// Whether a node is another one.
fn is_other(node: NodeId, other: NodeId) -> bool
    ensures { result ≡ is_other node other }
{
    !other.is_same(node)
}

fn add_clients(nodes: &mut List<NodeId>, count: u8) -> Mem<()>
    ensures { OnOk result (nodes.new ≡ nodes.old ++ clients count) }
{
    for before in 0..count {
        nodes.push(NodeId::Client(before + 1))?;
    }
    Ok(())
}

fn add_managers(nodes: &mut List<NodeId>, count: u8) -> Mem<()>
    ensures { OnOk result (nodes.new ≡ nodes.old ++ managers count) }
{
    for before in 0..count {
        nodes.push(NodeId::Manager(before + 1))?;
    }
    Ok(())
}

fn add_servers(nodes: &mut List<NodeId>, count: u8) -> Mem<()>
    ensures { OnOk result (nodes.new ≡ nodes.old ++ servers count) }
{
    for before in 0..count {
        nodes.push(NodeId::Server(before + 1))?;
    }
    Ok(())
}
