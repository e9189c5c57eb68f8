//! The nodes of a run, in their order.
ghost use Rattle.std.specs.Prelude.{◌≡◌, ◌<◌, ◌≤◌};
ghost use Rattle.world_base.specs.Cluster.{cluster_of, place_behind, first_manager, first_server, cleaner_place, node_count, place_of, node_at};

use xfs_base::{NodeId, Setup};

/// How many nodes of each kind a run has. There is one cleaner and one registry. The nodes stand in the
/// order of their names: clients, managers, servers, the cleaner, the registry.
#[derive(Clone, Copy, PartialEq, Eq)]
pub struct Cluster {
    /// How many clients, 1 to 8.
    pub clients: u8,
    /// How many managers, 1 to 4.
    pub managers: u8,
    /// How many storage servers, 3 to 12.
    pub servers: u8,
}

/// The place of the node of this number among so many of a kind, the first of which stands at `first`.
fn place_behind(first: usize, count: u8, number: u8) -> Option<usize>
    requires { first ≤ 1000 }
    ensures { result ≡ place_behind first count number }
{
    if number == 0 || number > count {
        return None;
    }
    Some(first + usize::from(number) - 1)
}

impl Cluster {
    /// The nodes that a setup names.
    pub fn of(setup: &Setup) -> Cluster
        ensures { result ≡ cluster_of setup.now }
    {
        Cluster {
            clients: setup.clients,
            managers: setup.managers,
            servers: setup.servers,
        }
    }

    fn first_manager(self) -> usize
        ensures { result ≡ first_manager self }
    {
        usize::from(self.clients)
    }

    fn first_server(self) -> usize
        ensures { result ≡ first_server self }
    {
        self.first_manager() + usize::from(self.managers)
    }

    fn cleaner(self) -> usize
        ensures { result ≡ cleaner_place self }
    {
        self.first_server() + usize::from(self.servers)
    }

    /// How many nodes there are.
    pub fn count(self) -> usize
        ensures { result ≡ node_count self }
    {
        self.cleaner() + 2
    }

    /// The place of a node in the order of nodes, from 0; none where the run has no such node.
    pub fn place(self, node: NodeId) -> Option<usize>
        ensures { result ≡ place_of self node }
    {
        match node {
            NodeId::Client(number) => place_behind(0, self.clients, number),
            NodeId::Manager(number) => place_behind(self.first_manager(), self.managers, number),
            NodeId::Server(number) => place_behind(self.first_server(), self.servers, number),
            NodeId::Cleaner => Some(self.cleaner()),
            NodeId::Registry => Some(self.cleaner() + 1),
        }
    }

    /// The node at a place below `count`.
    pub fn node_at(self, place: usize) -> NodeId
        requires { place < node_count self }
        ensures { result ≡ node_at self place }
    {
        if place < self.first_manager() {
            return NodeId::Client(place as u8 + 1);
        }
        if place < self.first_server() {
            return NodeId::Manager((place - self.first_manager()) as u8 + 1);
        }
        if place < self.cleaner() {
            return NodeId::Server((place - self.first_server()) as u8 + 1);
        }
        if place == self.cleaner() {
            NodeId::Cleaner
        } else {
            NodeId::Registry
        }
    }
}
