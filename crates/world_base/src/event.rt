//! What happens at one moment of a run.
ghost use Rattle.std.specs.Prelude.{◌≡◌, IfOk};
ghost use Rattle.world_base.specs.Events.{event_of, node_of, what_of};

use std::alloc::Global;
use wire_msg::{Do, SharedPacket};
use xfs_base::{Copied, Crosses, Mem, NodeId};

/// What happens to one node at one moment.
pub enum Event {
    /// A node begins the next item of its list.
    Begin(NodeId),
    /// A packet comes to the node that it is for.
    Deliver(SharedPacket),
    /// Time passes at a node.
    Tick(NodeId),
}

impl Drop for Event {
    fn drop(self) {
        match self {
            Event::Begin(_) => {}
            Event::Deliver(part) => drop(part),
            Event::Tick(_) => {}
        }
    }
}

impl Event {
    /// That this happens to a node. It takes no memory.
    pub fn of(node: NodeId, what: Do) -> Event
        ensures { result ≡ event_of node what }
    {
        match what {
            Do::Begin => Event::Begin(node),
            Do::Deliver(packet) => Event::Deliver(packet),
            Do::Tick => Event::Tick(node),
        }
    }

    /// What happens, and to which node. It takes no memory.
    pub fn into_parts(self) -> (NodeId, Do)
        ensures node { result.0 ≡ node_of self }
        ensures what { result.1 ≡ what_of self }
    {
        match self {
            Event::Begin(node) => (node, Do::Begin),
            Event::Deliver(packet) => (packet.as_packet().to, Do::Deliver(packet)),
            Event::Tick(node) => (node, Do::Tick),
        }
    }

    /// The node to which it happens.
    pub fn node(&self) -> NodeId
        ensures { result ≡ node_of self.now }
    {
        match self {
            Event::Begin(node) => *node,
            Event::Deliver(packet) => packet.as_packet().to,
            Event::Tick(node) => *node,
        }
    }

    /// What happens to it.
    pub fn what(&self, alloc: Global) -> Mem<Do>
        ensures { IfOk result (λ what. what ≡ what_of self.now) }
    {
        match self {
            Event::Begin(_) => Ok(Do::Begin),
            Event::Deliver(packet) => Ok(Do::Deliver(packet.copy(alloc)?)),
            Event::Tick(_) => Ok(Do::Tick),
        }
    }

    /// An event equal to this one.
    pub fn copy(&self, alloc: Global) -> Mem<Event>
        ensures { IfOk result (λ copied. copied ≡ self.now) }
    {
        match self {
            Event::Begin(node) => Ok(Event::Begin(*node)),
            Event::Deliver(packet) => Ok(Event::Deliver(packet.copy(alloc)?)),
            Event::Tick(node) => Ok(Event::Tick(*node)),
        }
    }
}

impl Copied for Event {
    fn copied(&self, alloc: Global) -> Mem<Event> {
        self.copy(alloc)
    }
}

impl Crosses for Event {}
