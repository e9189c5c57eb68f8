//! A node of any kind.
ghost use Rattle.std.specs.Prelude.{◌≡◌};
ghost use Rattle.core_world.specs.Serving.{is_serving};

use cleaner_node::Cleaner;
use client_node::Client;
use manager_node::Manager;
use registry_node::RegistryNode;
use std::alloc::Global;
use store_nodes::Server;
use version_model::{Act, Work};
use wire_msg::{Actor, Do, Packet};
use world_base::Member;
use xfs_base::{List, Mem, NodeId, Setup};

/// A node of any kind.
pub enum AnyNode {
    /// Caches blocks and appends to a log of its own.
    Client(Client),
    /// Keeps the index of its slots and decides who may write.
    Manager(Manager),
    /// Keeps fragments of stripes.
    Server(Server),
    /// Empties old segments.
    Cleaner(Cleaner),
    /// Gives out the maps.
    Registry(RegistryNode),
}

impl Drop for AnyNode {
    fn drop(self) {
        match self {
            AnyNode::Client(part) => drop(part),
            AnyNode::Manager(part) => drop(part),
            AnyNode::Server(part) => drop(part),
            AnyNode::Cleaner(part) => drop(part),
            AnyNode::Registry(part) => drop(part),
        }
    }
}

impl AnyNode {
    /// Whether it serves: a client, a manager or the cleaner doesn't while it is down or starts again.
    pub fn is_serving(&self) -> bool
        ensures { result ≡ is_serving self.now }
    {
        match self {
            AnyNode::Client(node) => node.is_serving(),
            AnyNode::Manager(node) => node.is_serving(),
            AnyNode::Server(_) => true,
            AnyNode::Cleaner(node) => node.is_serving(),
            AnyNode::Registry(_) => true,
        }
    }
}

impl Actor for AnyNode {
    ghost use Rattle.core_world.specs.AnyNode.{any_step};
    ghost use Rattle.core_world.specs.Clocks.{any_sends_clock_0};

    ghost transition = { any_step };

    fn step(&mut self, alloc: Global, what: &Do) -> Mem<(List<Packet>, List<Act>)> {
        match self {
            AnyNode::Client(node) => node.step(alloc, what),
            AnyNode::Manager(node) => node.step(alloc, what),
            AnyNode::Server(node) => node.step(alloc, what),
            AnyNode::Cleaner(node) => node.step(alloc, what),
            AnyNode::Registry(node) => node.step(alloc, what),
        }
    }

    ghost no_clock = { any_sends_clock_0 };
}

impl Member for AnyNode {
    ghost use Rattle.core_world.specs.AnyNode.{any_start};

    ghost first = { any_start };

    fn start(alloc: Global, node: NodeId, setup: &Setup, items: List<Work>) -> Mem<AnyNode> {
        match node {
            NodeId::Client(number) => Ok(AnyNode::Client(Client::start(
                alloc, number, setup, items,
            )?)),
            NodeId::Manager(number) => Ok(AnyNode::Manager(Manager::start(
                alloc, number, setup, items,
            )?)),
            NodeId::Server(number) => Ok(AnyNode::Server(Server::start(
                alloc, number, setup, items,
            )?)),
            NodeId::Cleaner => Ok(AnyNode::Cleaner(Cleaner::start(alloc, 0, setup, items)?)),
            NodeId::Registry => Ok(AnyNode::Registry(RegistryNode::start(alloc, 0, setup, items)?)),
        }
    }
}
