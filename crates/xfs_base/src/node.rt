//! Names of nodes.
ghost use Rattle.std.specs.Prelude.{◌≡◌};
ghost use Rattle.xfs_base.specs.Logs.{log_of};
ghost use Rattle.xfs_base.specs.Nodes.{node_cmp, same_node};

use crate::LogId;
use crate::limits::{BLOCK_LOGS, MOST_MANAGERS};
use std::cmp::Ordering;

/// A node of the cluster. Nodes of one kind count from 1: at most 8 clients, 4 managers and 12 storage
/// servers; there is one cleaner and one registry. The order is clients, managers, servers, cleaner,
/// registry, each by number.
#[derive(Clone, Copy, PartialEq, Eq, PartialOrd, Ord)]
pub enum NodeId {
    /// Caches blocks and appends to a log of its own.
    Client(u8),
    /// Keeps the index of its slots and decides who may write.
    Manager(u8),
    /// Keeps fragments of stripes.
    Server(u8),
    /// Empties old segments.
    Cleaner,
    /// Gives out the maps.
    Registry,
}

impl NodeId {
    /// Where this node stands to another in the order of nodes.
    pub fn order(self, other: NodeId) -> Ordering
        ensures { result ≡ node_cmp self other }
    {
        self.cmp(&other)
    }

    /// The log that this node writes: a client's has the client's number, the cleaner's is the last of those
    /// that say where blocks lie, and a manager's stands behind it. Storage servers and the registry write
    /// none: 0.
    pub fn log(self) -> LogId
        ensures { result ≡ log_of self }
    {
        match self {
            NodeId::Client(number) => LogId(number),
            NodeId::Manager(number) => LogId(BLOCK_LOGS + number.min(MOST_MANAGERS)),
            NodeId::Server(_) | NodeId::Registry => LogId(0),
            NodeId::Cleaner => LogId(BLOCK_LOGS),
        }
    }

    /// Whether both name one node.
    pub fn is_same(self, other: NodeId) -> bool
        ensures { result ≡ same_node self other }
    {
        self.order(other).is_eq()
    }
}
