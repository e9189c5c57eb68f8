//! What a caller of a run hands in to watch it.
use crate::NodeId;

/// A read or a write of the outside failed.
#[derive(Clone, Copy, PartialEq, Eq)]
pub struct Failed;

/// Watches the workers of a run with threads.
pub trait Gate: Sync {
    /// Is called after a worker has got a node's lock, before the node's turn.
    fn enter(&self, node: NodeId);

    /// Is called after the node's turn, before the worker gives the lock back.
    fn leave(&self, node: NodeId);

    /// Is called after an application has made a call at a client, numbered from 1.
    fn called(&self, _client: u8) {}
}

/// A gate that lets every worker pass.
#[derive(Clone, Copy)]
pub struct OpenGate;

impl Gate for OpenGate {
    fn enter(&self, _node: NodeId) {}

    fn leave(&self, _node: NodeId) {}
}
