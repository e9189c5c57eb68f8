//! Packets, and what happens to a node.
ghost use Rattle.std.specs.Prelude.{◌≡◌, IfOk};

use crate::{Body, SharedPacket};
use std::alloc::Global;
use xfs_base::{Copied, Crosses, Mem, NodeId};

/// What one node says to another. The network may lose a packet, bring it late, twice or out of order.
pub struct Packet {
    /// Who sent it.
    pub from: NodeId,
    /// For whom it is.
    pub to: NodeId,
    /// The sender's count of events where nodes run in threads, by which their journals are put in order;
    /// a step gives 0.
    pub clock: u64,
    /// What it says.
    pub body: Body,
}

impl Drop for Packet {
    fn drop(self) {
        let Packet {
            from: _,
            to: _,
            clock: _,
            body,
        } = self;
        drop(body);
    }
}

/// What happens to a node.
#[derive(Drop)]
pub enum Do {
    /// The node begins the next item of its list.
    Begin,
    /// A packet comes.
    Deliver(SharedPacket),
    /// Time passes: what waits for an answer is said again.
    Tick,
}

impl Packet {
    /// A packet equal to this one.
    pub fn copy(&self, alloc: Global) -> Mem<Packet>
        ensures { IfOk result (λ copied. copied ≡ self.now) }
    {
        Ok(Packet {
            from: self.from,
            to: self.to,
            clock: self.clock,
            body: self.body.copy(alloc)?,
        })
    }
}

impl Do {
    /// An event equal to this one.
    pub fn copy(&self, alloc: Global) -> Mem<Do>
        ensures { IfOk result (λ copied. copied ≡ self.now) }
    {
        match self {
            Do::Begin => Ok(Do::Begin),
            Do::Deliver(packet) => Ok(Do::Deliver(packet.copy(alloc)?)),
            Do::Tick => Ok(Do::Tick),
        }
    }
}

impl Copied for Packet {
    fn copied(&self, alloc: Global) -> Mem<Packet> {
        self.copy(alloc)
    }
}

impl Copied for Do {
    fn copied(&self, alloc: Global) -> Mem<Do> {
        self.copy(alloc)
    }
}

impl Crosses for Packet {}

impl Crosses for Do {}
