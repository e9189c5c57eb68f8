//! A packet that is shared and not copied.
ghost use Rattle.std.specs.Prelude.{◌≡◌, IfOk};

use crate::Packet;
use std::alloc::Global;
use std::marker::Model;
use std::sync::Arc;
use xfs_base::{Copied, Crosses, Mem};

/// A packet that never changes. Contracts see the packet. A copy shares it, so that a run keeps each packet
/// that was sent, and what came of it, at the cost of one.
pub struct SharedPacket {
    shared: Arc<Packet, Global>,
}

impl Drop for SharedPacket {
    fn drop(self) {
        let SharedPacket { shared } = self;
        drop(shared);
    }
}

impl Model for SharedPacket {
    ghost use Rattle.wire_msg.specs.declared.packet.Packet.{Packet};

    ghost Value = { Packet };

    ghost view = { λ s. s.shared.value };
}

impl SharedPacket {
    /// This packet, which is shared from now on.
    pub fn of(alloc: Global, packet: Packet) -> Mem<SharedPacket>
        ensures { IfOk result (λ made. made ≡ packet) }
    {
        Ok(SharedPacket {
            shared: Arc::new(alloc, packet)?,
        })
    }

    /// The packet.
    pub fn as_packet(&self) -> &Packet
        ensures { result.now ≡ self.now }
    {
        &self.shared
    }

    /// The same packet, shared.
    pub fn copy(&self, _alloc: Global) -> Mem<SharedPacket>
        ensures { IfOk result (λ copied. copied ≡ self.now) }
    {
        Ok(SharedPacket {
            shared: self.shared.clone()?,
        })
    }
}

impl Copied for SharedPacket {
    fn copied(&self, alloc: Global) -> Mem<SharedPacket> {
        self.copy(alloc)
    }
}

impl Crosses for SharedPacket {}
