//! A packet on its way.
ghost use Rattle.std.specs.Prelude.{◌≡◌, map, IfOk};
ghost use Rattle.world_base.specs.NextWorld.{sent_at};
ghost use Rattle.live_links.specs.Ends.{letters_of};

use std::alloc::{AllocError, Global};
use wire_msg::{Packet, SharedPacket};
use xfs_base::{Crosses, List, Mem};

/// A packet on a ring, with the place of its sender and its number among all that this sender sent. Whoever
/// takes it from the ring shares the packet: none is copied.
#[derive(Drop)]
pub struct Letter {
    /// The place of its sender.
    pub from: usize,
    /// Its number, from 0.
    pub number: u64,
    /// The packet.
    pub packet: SharedPacket,
}

impl Crosses for Letter {}

/// A packet that is sent at this clock, shared from now on.
fn shared_at(alloc: Global, clock: u64, packet: Packet) -> Mem<SharedPacket>
    ensures { IfOk result (λ shared. shared ≡ sent_at clock packet) }
{
    let mut packet = packet;
    packet.clock = clock;
    SharedPacket::of(alloc, packet)
}

/// The packets that a node sends at this clock, shared from now on.
pub(crate) fn shared_all(
    alloc: Global,
    clock: u64,
    packets: List<Packet>,
) -> Mem<List<SharedPacket>>
    ensures { IfOk result (λ shared. shared ≡ map (sent_at clock) packets) }
{
    let mut shared = List::new(alloc);
    for packet in packets.into_vec() {
        shared.push(shared_at(alloc, clock, packet)?)?;
    }
    Ok(shared)
}

/// The letters of packets, which are numbered from here on.
pub(crate) fn letters_of(
    alloc: Global,
    from: usize,
    number: u64,
    packets: &[SharedPacket],
) -> Mem<List<Letter>>
    ensures { IfOk result (λ letters. letters ≡ letters_of from number packets.now) }
{
    let mut letters = List::new(alloc);
    let mut next = number;
    for packet in packets {
        letters.push(Letter {
            from,
            number: next,
            packet: packet.copy(alloc)?,
        })?;
        next = next.checked_add(1).ok_or(AllocError)?;
    }
    Ok(letters)
}
