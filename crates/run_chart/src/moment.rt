//! When packets were sent, and the tables by which the rows and the packets of a run are looked up by that.
ghost use Rattle.std.specs.Prelude.{◌≡◌, None, IfOk, OnOk};
ghost use Rattle.indexmap.specs.IndexMap.{Updates};
ghost use Rattle.run_chart.specs.Moments.{FindsRows, HasComing, HasEventToo, HasPacketToo, HasRowToo, is_there, moment_of, packets_at, row_found, same_moment};
ghost use Rattle.xfs_base.specs.Nodes.{kind_rank, number_of};

use crate::label::same_packet;
use crate::row::Row;
use indexmap::IndexMap;
use std::alloc::Global;
use wire_msg::{Packet, SharedPacket};
use world_base::Event;
use xfs_base::{List, Mem, NodeId};

/// A node at one of its clocks: so the packets were sent that bear both.
#[derive(Clone, Copy, PartialEq, Eq, Hash)]
pub struct Moment {
    /// The kind of the node, in the order of nodes.
    pub kind: u8,
    /// Its number among the nodes of its kind, 0 where there is one alone.
    pub number: u8,
    /// Its clock.
    pub clock: u64,
}

/// The kind of a node, in the order of nodes.
fn kind_rank(node: NodeId) -> u8
    ensures { result ≡ kind_rank node }
{
    match node {
        NodeId::Client(_) => 0,
        NodeId::Manager(_) => 1,
        NodeId::Server(_) => 2,
        NodeId::Cleaner => 3,
        NodeId::Registry => 4,
    }
}

/// The number of a node among those of its kind, 0 where there is one alone.
fn number_of(node: NodeId) -> u8
    ensures { result ≡ number_of node }
{
    match node {
        NodeId::Client(number) => number,
        NodeId::Manager(number) => number,
        NodeId::Server(number) => number,
        NodeId::Cleaner => 0,
        NodeId::Registry => 0,
    }
}

/// A node at a clock.
fn moment_of(node: NodeId, clock: u64) -> Moment
    ensures { result ≡ moment_of node clock }
{
    Moment {
        kind: kind_rank(node),
        number: number_of(node),
        clock,
    }
}

/// Of each moment the first row whose packets were sent at it.
#[derive(Drop)]
pub struct FirstRows {
    /// The places of these rows.
    pub rows: IndexMap<Moment, usize>,
}

impl FirstRows {
    /// A row is there too, at a place behind all others.
    fn note(&mut self, row: &Row, place: usize) -> Mem<()>
        ensures { OnOk result (HasRowToo self.old self.new row.now place) }
    {
        let moment = moment_of(row.node, row.clock);
        if self.rows.contains_key(&moment) {
            return Ok(());
        }
        self.rows.insert(moment, place)?;
        Ok(())
    }

    /// The table of these rows.
    pub fn of(alloc: Global, rows: &[Row]) -> Mem<FirstRows>
        ensures { IfOk result (λ table. FindsRows table rows.now) }
    {
        let mut table = FirstRows {
            rows: IndexMap::new(alloc),
        };
        for place in 0..rows.len() {
            table.note(&rows[place], place)?;
        }
        Ok(table)
    }

    /// The row in which a packet was sent, where there is one.
    pub fn find(&self, packet: &Packet) -> Option<usize>
        ensures { result ≡ row_found self.now packet.now }
    {
        let moment = moment_of(packet.from, packet.clock);
        match self.rows.get(&moment) {
            None => None,
            Some(row) => Some(*row),
        }
    }
}

/// The packets that come, by the moment at which they were sent.
#[derive(Drop)]
pub struct Comings {
    /// Those of each moment, in the order in which they come.
    pub packets: IndexMap<Moment, List<SharedPacket>>,
}

impl Comings {
    /// The packets of a moment leave.
    fn take(&mut self, alloc: Global, moment: Moment) -> List<SharedPacket>
        ensures packets { result ≡ packets_at self.old moment }
        ensures rest { Updates same_moment self.old.packets self.new.packets moment None }
    {
        match self.packets.swap_remove(&moment) {
            None => List::new(alloc),
            Some(packets) => packets,
        }
    }

    /// A packet comes too.
    fn note(&mut self, alloc: Global, packet: &SharedPacket) -> Mem<()>
        ensures { OnOk result (HasPacketToo self.old self.new packet.now) }
    {
        let said = packet.as_packet();
        let moment = moment_of(said.from, said.clock);
        let mut packets = self.take(alloc, moment);
        packets.push(packet.copy(alloc)?)?;
        drop(self.packets.insert(moment, packets)?);
        Ok(())
    }

    /// So does what comes by an event.
    fn note_event(&mut self, alloc: Global, event: &Event) -> Mem<()>
        ensures { OnOk result (HasEventToo self.old self.new event.now) }
    {
        match event {
            Event::Begin(_) => Ok(()),
            Event::Deliver(packet) => self.note(alloc, packet),
            Event::Tick(_) => Ok(()),
        }
    }

    /// What comes by these events.
    pub fn of(alloc: Global, events: &[Event]) -> Mem<Comings>
        ensures { IfOk result (λ table. HasComing table events.now) }
    {
        let mut table = Comings {
            packets: IndexMap::new(alloc),
        };
        for event in events {
            table.note_event(alloc, event)?;
        }
        Ok(table)
    }

    /// Whether a packet comes.
    pub fn has(&self, packet: &Packet) -> bool
        ensures { result ≡ is_there self.now packet.now }
    {
        let moment = moment_of(packet.from, packet.clock);
        match self.packets.get(&moment) {
            None => false,
            Some(packets) => packets
                .as_slice()
                .iter()
                .any(|other| same_packet(packet, other.as_packet())),
        }
    }
}
