//! What was merged so far.
ghost use Rattle.std.specs.Prelude.{◌≡◌, ◌++◌, ◌<◌, length, IfOk, OnOk};
ghost use Rattle.world_base.specs.Cluster.{node_count};
ghost use Rattle.journals.specs.Merged.{merged_add, none_merged, into_world};

use crate::Moment;
use std::alloc::Global;
use version_model::Act;
use wire_msg::SharedPacket;
use world_base::turn::{note_all, set_clock};
use world_base::{Cluster, Event, World};
use xfs_base::{List, Mem};

/// What happened to all nodes so far, in one order; and what a world is of without its nodes: which nodes there
/// are, the clock of each, what they sent, and what they did.
#[derive(Drop)]
pub(crate) struct Merged {
    pub(crate) cluster: Cluster,
    clocks: List<u64>,
    sent: List<SharedPacket>,
    acts: List<Act>,
    events: List<Event>,
}

/// Puts shared packets behind those that were sent.
fn keep_all(sent: &mut List<SharedPacket>, packets: List<SharedPacket>) -> Mem<()>
    ensures { OnOk result (sent.new ≡ sent.old ++ packets) }
{
    for packet in packets.into_vec() {
        sent.push(packet)?;
    }
    Ok(())
}

impl Merged {
    /// Nothing happened yet to the nodes of a run.
    pub(crate) fn none(alloc: Global, cluster: Cluster) -> Mem<Merged>
        ensures { IfOk result (λ merged. merged ≡ none_merged cluster) }
    {
        let clocks = List::from_vec(vec![in alloc; 0; cluster.count()]?);
        Ok(Merged {
            cluster,
            clocks,
            sent: List::new(alloc),
            acts: List::new(alloc),
            events: List::new(alloc),
        })
    }

    /// Adds a moment of the node at a place. Nothing of it is copied.
    pub(crate) fn add(&mut self, place: usize, moment: Moment) -> Mem<()>
        requires node { place < node_count self.old.cluster }
        requires clock { place < length self.old.clocks }
        ensures { OnOk result (self.new ≡ merged_add self.old place moment) }
    {
        let node = self.cluster.node_at(place);
        set_clock(&mut self.clocks, place, moment.clock);
        let (what, packets, acts) = moment.into_told();
        keep_all(&mut self.sent, packets)?;
        note_all(&mut self.acts, acts)?;
        self.events.push(Event::of(node, what))
    }

    /// What happened, and the world with these nodes in it. It takes no memory.
    pub(crate) fn into_world<N>(self, nodes: List<N>) -> (List<Event>, World<N>)
        ensures events { result.0 ≡ self.events }
        ensures world { result.1 ≡ into_world self nodes }
    {
        let Merged {
            cluster,
            clocks,
            sent,
            acts,
            events,
        } = self;
        let world = World {
            cluster,
            nodes,
            clocks,
            sent,
            acts,
        };
        (events, world)
    }
}
