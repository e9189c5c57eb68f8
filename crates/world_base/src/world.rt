//! All nodes of a run, what they sent and what they did.
ghost use Rattle.std.specs.Prelude.{◌≡◌, ◌<◌, length, Some, IfOk, IfSome, OnOk};
ghost use Rattle.world_base.specs.Cluster.{HasNode, cluster_of};
ghost use Rattle.world_base.specs.NextWorld.{after_turn, clock_at, first_node, first_nodes, world_happen, happen_at, start_world, turn_of};
ghost use Rattle.node_base.specs.Setups.{IsSetup};

use crate::turn::{clock_after, note_all, send_all, set_clock, turn_of};
use crate::{Cluster, Member, items_of};
use script_text::Script;
use std::alloc::Global;
use version_model::Act;
use wire_msg::{Do, SharedPacket};
use xfs_base::{List, Mem, NodeId};

/// A world of nodes of a kind. What was sent stays in it: the network may bring a packet late, or once
/// more.
pub struct World<N> {
    /// Which nodes there are.
    pub cluster: Cluster,
    /// The nodes, in their order.
    pub nodes: List<N>,
    /// The clock of each node: greater than that of each packet that it took.
    pub clocks: List<u64>,
    /// All packets that were sent, in order, each with the clock of the event that sent it.
    pub sent: List<SharedPacket>,
    /// All that was done, in order.
    pub acts: List<Act>,
}

impl<N: Drop> Drop for World<N> {
    fn drop(self) {
        let World {
            cluster: _,
            nodes,
            clocks,
            sent,
            acts,
        } = self;
        drop(nodes);
        drop(clocks);
        drop(sent);
        drop(acts);
    }
}

/// The nodes before the first event of a script, in their order.
fn first_nodes<N: Member>(alloc: Global, cluster: Cluster, script: &Script) -> Mem<List<N>>
    requires setup { IsSetup script.now.setup }
    requires cluster { cluster ≡ cluster_of script.now.setup }
    ensures { IfOk result (λ nodes. nodes ≡ first_nodes N.first script.now cluster) }
{
    let mut nodes = List::new(alloc);
    for place in 0..cluster.count() {
        let node = first_node(alloc, script, cluster.node_at(place))?;
        nodes.push(node)?;
    }
    Ok(nodes)
}

/// A node before the first event of a script, with its items.
fn first_node<N: Member>(alloc: Global, script: &Script, node: NodeId) -> Mem<N>
    requires setup { IsSetup script.now.setup }
    requires node { HasNode script.now.setup node }
    ensures { IfOk result (λ started. started ≡ first_node N.first script.now node) }
{
    let items = items_of(alloc, script.lines.as_slice(), node)?;
    N::start(alloc, node, &script.setup, items)
}

impl<N: Member> World<N> {
    /// The world before the first event of a script.
    #[tactic(auto, unfolding(crate::specs::NextWorld::start_world))]
    pub fn start(alloc: Global, script: &Script) -> Mem<World<N>>
        requires { IsSetup script.now.setup }
        ensures { IfOk result (λ world. world ≡ start_world N.first script.now) }
    {
        let cluster = Cluster::of(&script.setup);
        let nodes = first_nodes(alloc, cluster, script)?;
        let clocks = List::from_vec(vec![in alloc; 0; cluster.count()]?);
        Ok(World {
            cluster,
            nodes,
            clocks,
            sent: List::new(alloc),
            acts: List::new(alloc),
        })
    }

    /// The node at a place has its turn at this clock.
    fn turn(&mut self, alloc: Global, place: usize, clock: u64, what: &Do) -> Mem<()>
        requires node { place < length self.old.nodes }
        requires clock { place < length self.old.clocks }
        ensures { OnOk result (self.new ≡ after_turn N.transition self.old place clock (turn_of N.transition self.old.nodes place what.now)) }
    {
        let (packets, acts) = turn_of(alloc, &mut self.nodes, place, what)?;
        send_all(alloc, &mut self.sent, clock, packets)?;
        note_all(&mut self.acts, acts)?;
        set_clock(&mut self.clocks, place, clock);
        Ok(())
    }

    /// The clock of an event of the node at a place; none where there is no such node.
    fn clock_at(&self, place: usize, what: &Do) -> Option<u64>
        ensures exact { result ≡ clock_at self.now place what.now }
        ensures within { IfSome result (λ clock. (place < length self.now.nodes) × (place < length self.now.clocks)) }
    {
        if place < self.nodes.len() && place < self.clocks.len() {
            clock_after(self.clocks.as_slice()[place], what)
        } else {
            None
        }
    }

    /// This happens to the node at a place; nothing does where there is none.
    #[tactic(auto, unfolding(crate::specs::NextWorld::happen_at))]
    pub fn happen_at(&mut self, alloc: Global, place: usize, what: &Do) -> Mem<()>
        ensures { OnOk result (self.new ≡ happen_at N.transition self.old place what.now) }
    {
        match self.clock_at(place, what) {
            None => Ok(()),
            Some(clock) => self.turn(alloc, place, clock, what),
        }
    }

    /// This happens to a node. Nothing changes where the run has no such node, or where the clock of the event
    /// would pass its end. Where memory is wanting the world is given up.
    #[tactic(auto, unfolding(crate::specs::NextWorld::world_happen))]
    pub fn happen(&mut self, alloc: Global, node: NodeId, what: &Do) -> Mem<()>
        ensures { OnOk result (self.new ≡ world_happen N.transition self.old node what.now) }
    {
        match self.cluster.place(node) {
            None => Ok(()),
            Some(place) => self.happen_at(alloc, place, what),
        }
    }
}
