//! What an event has a node do.
ghost use Rattle.std.specs.Prelude.{◌≡◌, ◌++◌, ◌∷◌, [], IfOk, OnOk};
ghost use Rattle.node_base.specs.declared.effects.Effect.TheVariants.{Send, Answer as Answers, Lose, Does};
ghost use Rattle.node_base.specs.Effects.{packets_of, acts_of, send_each, packet_of, act_of};
ghost use Rattle.node_base.specs.Nodes.{others};

use crate::Peers;
use std::alloc::Global;
use std::marker::Model;
use version_model::{Act, Answer};
use wire_msg::{Body, Packet};
use xfs_base::{List, Mem, NodeId, SegName};

/// One thing that an event has a node do.
#[derive(Drop)]
pub enum Effect {
    /// It sends a packet.
    Send {
        /// To whom.
        to: NodeId,
        /// What it says.
        body: Body,
    },
    /// It answers an item of its list.
    Answer {
        /// The number of the item.
        item: u32,
        /// The answer.
        answer: Answer,
    },
    /// It refuses a segment as lost.
    Lose(SegName),
    /// It acts.
    Does(Act),
}

/// What an event has a node do so far, in order. Contracts see the list.
pub struct Effects {
    list: List<Effect>,
}

impl Drop for Effects {
    fn drop(self) {
        let Effects { list } = self;
        drop(list);
    }
}

impl Model for Effects {
    ghost use Rattle.std.specs.Prelude as prelude;
    ghost use Rattle.node_base.specs.declared.effects.Effect.{Effect};

    ghost Value = { prelude.List Effect };

    ghost view = { λ e. e.list };
}

impl Effects {
    /// Nothing yet.
    pub fn new(alloc: Global) -> Effects
        ensures { result ≡ [] }
    {
        Effects {
            list: List::new(alloc),
        }
    }

    /// What of it the world sees of this node: the packets and the acts, each in order. Packets have clock 0:
    /// whoever runs the node sets their clocks.
    pub fn into_parts(self, alloc: Global, node: NodeId) -> Mem<(List<Packet>, List<Act>)>
        ensures packets { IfOk result (λ parts. parts.0 ≡ packets_of node self) }
        ensures acts { IfOk result (λ parts. parts.1 ≡ acts_of node self) }
    {
        if self.list.is_empty() {
            drop(self);
            return Ok((List::new(alloc), List::new(alloc)));
        }
        self.into_lists(alloc, node)
    }

    // The same, where there is something.
    fn into_lists(self, alloc: Global, node: NodeId) -> Mem<(List<Packet>, List<Act>)>
        ensures packets { IfOk result (λ parts. parts.0 ≡ packets_of node self) }
        ensures acts { IfOk result (λ parts. parts.1 ≡ acts_of node self) }
    {
        let Effects { list } = self;
        let mut packets = List::from_vec(Vec::with_capacity(alloc, list.len())?);
        let mut acts = List::new(alloc);
        for effect in list.into_vec() {
            add(&mut packets, &mut acts, node, effect)?;
        }
        Ok((packets, acts))
    }

    /// Sends a packet.
    pub fn send(&mut self, to: NodeId, body: Body) -> Mem<()>
        ensures { OnOk result (self.new ≡ self.old ++ Send to body ∷ []) }
    {
        self.list.push(Effect::Send { to, body })?;
        Ok(())
    }

    /// Sends the same to each of these nodes, in order.
    pub fn send_each(&mut self, alloc: Global, nodes: &[NodeId], body: &Body) -> Mem<()>
        ensures { OnOk result (self.new ≡ self.old ++ send_each nodes.now body.now) }
    {
        for node in nodes {
            self.send(*node, body.copy(alloc)?)?;
        }
        Ok(())
    }

    /// Sends the same to all nodes but this one, in order of nodes.
    pub fn send_others(&mut self, alloc: Global, node: NodeId, peers: Peers, body: &Body) -> Mem<()>
        ensures { OnOk result (self.new ≡ self.old ++ send_each (others peers node) body.now) }
    {
        let nodes = peers.others(alloc, node)?;
        self.send_each(alloc, nodes.as_slice(), body)
    }

    /// Acts.
    pub fn act(&mut self, act: Act) -> Mem<()>
        ensures { OnOk result (self.new ≡ self.old ++ Does act ∷ []) }
    {
        self.list.push(Effect::Does(act))?;
        Ok(())
    }

    /// Answers the item of this number.
    pub fn answer(&mut self, item: u32, answer: Answer) -> Mem<()>
        ensures { OnOk result (self.new ≡ self.old ++ Answers item answer ∷ []) }
    {
        self.list.push(Effect::Answer { item, answer })?;
        Ok(())
    }

    /// Refuses a segment as lost.
    pub fn lose(&mut self, seg: SegName) -> Mem<()>
        ensures { OnOk result (self.new ≡ self.old ++ Lose seg ∷ []) }
    {
        self.list.push(Effect::Lose(seg))?;
        Ok(())
    }
}

// What a node does is a packet or an act.
fn add(packets: &mut List<Packet>, acts: &mut List<Act>, node: NodeId, effect: Effect) -> Mem<()>
    ensures packets { OnOk result (packets.new ≡ packets.old ++ packet_of node effect) }
    ensures acts { OnOk result (acts.new ≡ acts.old ++ act_of node effect) }
{
    match effect {
        Effect::Send { to, body } => packets.push(Packet {
            from: node,
            to,
            clock: 0,
            body,
        })?,
        Effect::Answer { item, answer } => acts.push(Act::Answered { node, item, answer })?,
        Effect::Lose(seg) => acts.push(Act::Lost { node, seg })?,
        Effect::Does(act) => acts.push(act)?,
    }
    Ok(())
}
