//! What a scan has its node send, and how it ends.
ghost use Rattle.std.specs.Prelude.{◌≡◌, ◌++◌, ◌∷◌, [], IfOk, OnOk, Some};
ghost use Rattle.log_owner.specs.Opening.{sent_send, scanned};
ghost use Rattle.log_owner.specs.Sending.{fetch, owner_fence, fence};
ghost use Rattle.xfs_base.specs.Steps.{steps};

use crate::sending::send_hello;
use log_scan::Out;
use node_base::{Asked, Effects, Questions};
use segment_format::Segment;
use std::mem;
use wire_msg::{Body, Fence, Fetch};
use xfs_base::{End, List, LogId, Mem, NodeId, Pass, SegName};

/// The segments behind which a log goes on.
#[derive(Drop)]
pub(crate) struct Chain {
    /// The segments, in rising order.
    pub segments: List<Segment>,
    /// Where the log goes on.
    pub end: End,
    /// The horizon of the log.
    pub low: u32,
}

/// How a scan ends.
#[derive(Drop)]
pub(crate) enum Ended {
    /// With segments behind which the log goes on.
    Found(Chain),
    /// With a segment that is lost.
    Lost(SegName),
}

/// The owner of a log, in one of its incarnations.
#[derive(Clone, Copy, PartialEq, Eq)]
pub struct Owner {
    /// The log.
    pub log: LogId,
    /// The incarnation.
    pub inc: u32,
}

impl Owner {
    /// The pass below which a server takes nothing more of the log.
    pub fn fence(self) -> Pass
        ensures { result ≡ owner_fence self.inc }
    {
        Pass {
            inc: self.inc,
            att: 0,
        }
    }
}

/// What sending what a scan says leaves.
#[derive(Drop)]
pub(crate) struct Sent {
    /// The question that is out.
    pub asked: Asked,
    /// The questions of the node.
    pub questions: Questions,
    /// How the scan ends, where it does.
    pub ended: Option<Ended>,
}

impl Sent {
    #[tactic(auto, unfolding(crate::specs::Opening::sent_send))]
    fn send(&mut self, effects: &mut Effects, owner: Owner, low: u32, out: Out) -> Mem<()>
        ensures state { OnOk result (self.new ≡ (sent_send owner low self.old out).state) }
        ensures effects { OnOk result (effects.new ≡ effects.old ++ (sent_send owner low self.old out).outs) }
    {
        match out {
            Out::Hello { ask } => {
                let ask = self.asked.number(&mut self.questions, ask);
                send_hello(effects, owner.inc, ask)
            }
            Out::Fence { server } => send_fence(effects, owner, server),
            Out::Fetch { server, name, ask } => {
                let ask = self.asked.number(&mut self.questions, ask);
                send_fetch(effects, server, name, ask)
            }
            Out::Chain { segments, end, .. } => {
                self.end(Ended::Found(Chain { segments, end, low }));
                Ok(())
            }
            Out::Lost { name } => {
                self.end(Ended::Lost(name));
                Ok(())
            }
        }
    }

    // The scan ends so.
    fn end(&mut self, ended: Ended)
        ensures { self.new ≡ record self.old { ended = Some ended } }
    {
        drop(mem::replace(&mut self.ended, Some(ended)));
    }
}

/// Sends what a scan says, in order. Its horizon is `low`.
pub(crate) fn send_scanned(
    effects: &mut Effects,
    owner: Owner,
    low: u32,
    asked: Asked,
    questions: Questions,
    outs: List<Out>,
) -> Mem<Sent>
    ensures sent { IfOk result (λ sent. sent ≡ (scanned owner low asked questions outs).state) }
    ensures effects { OnOk result (effects.new ≡ effects.old ++ (scanned owner low asked questions outs).outs) }
{
    let mut sent = Sent {
        asked,
        questions,
        ended: None,
    };
    match send_outs(effects, owner, low, &mut sent, outs) {
        Ok(()) => Ok(sent),
        Err(error) => {
            drop(sent);
            Err(error)
        }
    }
}

fn send_outs(
    effects: &mut Effects,
    owner: Owner,
    low: u32,
    sent: &mut Sent,
    outs: List<Out>,
) -> Mem<()>
    ensures state { OnOk result (sent.new ≡ (steps (sent_send owner low) sent.old outs).state) }
    ensures effects { OnOk result (effects.new ≡ effects.old ++ (steps (sent_send owner low) sent.old outs).outs) }
{
    for out in outs.into_vec() {
        sent.send(effects, owner, low, out)?;
    }
    Ok(())
}

fn send_fence(effects: &mut Effects, owner: Owner, server: u8) -> Mem<()>
    ensures { OnOk result (effects.new ≡ effects.old ++ fence owner server ∷ []) }
{
    let fence = Fence {
        log: owner.log,
        pass: owner.fence(),
    };
    effects.send(NodeId::Server(server), Body::Fence(fence))
}

/// Asks a server for its fragment of a segment.
pub fn send_fetch(effects: &mut Effects, server: u8, name: SegName, ask: u32) -> Mem<()>
    ensures { OnOk result (effects.new ≡ effects.old ++ fetch name ask server ∷ []) }
{
    effects.send(NodeId::Server(server), Body::Fetch(Fetch { name, ask }))
}
