//! What managers and other clients say of a block.
ghost use Rattle.std.specs.Prelude.{◌≡◌, ◌++◌, ◌==◌, ◌&&◌, OnOk, option_map};
ghost use Rattle.std.specs.List.{flat_map};
ghost use Rattle.client_serving.specs.Grants.{is_stamp, is_want, send_supply};
ghost use Rattle.client_serving.specs.Packets.{again, on_gone, on_grant, on_recall, on_supply};
ghost use Rattle.token_client.specs.State.{epoch_of, held_of};
ghost use Rattle.token_client.specs.Transition.{on_forwarded};
ghost use Rattle.xfs_base.specs.Blocks.{slot_of};

use crate::Serving;
use crate::reads::lose;
use crate::sends::say_gave;
use node_base::{Effects, has_long_room};
use std::alloc::Global;
use token_client::{In, Out, Tokens};
use wire_msg::{Body, Forward, Gave, Gone, Grant, Recall, Supply};
use xfs_base::{List, Mem, NodeId, Stamp};

impl Serving {
    /// A manager grants a block. One whose version has no room for a write is not taken.
    #[tactic(auto, unfolding(crate::specs::Packets::on_grant))]
    pub(crate) fn on_grant(&mut self, alloc: Global, effects: &mut Effects, grant: Grant) -> Mem<()>
        ensures state { OnOk result (self.new ≡ (on_grant self.old grant).state) }
        ensures effects { OnOk result (effects.new ≡ effects.old ++ (on_grant self.old grant).outs) }
    {
        if grant.mode.is_own() && !has_long_room(grant.entry.ver) {
            return Ok(());
        }
        let input = In::Granted {
            block: grant.block,
            stamp: grant.stamp,
            inc: grant.inc,
            req: grant.req,
            mode: grant.mode,
            entry: grant.entry,
        };
        self.hand(alloc, effects, input)
    }

    /// Another client supplies a block.
    #[tactic(auto, unfolding(crate::specs::Packets::on_supply))]
    pub(crate) fn on_supply(
        &mut self,
        alloc: Global,
        effects: &mut Effects,
        supply: &Supply,
    ) -> Mem<()>
        ensures state { OnOk result (self.new ≡ (on_supply self.old supply.now).state) }
        ensures effects { OnOk result (effects.new ≡ effects.old ++ (on_supply self.old supply.now).outs) }
    {
        let input = In::Supplied {
            block: supply.block,
            stamp: supply.stamp,
            inc: supply.inc,
            req: supply.req,
            ver: supply.ver,
            value: supply.value.copy(alloc)?,
        };
        self.hand(alloc, effects, input)
    }

    /// A manager takes a block back. One that was given up before is said to be so again.
    #[tactic(auto, unfolding(crate::specs::Packets::on_recall))]
    pub(crate) fn on_recall(
        &mut self,
        alloc: Global,
        effects: &mut Effects,
        recall: Recall,
    ) -> Mem<()>
        ensures state { OnOk result (self.new ≡ (on_recall self.old recall).state) }
        ensures effects { OnOk result (effects.new ≡ effects.old ++ (on_recall self.old recall).outs) }
    {
        let Recall { block, stamp, keep } = recall;
        if !is_stamp(self.tokens.stamp(block), stamp) {
            return self.take_back(alloc, effects, block, stamp, keep);
        }
        let input = In::Recalled { block, stamp, keep };
        let outs = self.tokens.take(alloc, input)?;
        self.say_again(effects, recall, outs.as_slice())
    }

    // A recall that the tokens answer again is answered so.
    fn say_again(&self, effects: &mut Effects, recall: Recall, outs: &[Out]) -> Mem<()>
        ensures { OnOk result (effects.new ≡ effects.old ++ again self.now recall outs.now) }
    {
        if outs.is_empty() {
            return Ok(());
        }
        let gave = Gave {
            block: recall.block,
            stamp: recall.stamp,
            end: self.log.end().seq,
        };
        say_gave(effects, self.managers, gave)
    }

    /// A manager can't serve the block: its slot's index is lost.
    #[tactic(auto, unfolding(crate::specs::Packets::on_gone, crate::specs::Reads::loses))]
    pub(crate) fn on_gone(&mut self, alloc: Global, effects: &mut Effects, gone: Gone) -> Mem<()>
        ensures state { OnOk result (self.new ≡ (on_gone self.old gone).state) }
        ensures effects { OnOk result (effects.new ≡ effects.old ++ (on_gone self.old gone).outs) }
    {
        if !is_gone(&self.tokens, self.lasting.inc, gone) {
            return Ok(());
        }
        lose(
            alloc,
            effects,
            &mut self.lasting,
            &mut self.call,
            &mut self.tokens,
            gone.block,
            gone.seg,
        )
    }
}

/// A manager has a block supplied to another client.
pub(crate) fn forward(
    alloc: Global,
    effects: &mut Effects,
    tokens: &mut Tokens,
    forward: Forward,
) -> Mem<()>
    ensures tokens { OnOk result (tokens.new ≡ (on_forwarded tokens.old forward.block forward.stamp forward.ver).state) }
    ensures effects { OnOk result
        (effects.new ≡ effects.old ++ flat_map (send_supply forward) (on_forwarded tokens.old forward.block forward.stamp forward.ver).outs) }
{
    let input = In::Forwarded {
        block: forward.block,
        stamp: forward.stamp,
        ver: forward.ver,
    };
    let outs = tokens.take(alloc, input)?;
    send_supplies(effects, forward, outs)
}

fn send_supplies(effects: &mut Effects, forward: Forward, outs: List<Out>) -> Mem<()>
    ensures { OnOk result (effects.new ≡ effects.old ++ flat_map (send_supply forward) outs) }
{
    for out in outs.into_vec() {
        send_supply(effects, forward, out)?;
    }
    Ok(())
}

fn send_supply(effects: &mut Effects, forward: Forward, out: Out) -> Mem<()>
    ensures { OnOk result (effects.new ≡ effects.old ++ send_supply forward out) }
{
    let Out::Supply { block, ver, value } = out else {
        return Ok(());
    };
    let supply = Supply {
        block,
        stamp: forward.stamp,
        inc: forward.inc,
        req: forward.req,
        ver,
        value,
    };
    effects.send(NodeId::Client(forward.to), Body::Supply(supply))
}

// Whether it is the open want that can't be served, in the promised epoch.
fn is_gone(tokens: &Tokens, inc: u32, gone: Gone) -> bool
    ensures { result ≡ ((epoch_of tokens.now.epochs (slot_of gone.block.ino.0) == gone.epoch)
        && ((gone.inc == inc) && is_want (option_map (λ want. want.req) (held_of tokens.now.blocks gone.block).want) gone.req)) }
{
    tokens.promised(gone.block.ino.slot()) == gone.epoch
        && gone.inc == inc
        && is_want(tokens.want(gone.block), gone.req)
}

fn is_want(want: Option<u32>, req: u32) -> bool
    ensures { result ≡ is_want want req }
{
    match want {
        Some(asked) => asked == req,
        None => false,
    }
}

// Whether these are the same stamp.
fn is_stamp(a: Stamp, b: Stamp) -> bool
    ensures { result ≡ is_stamp a b }
{
    a.epoch == b.epoch && a.turn == b.turn
}
