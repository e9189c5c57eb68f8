//! What a manager does for the clients and the cleaner in a slot.
ghost use Rattle.std.specs.Prelude.{◌≡◌, ◌++◌, OnOk};
ghost use Rattle.std.specs.List.{flat_map};
ghost use Rattle.manager_slots.specs.Tokens.{say_grant, say_forward, tokens_say, tokens_take, want_input, on_want, on_gave, on_deltas, tokens_answer, on_check, on_usage_ask, on_tick};

use crate::slot_phase::SlotPhase;
use node_base::Effects;
use slot_beliefs::Wanted;
use std::alloc::Global;
use token_manager::{In, Out};
use wire_msg::{
    Body, Check, Dead, DeltaAck, Deltas, Forward, Gave, Gone, Grant, Live, Recall, Shared, Usage,
    UsageAsk, Want,
};
use xfs_base::{LogId, Mem, NodeId};

/// A client wants a block.
#[tactic(auto, unfolding(crate::specs::Tokens::on_want))]
pub(crate) fn on_want(
    alloc: Global,
    effects: &mut Effects,
    phase: &mut SlotPhase,
    client: u8,
    want: Want,
) -> Mem<()>
    ensures state { OnOk result (phase.new ≡ (on_want phase.old client want).state) }
    ensures effects { OnOk result (effects.new ≡ effects.old ++ (on_want phase.old client want).outs) }
{
    match phase {
        SlotPhase::Broken { epoch, seg } => {
            let gone = Gone {
                block: want.block,
                epoch: *epoch,
                inc: want.inc,
                req: want.req,
                seg: *seg,
            };
            effects.send(NodeId::Client(client), Body::Gone(gone))
        }
        _ => {
            let input = want_input(client, want);
            take(alloc, effects, phase, want.block.ino.slot(), input)
        }
    }
}

fn want_input(client: u8, want: Want) -> In
    ensures { result ≡ want_input client want }
{
    In::Want {
        want: Wanted {
            client,
            block: want.block,
            inc: want.inc,
            req: want.req,
            again: want.again,
            mode: want.mode,
        },
        end: want.end,
    }
}

/// A client has given a block up.
pub(crate) fn on_gave(
    alloc: Global,
    effects: &mut Effects,
    phase: &mut SlotPhase,
    client: u8,
    gave: Gave,
) -> Mem<()>
    ensures state { OnOk result (phase.new ≡ (on_gave phase.old client gave).state) }
    ensures effects { OnOk result (effects.new ≡ effects.old ++ (on_gave phase.old client gave).outs) }
{
    let input = In::Gave {
        client,
        block: gave.block,
        stamp: gave.stamp,
        end: gave.end,
    };
    take(alloc, effects, phase, gave.block.ino.slot(), input)
}

/// A log tells what its segments say of the slot's blocks.
pub(crate) fn on_deltas(
    alloc: Global,
    effects: &mut Effects,
    phase: &mut SlotPhase,
    log: LogId,
    deltas: &Deltas,
) -> Mem<()>
    ensures state { OnOk result (phase.new ≡ (on_deltas phase.old log deltas.now).state) }
    ensures effects { OnOk result (effects.new ≡ effects.old ++ (on_deltas phase.old log deltas.now).outs) }
{
    let input = In::Deltas {
        log,
        first: deltas.first,
        upto: deltas.upto,
        rows: deltas.rows.copy(alloc)?,
    };
    take(alloc, effects, phase, deltas.slot, input)
}

/// The cleaner asks whether a block's newest version lies at a place.
#[tactic(auto, unfolding(crate::specs::Tokens::on_check))]
pub(crate) fn on_check(
    alloc: Global,
    effects: &mut Effects,
    phase: &mut SlotPhase,
    check: Check,
) -> Mem<()>
    ensures state { OnOk result (phase.new ≡ (on_check phase.old check).state) }
    ensures effects { OnOk result (effects.new ≡ effects.old ++ (on_check phase.old check).outs) }
{
    let SlotPhase::Active(active) = phase else {
        return Ok(());
    };
    let epoch = active.slot.epoch();
    let input = In::Check {
        block: check.block,
        place: check.place,
    };
    let outs = active.slot.take(alloc, input)?;
    answer_each(effects, check, epoch, outs.as_slice())
}

fn answer_each(effects: &mut Effects, check: Check, epoch: u32, outs: &[Out]) -> Mem<()>
    ensures { OnOk result (effects.new ≡ effects.old ++ flat_map (tokens_answer check epoch) outs.now) }
{
    for out in outs {
        answer(effects, check, epoch, *out)?;
    }
    Ok(())
}

// Whether the block's newest version lies at the place.
#[tactic(auto, unfolding(crate::specs::Tokens::tokens_answer))]
fn answer(effects: &mut Effects, check: Check, epoch: u32, out: Out) -> Mem<()>
    ensures { OnOk result (effects.new ≡ effects.old ++ tokens_answer check epoch out) }
{
    let Check { block, ask, .. } = check;
    let body = match out {
        Out::Live { entry } => Body::Live(Live {
            block,
            ask,
            epoch,
            entry,
        }),
        _ => Body::Dead(Dead { block, ask, epoch }),
    };
    effects.send(NodeId::Cleaner, body)
}

/// The cleaner asks how many live blocks each segment has.
#[tactic(auto, unfolding(crate::specs::Tokens::on_usage_ask))]
pub(crate) fn on_usage_ask(
    alloc: Global,
    effects: &mut Effects,
    phase: &SlotPhase,
    asked: UsageAsk,
) -> Mem<()>
    ensures { OnOk result (effects.new ≡ effects.old ++ on_usage_ask phase.now asked) }
{
    let SlotPhase::Active(active) = phase else {
        return Ok(());
    };
    let usage = Usage {
        slot: asked.slot,
        ask: asked.ask,
        epoch: active.slot.epoch(),
        counts: active.slot.usage(alloc)?,
    };
    effects.send(NodeId::Cleaner, Body::Usage(usage))
}

/// Time passes: recalls that aren't answered are sent again.
pub(crate) fn on_tick(
    alloc: Global,
    effects: &mut Effects,
    phase: &mut SlotPhase,
    slot: u8,
) -> Mem<()>
    ensures state { OnOk result (phase.new ≡ (on_tick phase.old slot).state) }
    ensures effects { OnOk result (effects.new ≡ effects.old ++ (on_tick phase.old slot).outs) }
{
    take(alloc, effects, phase, slot, In::Tick)
}

// A slot that is managed takes an input, and what it says is sent.
#[tactic(auto, unfolding(crate::specs::Tokens::tokens_take))]
fn take(
    alloc: Global,
    effects: &mut Effects,
    phase: &mut SlotPhase,
    number: u8,
    input: In,
) -> Mem<()>
    ensures state { OnOk result (phase.new ≡ (tokens_take phase.old number input).state) }
    ensures effects { OnOk result (effects.new ≡ effects.old ++ (tokens_take phase.old number input).outs) }
{
    let SlotPhase::Active(active) = phase else {
        drop(input);
        return Ok(());
    };
    let epoch = active.slot.epoch();
    let outs = active.slot.take(alloc, input)?;
    say_each(alloc, effects, number, epoch, outs.as_slice())
}

fn say_each(alloc: Global, effects: &mut Effects, slot: u8, epoch: u32, outs: &[Out]) -> Mem<()>
    ensures { OnOk result (effects.new ≡ effects.old ++ flat_map (tokens_say slot epoch) outs.now) }
{
    for out in outs {
        say(alloc, effects, slot, epoch, *out)?;
    }
    Ok(())
}

// What a slot says is sent. A check is answered where it is asked.
#[tactic(auto, unfolding(crate::specs::Tokens::tokens_say))]
fn say(alloc: Global, effects: &mut Effects, slot: u8, epoch: u32, out: Out) -> Mem<()>
    ensures { OnOk result (effects.new ≡ effects.old ++ tokens_say slot epoch out) }
{
    match out {
        Out::Grant { .. } => say_grant(alloc, effects, out),
        Out::Forward { .. } => say_forward(effects, out),
        Out::Recall {
            client,
            block,
            stamp,
            keep,
        } => {
            let recall = Recall { block, stamp, keep };
            effects.send(NodeId::Client(client), Body::Recall(recall))
        }
        Out::Applied { log, applied } => {
            let ack = DeltaAck {
                slot,
                epoch,
                applied,
            };
            effects.send(log.block_writer(), Body::DeltaAck(ack))
        }
        Out::Live { .. } | Out::Dead => Ok(()),
    }
}

fn say_grant(alloc: Global, effects: &mut Effects, out: Out) -> Mem<()>
    ensures { OnOk result (effects.new ≡ effects.old ++ say_grant out) }
{
    let Out::Grant {
        client,
        block,
        stamp,
        inc,
        req,
        mode,
        entry,
    } = out
    else {
        return Ok(());
    };
    let grant = Grant {
        block,
        stamp,
        inc,
        req,
        mode,
        entry,
    };
    effects.send(
        NodeId::Client(client),
        Body::Grant(Shared::of(alloc, grant)?),
    )
}

fn say_forward(effects: &mut Effects, out: Out) -> Mem<()>
    ensures { OnOk result (effects.new ≡ effects.old ++ say_forward out) }
{
    let Out::Forward {
        client,
        block,
        stamp,
        to,
        inc,
        req,
        ver,
    } = out
    else {
        return Ok(());
    };
    let forward = Forward {
        block,
        stamp,
        to,
        inc,
        req,
        ver,
    };
    effects.send(NodeId::Client(client), Body::Forward(forward))
}
