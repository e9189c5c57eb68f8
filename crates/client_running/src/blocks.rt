//! Calls on blocks.
ghost use Rattle.std.specs.Prelude.{◌≡◌, ◌++◌, IfOk, OnOk, true};
ghost use Rattle.client_running.specs.Blocks.{blocks_get, blocks_put, blocks_put_at, blocks_need, blocks_sync, blocks_change, blocks_let_go, blocks_make};
ghost use Rattle.client_serving.specs.Flights.{held_at};
ghost use Rattle.token_client.specs.Held.{may_write};

use client_call::blocks::{is_settled, note_written, read, synced};
use client_call::fitting::prove_put_fits;
use client_serving::Serving;
use file_plan::{BlockAnswer, BlockCall};
use node_base::Effects;
use std::alloc::Global;
use token_client::In;
use version_model::Act;
use xfs_base::{BlockId, Entry, Mem, Mode, Value};

/// Makes a call on blocks: its answer, or none where it must wait.
#[tactic(auto, unfolding(crate::specs::Blocks::blocks_make))]
pub(crate) fn make(
    alloc: Global,
    effects: &mut Effects,
    serving: &mut Serving,
    call: &BlockCall,
) -> Mem<Option<BlockAnswer>>
    ensures state { OnOk result (serving.new ≡ (blocks_make serving.old call.now).done.state) }
    ensures effects { OnOk result (effects.new ≡ effects.old ++ (blocks_make serving.old call.now).done.outs) }
    ensures answer { IfOk result (λ answer. answer ≡ (blocks_make serving.old call.now).answer) }
{
    match call {
        BlockCall::Get(block) => get(alloc, effects, serving, *block),
        BlockCall::Put(block, value) => put(alloc, effects, serving, *block, value),
        BlockCall::PutAt(block, ver, value) => {
            put_at(alloc, effects, serving, *block, *ver, value)
        }
        BlockCall::Sync => sync(alloc, effects, serving),
    }
}

#[tactic(auto, unfolding(crate::specs::Blocks::blocks_get))]
fn get(
    alloc: Global,
    effects: &mut Effects,
    serving: &mut Serving,
    block: BlockId,
) -> Mem<Option<BlockAnswer>>
    ensures state { OnOk result (serving.new ≡ (blocks_get serving.old block).done.state) }
    ensures effects { OnOk result (effects.new ≡ effects.old ++ (blocks_get serving.old block).done.outs) }
    ensures answer { IfOk result (λ answer. answer ≡ (blocks_get serving.old block).answer) }
{
    if serving.tokens.mode(block).is_nothing() {
        return need(alloc, effects, serving, block, Mode::Copy);
    }
    drop(serving.cache.take(alloc, coop_cache::In::Touch(block))?);
    let answer = read(
        alloc,
        effects,
        serving.lasting.number,
        &serving.tokens,
        block,
    )?;
    Ok(Some(answer))
}

#[tactic(auto, unfolding(crate::specs::Blocks::blocks_put))]
fn put(
    alloc: Global,
    effects: &mut Effects,
    serving: &mut Serving,
    block: BlockId,
    value: &Value,
) -> Mem<Option<BlockAnswer>>
    ensures state { OnOk result (serving.new ≡ (blocks_put serving.old block value.now).done.state) }
    ensures effects { OnOk result (effects.new ≡ effects.old ++ (blocks_put serving.old block value.now).done.outs) }
    ensures answer { IfOk result (λ answer. answer ≡ (blocks_put serving.old block value.now).answer) }
{
    if !serving.tokens.may_write(block) {
        return need(alloc, effects, serving, block, Mode::Own);
    }
    change(alloc, effects, serving, block, value)
}

#[tactic(auto, unfolding(crate::specs::Blocks::blocks_put_at))]
fn put_at(
    alloc: Global,
    effects: &mut Effects,
    serving: &mut Serving,
    block: BlockId,
    ver: u64,
    value: &Value,
) -> Mem<Option<BlockAnswer>>
    ensures state { OnOk result (serving.new ≡ (blocks_put_at serving.old block ver value.now).done.state) }
    ensures effects { OnOk result (effects.new ≡ effects.old ++ (blocks_put_at serving.old block ver value.now).done.outs) }
    ensures answer { IfOk result (λ answer. answer ≡ (blocks_put_at serving.old block ver value.now).answer) }
{
    if !serving.tokens.may_write(block) {
        return need(alloc, effects, serving, block, Mode::Own);
    }
    if serving.tokens.ver(block) == ver {
        return change(alloc, effects, serving, block, value);
    }
    let_go(alloc, serving, block)?;
    Ok(Some(BlockAnswer::Changed))
}

// The block is asked for, unless it is asked for already.
fn need(
    alloc: Global,
    effects: &mut Effects,
    serving: &mut Serving,
    block: BlockId,
    mode: Mode,
) -> Mem<Option<BlockAnswer>>
    ensures state { OnOk result (serving.new ≡ (blocks_need serving.old block mode).done.state) }
    ensures effects { OnOk result (effects.new ≡ effects.old ++ (blocks_need serving.old block mode).done.outs) }
    ensures answer { IfOk result (λ answer. answer ≡ (blocks_need serving.old block mode).answer) }
{
    serving.hand(alloc, effects, In::Need { block, mode })?;
    Ok(None)
}

#[tactic(auto, unfolding(crate::specs::Blocks::blocks_sync))]
fn sync(alloc: Global, effects: &mut Effects, serving: &mut Serving) -> Mem<Option<BlockAnswer>>
    ensures state { OnOk result (serving.new ≡ (blocks_sync serving.old).done.state) }
    ensures effects { OnOk result (effects.new ≡ effects.old ++ (blocks_sync serving.old).done.outs) }
    ensures answer { IfOk result (λ answer. answer ≡ (blocks_sync serving.old).answer) }
{
    serving.seal(alloc, effects)?;
    synced(effects, serving.lasting.number, is_settled(&serving.log))
}

// Writes a block that may be written. The lemma says that a segment can hold what is put, so it is never held back.
#[tactic(auto, unfolding(crate::specs::Blocks::blocks_change, crate::specs::Blocks::changes))]
fn change(
    alloc: Global,
    effects: &mut Effects,
    serving: &mut Serving,
    block: BlockId,
    value: &Value,
) -> Mem<Option<BlockAnswer>>
    requires { may_write (held_at serving.old block) ≡ true }
    ensures state { OnOk result (serving.new ≡ (blocks_change serving.old block value.now).done.state) }
    ensures effects { OnOk result (effects.new ≡ effects.old ++ (blocks_change serving.old block value.now).done.outs) }
    ensures answer { IfOk result (λ answer. answer ≡ (blocks_change serving.old block value.now).answer) }
{
    prove_put_fits(&serving.tokens, block, value);
    effects.act(Act::Wrote {
        client: serving.lasting.number,
        block,
        value: value.copy(alloc)?,
    })?;
    note_written(alloc, &mut serving.tokens, &mut serving.cache, block, value)?;
    let ver = serving.tokens.ver(block);
    let put = client_log::In::Put {
        block,
        entry: Entry {
            ver,
            hop: 0,
            place: None,
        },
        value: value.copy(alloc)?,
    };
    serving.write(alloc, effects, put)?;
    Ok(Some(BlockAnswer::Put(ver)))
}

// A block that was granted to be written, and wasn't, is let go: it has no value yet.
fn let_go(alloc: Global, serving: &mut Serving, block: BlockId) -> Mem<()>
    ensures { OnOk result (serving.new ≡ blocks_let_go serving.old block) }
{
    if !serving.tokens.value(block).is_none() {
        return Ok(());
    }
    drop(serving.tokens.take(alloc, In::Evict { block })?);
    serving.note_gone(alloc, block)
}
