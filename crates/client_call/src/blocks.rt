//! Calls on blocks: what they do to the tokens and to the cache, and what they say.
ghost use Rattle.std.specs.Prelude.{◌≡◌, ◌++◌, ◌∷◌, [], ◌==◌, ◌&&◌, if◌then◌else◌, is_none, length, IfOk, OnOk, None, Some};
ghost use Rattle.client_call.specs.Blocks.{value_of};
ghost use Rattle.coop_cache.specs.Transition.{cache_leave};
ghost use Rattle.file_plan.specs.declared.block_call.BlockAnswer.TheVariants.{Got, Synced as WasSynced};
ghost use Rattle.node_base.specs.declared.effects.Effect.TheVariants.{Does};
ghost use Rattle.token_client.specs.State.{held_of};
ghost use Rattle.token_client.specs.Transition.{on_wrote};
ghost use Rattle.version_model.specs.declared.act.Act.TheVariants.{Read, Synced};

use client_log::Log;
use coop_cache::Cache;
use file_plan::BlockAnswer;
use node_base::Effects;
use std::alloc::Global;
use token_client::{In, Tokens};
use version_model::Act;
use xfs_base::{BlockId, Mem, Value};

/// A block that is held is read: the answer.
pub fn read(
    alloc: Global,
    effects: &mut Effects,
    client: u8,
    tokens: &Tokens,
    block: BlockId,
) -> Mem<BlockAnswer>
    ensures effects { OnOk result
        (effects.new ≡ effects.old ++ Does (Read client block (held_of tokens.now.blocks block).ver (value_of (held_of tokens.now.blocks block))) ∷ []) }
    ensures answer { IfOk result (λ answer. answer ≡ Got (held_of tokens.now.blocks block).ver (value_of (held_of tokens.now.blocks block))) }
{
    let value = value_of(alloc, tokens, block)?;
    let ver = tokens.ver(block);
    match say_read(alloc, effects, client, block, ver, &value) {
        Ok(()) => Ok(BlockAnswer::Got(ver, value)),
        Err(error) => {
            drop(value);
            Err(error)
        }
    }
}

fn say_read(
    alloc: Global,
    effects: &mut Effects,
    client: u8,
    block: BlockId,
    ver: u64,
    value: &Value,
) -> Mem<()>
    ensures { OnOk result (effects.new ≡ effects.old ++ Does (Read client block ver value.now) ∷ []) }
{
    effects.act(Act::Read {
        client,
        block,
        ver,
        value: value.copy(alloc)?,
    })
}

// What a block reads as.
fn value_of(alloc: Global, tokens: &Tokens, block: BlockId) -> Mem<Value>
    ensures { IfOk result (λ value. value ≡ value_of (held_of tokens.now.blocks block)) }
{
    match tokens.value(block) {
        Some(value) => value.copy(alloc),
        None => Ok(Value::absent()),
    }
}

/// Whether a sync is answered.
pub fn synced(effects: &mut Effects, client: u8, settled: bool) -> Mem<Option<BlockAnswer>>
    ensures effects { OnOk result (effects.new ≡ effects.old ++ (if settled then Does (Synced client) ∷ [] else [])) }
    ensures answer { IfOk result (λ answer. answer ≡ (if settled then Some WasSynced else None)) }
{
    if !settled {
        return Ok(None);
    }
    effects.act(Act::Synced { client })?;
    Ok(Some(BlockAnswer::Synced))
}

/// Whether nothing waits to be written, and nothing is in flight.
pub fn is_settled(log: &Log) -> bool
    ensures { result ≡ (is_none log.now.flight && (length log.now.dirty == 0)) }
{
    log.is_settled()
}

/// A block has a new version, and is clean no more.
pub fn note_written(
    alloc: Global,
    tokens: &mut Tokens,
    cache: &mut Cache,
    block: BlockId,
    value: &Value,
) -> Mem<()>
    ensures tokens { OnOk result (tokens.new ≡ (on_wrote tokens.old block value.now).state) }
    ensures cache { OnOk result (cache.new ≡ cache_leave cache.old block) }
{
    let wrote = In::Wrote {
        block,
        value: value.copy(alloc)?,
    };
    drop(tokens.take(alloc, wrote)?);
    drop(cache.take(alloc, coop_cache::In::Dirty(block))?);
    Ok(())
}
