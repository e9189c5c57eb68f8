//! A client that serves crashes: what it may lose.
ghost use Rattle.std.specs.Prelude.{◌≡◌, ◌++◌, ◌∷◌, [], map, IfOk, OnOk};
ghost use Rattle.client_node.specs.Crash.{fall_by, falls, flight_of, flown_version, version_in, version_of};
ghost use Rattle.token_client.specs.State.{dirty_in};

use client_log::Log;
use client_serving::Serving;
use node_base::Effects;
use segment_format::Item;
use std::alloc::Global;
use token_client::Tokens;
use version_model::{Act, Fall};
use xfs_base::{BlockId, List, Mem};

/// Acts what a crash may make of the blocks whose newest version isn't settled: each falls to its settled
/// version, or to the one that is in flight.
#[tactic(auto, unfolding(crate::specs::Crash::fall_of))]
pub(crate) fn fall(alloc: Global, effects: &mut Effects, serving: &Serving) -> Mem<()>
    ensures { OnOk result (effects.new ≡ effects.old ++ falls serving.now ∷ []) }
{
    let falls = falls(alloc, &serving.tokens, &serving.log)?;
    let flight = flight(&serving.log);
    effects.act(Act::Fell {
        client: serving.lasting.number,
        flight,
        falls,
    })
}

// What a crash may make of the blocks whose newest version isn't settled.
fn falls(alloc: Global, tokens: &Tokens, log: &Log) -> Mem<List<Fall>>
    ensures { IfOk result (λ falls. falls ≡ map (fall_by tokens.now log.now.flight) (dirty_in tokens.now.blocks)) }
{
    let dirty = tokens.dirty(alloc)?;
    let falls = falls_of(alloc, tokens, log, dirty.as_slice());
    drop(dirty);
    falls
}

// The segment in flight: its number, and the incarnation that writes it.
fn flight(log: &Log) -> Option<(u32, u32)>
    ensures { result ≡ flight_of log.now.flight }
{
    match log.flight() {
        Some(segment) => Some((segment.name.seq, segment.name.pass.inc)),
        None => None,
    }
}

fn falls_of(alloc: Global, tokens: &Tokens, log: &Log, blocks: &[BlockId]) -> Mem<List<Fall>>
    ensures { IfOk result (λ falls. falls ≡ map (fall_by tokens.now log.now.flight) blocks.now) }
{
    let mut falls = List::new(alloc);
    for block in blocks {
        falls.push(fall_of(tokens, log, *block))?;
    }
    Ok(falls)
}

fn fall_of(tokens: &Tokens, log: &Log, block: BlockId) -> Fall
    ensures { result ≡ fall_by tokens.now log.now.flight block }
{
    let low = tokens.settled(block);
    let high = flown_version(log, block, low);
    Fall { block, low, high }
}

// The version of a block that is in flight, or else this one.
fn flown_version(log: &Log, block: BlockId, low: u64) -> u64
    ensures { result ≡ flown_version log.now.flight block low }
{
    match log.flight() {
        Some(segment) => version_in(segment.items.as_slice(), block, low),
        None => low,
    }
}

// The version of a block among items, or else this one.
fn version_in(items: &[Item], block: BlockId, low: u64) -> u64
    ensures { result ≡ version_in block low items.now }
{
    for item in items {
        if let Some(ver) = version_of(block, item) {
            return ver;
        }
    }
    low
}

fn version_of(block: BlockId, item: &Item) -> Option<u64>
    ensures { result ≡ version_of block item.now }
{
    match item {
        Item::Delta {
            block: other,
            ver,
            ..
        } => {
            if block.is_same(*other) {
                Some(*ver)
            } else {
                None
            }
        }
        _ => None,
    }
}
