//! Reading a block from a log.
ghost use Rattle.std.specs.Prelude.{◌≡◌, ◌++◌, IfOk, OnOk, None, Some, map};
ghost use Rattle.client_call.specs.Reads.{block_read, set_reading, fetches, fetch_again, hear_reading, is_fetched, kept_while, reading_in, same_at, same_target, target_of, value_at};
ghost use Rattle.log_owner.specs.Sending.{fetch};

use crate::Call;
use group_map::GroupMap;
use log_owner::send_fetch;
use node_base::Effects;
use segment_format::{Item, Segment};
use segment_reading::{BlockAt, Next, Reading, Target};
use std::alloc::Global;
use std::mem;
use stripe_code::Told;
use token_client::Tokens;
use xfs_base::{BlockId, Mem, Place, SegName, Value};

/// A block at a place, as what is to be read.
pub fn target_of(block: BlockId, place: Place) -> Target
    ensures { result ≡ target_of block place }
{
    Target {
        seg: place.seg,
        block: Some(BlockAt {
            item: place.item,
            block,
        }),
    }
}

/// Whether the same is to be read.
pub fn same_target(a: Target, b: Target) -> bool
    ensures { result ≡ same_target a b }
{
    a.seg.name.is_same(b.seg.name) && a.seg.group == b.seg.group && same_at(a.block, b.block)
}

fn same_at(a: Option<BlockAt>, b: Option<BlockAt>) -> bool
    ensures { result ≡ same_at a b }
{
    match (a, b) {
        (None, None) => true,
        (None, Some(_)) | (Some(_), None) => false,
        (Some(a), Some(b)) => a.item == b.item && a.block.is_same(b.block),
    }
}

// A reading hears what a server tells; what its reader does next.
fn hear_reading(
    alloc: Global,
    reading: &mut Option<Reading>,
    groups: &Option<GroupMap>,
    ask: u32,
    server: u8,
    told: Told,
) -> Mem<Next>
    ensures reading { OnOk result (reading.new ≡ (hear_reading reading.old groups.now ask server told).reading) }
    ensures next { IfOk result (λ next. next ≡ (hear_reading reading.old groups.now ask server told).next) }
{
    match (reading, groups) {
        (Some(reading), Some(groups)) => reading.take(alloc, groups, ask, server, told),
        _ => {
            drop(told);
            Ok(Next::Wait)
        }
    }
}

// A reading, while the fetch that it is for is on.
fn kept_while(tokens: &Tokens, reading: Option<Reading>) -> Option<Reading>
    ensures { result ≡ kept_while tokens.now reading }
{
    let Some(reading) = reading else {
        return None;
    };
    if is_fetched(tokens, reading.target().block) {
        Some(reading)
    } else {
        drop(reading);
        None
    }
}

fn is_fetched(tokens: &Tokens, wanted: Option<BlockAt>) -> bool
    ensures { result ≡ is_fetched tokens.now wanted }
{
    match wanted {
        Some(wanted) => tokens.fetching(wanted.block).is_some(),
        None => false,
    }
}

// Asks the servers that have not answered.
fn send_fetches(alloc: Global, effects: &mut Effects, reading: &Reading) -> Mem<()>
    ensures { OnOk result (effects.new ≡ effects.old ++ fetches reading.now) }
{
    let servers = reading.unanswered(alloc)?;
    let name = reading.target().seg.name;
    send_each(effects, name, reading.ask(), servers.as_slice())
}

fn send_each(effects: &mut Effects, name: SegName, ask: u32, servers: &[u8]) -> Mem<()>
    ensures { OnOk result (effects.new ≡ effects.old ++ map (fetch name ask) servers.now) }
{
    for server in servers {
        send_fetch(effects, *server, name, ask)?;
    }
    Ok(())
}

/// The value of the Block at this place of a segment.
pub fn value_at(alloc: Global, segment: &Segment, item: u16) -> Mem<Value>
    ensures { IfOk result (λ value. value ≡ value_at segment.now item) }
{
    match segment.items.get(usize::from(item)) {
        Some(Item::Block { value, .. }) => value.copy(alloc),
        _ => Ok(Value::absent()),
    }
}

/// A reading ends with the fetch that it is for.
pub fn end_reading(tokens: &Tokens, call: &mut Option<Call>)
    ensures { call.new ≡ set_reading call.old (kept_while tokens.now (reading_in call.old)) }
{
    if let Some(call) = call {
        let reading = call.reading.take();
        drop(mem::replace(&mut call.reading, kept_while(tokens, reading)));
    }
}

/// Asks the servers again that have not answered.
pub fn fetch_again(alloc: Global, effects: &mut Effects, call: &Option<Call>) -> Mem<()>
    ensures { OnOk result (effects.new ≡ effects.old ++ fetch_again (reading_in call.now)) }
{
    let Some(call) = call else {
        return Ok(());
    };
    match &call.reading {
        Some(reading) => send_fetches(alloc, effects, reading),
        None => Ok(()),
    }
}

/// The reading of the open call is taken out of it.
pub fn take_reading(call: &mut Option<Call>) -> Option<Reading>
    ensures reading { result ≡ reading_in call.old }
    ensures call { call.new ≡ set_reading call.old None }
{
    match call {
        Some(call) => call.reading.take(),
        None => None,
    }
}

/// The servers are asked, and the call reads so.
pub fn ask_reading(
    alloc: Global,
    effects: &mut Effects,
    call: &mut Option<Call>,
    reading: Reading,
) -> Mem<()>
    ensures call { OnOk result (call.new ≡ set_reading call.old (Some reading)) }
    ensures effects { OnOk result (effects.new ≡ effects.old ++ fetches reading) }
{
    match send_fetches(alloc, effects, &reading) {
        Ok(()) => {
            set_reading(call, Some(reading));
            Ok(())
        }
        Err(error) => {
            drop(reading);
            Err(error)
        }
    }
}

/// The block of the reading of the open call.
pub fn block_read(call: &Option<Call>) -> Option<BlockAt>
    ensures { result ≡ block_read (reading_in call.now) }
{
    let Some(call) = call else {
        return None;
    };
    match &call.reading {
        Some(reading) => reading.target().block,
        None => None,
    }
}

/// The reading of the open call hears what a server tells; what its reader does next.
pub fn hear(
    alloc: Global,
    call: &mut Option<Call>,
    groups: &Option<GroupMap>,
    ask: u32,
    server: u8,
    told: Told,
) -> Mem<Next>
    ensures call { OnOk result (call.new ≡ set_reading call.old (hear_reading (reading_in call.old) groups.now ask server told).reading) }
    ensures next { IfOk result (λ next. next ≡ (hear_reading (reading_in call.old) groups.now ask server told).next) }
{
    match call {
        Some(call) => hear_reading(alloc, &mut call.reading, groups, ask, server, told),
        None => {
            drop(told);
            Ok(Next::Wait)
        }
    }
}

/// The open call reads so.
pub fn set_reading(call: &mut Option<Call>, reading: Option<Reading>)
    ensures { call.new ≡ set_reading call.old reading }
{
    match call {
        Some(call) => drop(mem::replace(&mut call.reading, reading)),
        None => drop(reading),
    }
}
