//! A log that is sealed: what of it is sent to be stored, and what is settled of it.
ghost use Rattle.std.specs.Prelude.{◌≡◌, ◌++◌, OnOk};
ghost use Rattle.std.specs.List.{flat_map, list_any};
ghost use Rattle.client_log.specs.declared.input.In.TheVariants.{Acked};
ghost use Rattle.client_log.specs.Transition.{on_seal};
ghost use Rattle.delta_feed.specs.Transition.{settled};
ghost use Rattle.log_owner.specs.Opening.{stored};
ghost use Rattle.log_owner.specs.Sealing.{is_settling};

use crate::sending::send_store;
use client_log::{In, Log, Out};
use delta_feed::Feed;
use node_base::Effects;
use std::alloc::Global;
use wire_msg::Stored;
use xfs_base::{BlockId, Entry, List, Mem};

/// Seals a log, and sends what is to be stored.
pub fn seal(alloc: Global, effects: &mut Effects, log: &mut Log) -> Mem<()>
    ensures log { OnOk result (log.new ≡ (on_seal log.old).state) }
    ensures effects { OnOk result (effects.new ≡ effects.old ++ flat_map stored (on_seal log.old).outs) }
{
    let outs = log.take(alloc, In::Seal)?;
    send_sealed(effects, outs)
}

// Sends what is to be stored.
fn send_sealed(effects: &mut Effects, outs: List<Out>) -> Mem<()>
    ensures { OnOk result (effects.new ≡ effects.old ++ flat_map stored outs) }
{
    for out in outs.into_vec() {
        send_stored(effects, out)?;
    }
    Ok(())
}

fn send_stored(effects: &mut Effects, out: Out) -> Mem<()>
    ensures { OnOk result (effects.new ≡ effects.old ++ stored out) }
{
    match out {
        Out::Send { fragment, member } => send_store(effects, fragment, member),
        Out::Settled { .. } => Ok(()),
    }
}

/// A server holds a fragment of the segment in flight.
pub fn acked(stored: Stored) -> In
    ensures { result ≡ Acked stored.name stored.index stored.generation }
{
    In::Acked {
        name: stored.name,
        index: stored.index,
        generation: stored.generation,
    }
}

/// Whether a segment is settled by what a log says.
pub fn is_any_settling(outs: &[Out]) -> bool
    ensures { result ≡ list_any is_settling outs.now }
{
    outs.iter().any(|out| is_settling(out))
}

fn is_settling(out: &Out) -> bool
    ensures { result ≡ is_settling out.now }
{
    match out {
        Out::Send { .. } => false,
        Out::Settled { .. } => true,
    }
}

/// The feed takes what a segment says of blocks.
pub fn feed_rows(alloc: Global, feed: &mut Feed, seq: u32, rows: List<(BlockId, Entry)>) -> Mem<()>
    ensures { OnOk result (feed.new ≡ settled feed.old seq rows) }
{
    drop(feed.take(alloc, delta_feed::In::Settled { seq, rows })?);
    Ok(())
}
