//! What the log of an owner and the feed of its deltas have it send.
ghost use Rattle.std.specs.Prelude.{◌≡◌, ◌++◌, ◌∷◌, [], OnOk, map};
ghost use Rattle.log_owner.specs.Sending.{hello, store, range, sending_push, push_all};

use crate::Managers;
use delta_feed::{Feed, In, Out};
use group_map::Member;
use node_base::Effects;
use std::alloc::Global;
use wire_msg::{Body, Deltas, Hello, Store};
use xfs_base::{Fragment, List, Mem, NodeId};

/// Asks the registry for the maps, under this question.
pub fn send_hello(effects: &mut Effects, inc: u32, ask: u32) -> Mem<()>
    ensures { OnOk result (effects.new ≡ effects.old ++ hello inc ask ∷ []) }
{
    effects.send(NodeId::Registry, Body::Hello(Hello { inc, ask }))
}

/// Sends a fragment to the member's server, to be stored at the member's generation.
pub fn send_store(effects: &mut Effects, fragment: Fragment, member: Member) -> Mem<()>
    ensures { OnOk result (effects.new ≡ effects.old ++ store fragment member ∷ []) }
{
    effects.send(
        NodeId::Server(member.server),
        Body::Store(Store {
            fragment,
            generation: member.generation,
        }),
    )
}

/// Sends a slot's manager what it has not acknowledged of the log, if there is anything. The feed stays as
/// it is.
pub fn push(
    alloc: Global,
    effects: &mut Effects,
    feed: &mut Feed,
    managers: Managers,
    slot: u8,
) -> Mem<()>
    ensures feed { OnOk result (feed.new ≡ feed.old) }
    ensures effects { OnOk result (effects.new ≡ effects.old ++ sending_push managers feed.old slot) }
{
    let outs = feed.take(alloc, In::Push { slot })?;
    send_ranges(effects, managers, outs)
}

/// Sends each slot's manager, in order of slots, what it has not acknowledged of the log. The feed stays as
/// it is.
pub fn push_all(
    alloc: Global,
    effects: &mut Effects,
    feed: &mut Feed,
    managers: Managers,
) -> Mem<()>
    ensures feed { OnOk result (feed.new ≡ feed.old) }
    ensures effects { OnOk result (effects.new ≡ effects.old ++ push_all managers feed.old) }
{
    let outs = feed.take(alloc, In::Tick)?;
    send_ranges(effects, managers, outs)
}

fn send_ranges(effects: &mut Effects, managers: Managers, outs: List<Out>) -> Mem<()>
    ensures { OnOk result (effects.new ≡ effects.old ++ map (range managers) outs) }
{
    for out in outs.into_vec() {
        send_range(effects, managers, out)?;
    }
    Ok(())
}

fn send_range(effects: &mut Effects, managers: Managers, out: Out) -> Mem<()>
    ensures { OnOk result (effects.new ≡ effects.old ++ range managers out ∷ []) }
{
    match out {
        Out::Range {
            slot,
            first,
            upto,
            rows,
        } => effects.send(
            managers.of(slot),
            Body::Deltas(Deltas {
                slot,
                first,
                upto,
                rows,
            }),
        ),
    }
}
