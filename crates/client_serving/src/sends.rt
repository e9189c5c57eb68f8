//! What a client that serves sends to managers: wants, what is given up, and what is held of a slot.
ghost use Rattle.std.specs.Prelude.{◌≡◌, ◌++◌, ◌∷◌, [], OnOk};
ghost use Rattle.client_serving.specs.Sends.{push_first};
ghost use Rattle.log_owner.specs.Promised.{manager_of};
ghost use Rattle.log_owner.specs.Sending.{sending_push};
ghost use Rattle.node_base.specs.declared.effects.Effect.TheVariants.{Send};
ghost use Rattle.token_client.specs.State.{held_in};
ghost use Rattle.wire_msg.specs.declared.body.Body.TheVariants.{Want as WantBody, Gave as GaveBody, Report as Reports};
ghost use Rattle.xfs_base.specs.Blocks.{slot_of};

use delta_feed::Feed;
use log_owner::Managers;
use log_owner::sending::push;
use node_base::Effects;
use std::alloc::Global;
use token_client::Tokens;
use wire_msg::{Body, Gave, Report, Want};
use xfs_base::{End, Mem};

/// A want. Before one that was never sent goes what the slot's manager has not acknowledged of the log.
pub(crate) fn send_want(
    alloc: Global,
    effects: &mut Effects,
    feed: &mut Feed,
    managers: Managers,
    want: Want,
) -> Mem<()>
    ensures feed { OnOk result (feed.new ≡ feed.old) }
    ensures effects { OnOk result
        (effects.new ≡ effects.old
        ++ (push_first managers feed.old (slot_of want.block.ino.0) want.again
        ++ Send (manager_of managers (slot_of want.block.ino.0)) (WantBody want) ∷ [])) }
{
    let slot = want.block.ino.slot();
    push_first(alloc, effects, feed, managers, slot, want.again)?;
    effects.send(managers.of(slot), Body::Want(want))
}

// What goes before a want of a slot that was sent again so often.
fn push_first(
    alloc: Global,
    effects: &mut Effects,
    feed: &mut Feed,
    managers: Managers,
    slot: u8,
    again: u32,
) -> Mem<()>
    ensures feed { OnOk result (feed.new ≡ feed.old) }
    ensures effects { OnOk result (effects.new ≡ effects.old ++ push_first managers feed.old slot again) }
{
    if again == 0 {
        push(alloc, effects, feed, managers, slot)?;
    }
    Ok(())
}

/// A block was given up: before that is said goes what the manager has not acknowledged of the log.
pub(crate) fn send_gave(
    alloc: Global,
    effects: &mut Effects,
    feed: &mut Feed,
    managers: Managers,
    gave: Gave,
) -> Mem<()>
    ensures feed { OnOk result (feed.new ≡ feed.old) }
    ensures effects { OnOk result
        (effects.new ≡ effects.old
        ++ (sending_push managers feed.old (slot_of gave.block.ino.0) ++ Send (manager_of managers (slot_of gave.block.ino.0)) (GaveBody gave) ∷ [])) }
{
    push(alloc, effects, feed, managers, gave.block.ino.slot())?;
    say_gave(effects, managers, gave)
}

/// Says that a block was given up.
pub(crate) fn say_gave(effects: &mut Effects, managers: Managers, gave: Gave) -> Mem<()>
    ensures { OnOk result (effects.new ≡ effects.old ++ Send (manager_of managers (slot_of gave.block.ino.0)) (GaveBody gave) ∷ []) }
{
    effects.send(managers.of(gave.block.ino.slot()), Body::Gave(gave))
}

/// Says what is held of a slot.
pub(crate) fn report(
    alloc: Global,
    effects: &mut Effects,
    tokens: &Tokens,
    managers: Managers,
    end: End,
    slot: u8,
    epoch: u32,
) -> Mem<()>
    ensures { OnOk result (effects.new ≡ effects.old
        ++ Send (manager_of managers slot) (Reports (record { slot = slot; epoch = epoch; held = held_in slot tokens.now.blocks; end = end })) ∷ []) }
{
    let report = Report {
        slot,
        epoch,
        held: tokens.held(alloc, slot)?,
        end,
    };
    effects.send(managers.of(slot), Body::Report(report))
}
