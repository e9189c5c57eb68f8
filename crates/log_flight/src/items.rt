//! The items that are written of changes.
ghost use Rattle.std.specs.Prelude.{◌≡◌, ◌≤◌, ◌<◌, ◌^◌, ◌++◌, length, OnOk, IfOk};
ghost use Rattle.std.specs.List.{AllByRecursion};
ghost use Rattle.segment_format.specs.declared.segment.Item.TheVariants.{Delta};
ghost use Rattle.segment_format.specs.Format.{second_version};
ghost use Rattle.segment_format.specs.Text.{IsItem};
ghost use Rattle.xfs_base.specs.Limits.{segment_blocks};
ghost use Rattle.log_flight.specs.Items.{change_items, items_of};
ghost use Rattle.log_flight.specs.Texts.{HasText};

use crate::Change;
use indexmap::IndexMap;
use segment_format::Item;
use segment_format::format::NO_ITEM;
use std::alloc::Global;
use xfs_base::{BlockId, Entry, List, Mem};

/// The items of changes, in their order: of each a Block and its Delta, or a Delta alone where the version
/// is absent.
pub fn items_of(alloc: Global, changes: IndexMap<BlockId, Change>) -> Mem<List<Item>>
    requires { length changes.entries ≤ segment_blocks }
    ensures items { IfOk result (λ items. items ≡ items_of 0 changes.entries) }
    ensures text { IfOk result HasText }
{
    let mut items = List::new(alloc);
    for (block, change) in changes {
        add_items(&mut items, block, change)?;
    }
    Ok(items)
}

fn add_items(items: &mut List<Item>, block: BlockId, change: Change) -> Mem<()>
    requires { length items.old < 2 ^ 16 }
    ensures added { OnOk result (items.new ≡ items.old ++ change_items (length items.old) block change) }
    ensures each { OnOk result (AllByRecursion (IsItem second_version) (change_items (length items.old) block change)) }
{
    let before = items.len() as u16;
    let entry = change.entry;
    let value = change.into_value();
    if value.bytes().is_none() {
        return items.push(delta(block, entry, NO_ITEM));
    }
    items.push(Item::Block { block, value })?;
    items.push(delta(block, entry, before))
}

fn delta(block: BlockId, entry: Entry, item: u16) -> Item
    ensures { result ≡ Delta block entry.ver entry.hop item }
{
    Item::Delta {
        block,
        ver: entry.ver,
        hop: entry.hop,
        item,
    }
}
