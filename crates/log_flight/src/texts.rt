//! Which items a segment may have.
ghost use Rattle.std.specs.Prelude.{◌≡◌, ◌↔◌, IsTrue};
ghost use Rattle.std.specs.List.{list_all};
ghost use Rattle.segment_format.specs.Rule.{deltas_in, others_in};
ghost use Rattle.log_flight.specs.Texts.{HasText, is_placed, is_present, is_item, awaited_after, may_come, keeps_rule, has_text};

use segment_format::Item;
use segment_format::format::NO_ITEM;
use xfs_base::limits::{LOG_COUNT, MAX_VALUE, SEGMENT_BLOCKS, SLOT_COUNT};
use xfs_base::{BlockId, Entry, Value};

/// Whether a segment may have these items: just where they keep the limits of a text and the rule on
/// Deltas.
pub fn has_text(items: &[Item]) -> bool
    ensures exact { IsTrue result ↔ HasText items.now }
    ensures test { result ≡ has_text items.now }
{
    passes(items)
}

fn passes(items: &[Item]) -> bool
    ensures { result ≡ has_text items.now }
{
    if !are_items(items) {
        return false;
    }
    if SEGMENT_BLOCKS < others_in(items) {
        return false;
    }
    if SEGMENT_BLOCKS < deltas_in(items) {
        return false;
    }
    keeps_rule(items)
}

fn are_items(items: &[Item]) -> bool
    ensures { result ≡ list_all is_item items.now }
{
    for item in items {
        if !is_item(item) {
            return false;
        }
    }
    true
}

fn is_item(item: &Item) -> bool
    ensures { result ≡ is_item item.now }
{
    match item {
        Item::Block { value, .. } => is_present(value),
        Item::Delta { .. } => true,
        Item::Part { slot, rows } => {
            *slot < SLOT_COUNT
                && 1 <= rows.len()
                && rows.len() <= 128
                && are_placed(rows.as_slice())
        }
    }
}

fn is_present(value: &Value) -> bool
    ensures { result ≡ is_present value.now }
{
    match value.bytes() {
        None => false,
        Some(bytes) => 1 <= bytes.len() && bytes.len() <= MAX_VALUE,
    }
}

fn are_placed(rows: &[(BlockId, Entry)]) -> bool
    ensures { result ≡ list_all (λ r. is_placed r.1.place) rows.now }
{
    for row in rows {
        if !is_placed(&row.1) {
            return false;
        }
    }
    true
}

fn is_placed(entry: &Entry) -> bool
    ensures { result ≡ is_placed entry.now.place }
{
    match entry.place {
        None => true,
        Some(place) => 1 <= place.seg.name.log.0 && place.seg.name.log.0 <= LOG_COUNT,
    }
}

fn others_in(items: &[Item]) -> usize
    ensures { result ≡ others_in items.now }
{
    let mut count = 0;
    for item in items {
        match item {
            Item::Delta { .. } => {}
            Item::Block { .. } | Item::Part { .. } => count += 1,
        }
    }
    count
}

fn deltas_in(items: &[Item]) -> usize
    ensures { result ≡ deltas_in items.now }
{
    let mut count = 0;
    for item in items {
        match item {
            Item::Delta { .. } => count += 1,
            Item::Block { .. } | Item::Part { .. } => {}
        }
    }
    count
}

fn keeps_rule(items: &[Item]) -> bool
    ensures { result ≡ keeps_rule None 0 items.now }
{
    let mut awaited = None;
    for (number, item) in items.iter().enumerate() {
        if !may_come(awaited, number, item) {
            return false;
        }
        awaited = awaited_after(item);
    }
    awaited.is_none()
}

fn may_come(awaited: Option<BlockId>, number: usize, item: &Item) -> bool
    ensures { result ≡ may_come awaited number item.now }
{
    match (awaited, item) {
        (None, Item::Delta { item, .. }) => *item == NO_ITEM,
        (None, _) => true,
        (Some(awaited), Item::Delta { block, item, .. }) => {
            block.is_same(awaited) && usize::from(*item) + 1 == number
        }
        (Some(_), _) => false,
    }
}

fn awaited_after(item: &Item) -> Option<BlockId>
    ensures { result ≡ awaited_after item.now }
{
    match item {
        Item::Block { block, .. } => Some(*block),
        Item::Delta { .. } | Item::Part { .. } => None,
    }
}
