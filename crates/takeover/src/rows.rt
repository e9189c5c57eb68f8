//! What segments tell of a slot's blocks.
ghost use Rattle.std.specs.Prelude.{◌≡◌, ◌++◌, IfOk, OnOk, filter};
ghost use Rattle.std.specs.List.{flat_map};
ghost use Rattle.delta_index.specs.Index.{merged_all};
ghost use Rattle.takeover.specs.Rows.{is_of, part_rows, told_of};
ghost use Rattle.takeover.specs.Transition.{is_index, rows_join};

use delta_index::DeltaIndex;
use segment_format::{Item, Segment, rows_of};
use std::alloc::Global;
use std::collections::VecDeque;
use xfs_base::{BlockId, Entry, List, Mem};

/// What an index holds of a block.
pub(crate) type Row = (BlockId, Entry);

/// What a segment tells of a slot's blocks: the rows of its Parts of the slot, then its Deltas.
pub(crate) fn told_of(alloc: Global, slot: u8, segment: &Segment) -> Mem<List<Row>>
    ensures { IfOk result (λ rows. rows ≡ told_of slot segment.now) }
{
    let mut rows = List::new(alloc);
    add_parts(&mut rows, slot, segment.items.as_slice())?;
    add_those_of(&mut rows, slot, rows_of(alloc, segment)?.as_slice())?;
    Ok(rows)
}

fn add_parts(rows: &mut List<Row>, slot: u8, items: &[Item]) -> Mem<()>
    ensures { OnOk result (rows.new ≡ rows.old ++ flat_map (part_rows slot) items.now) }
{
    for item in items {
        add_part(rows, slot, item)?;
    }
    Ok(())
}

fn add_part(rows: &mut List<Row>, slot: u8, item: &Item) -> Mem<()>
    ensures { OnOk result (rows.new ≡ rows.old ++ part_rows slot item.now) }
{
    match item {
        Item::Part {
            slot: of,
            rows: own,
        } => {
            if *of == slot {
                return add_all(rows, own.as_slice());
            }
            Ok(())
        }
        Item::Block { .. } | Item::Delta { .. } => Ok(()),
    }
}

fn add_all(rows: &mut List<Row>, more: &[Row]) -> Mem<()>
    ensures { OnOk result (rows.new ≡ rows.old ++ more.now) }
{
    for row in more {
        rows.push(*row)?;
    }
    Ok(())
}

fn add_those_of(rows: &mut List<Row>, slot: u8, more: &[Row]) -> Mem<()>
    ensures { OnOk result (rows.new ≡ rows.old ++ filter (is_of slot) more.now) }
{
    for row in more {
        if row.0.ino.slot() == slot {
            rows.push(*row)?;
        }
    }
    Ok(())
}

/// Whether an index has no more rows than a slot's may have pages.
pub(crate) fn is_index(rows: &[Row]) -> bool
    ensures { result ≡ is_index rows.now }
{
    rows.len() <= u32::MAX as usize
}

/// Merges what a source told, the lowest segment first.
pub(crate) fn join(alloc: Global, index: &mut DeltaIndex, chain: &VecDeque<List<Row>>) -> Mem<()>
    ensures { OnOk result (index.new ≡ rows_join index.old chain.now.items) }
{
    for place in 0..chain.len() {
        merge(alloc, index, chain[place].as_slice())?;
    }
    Ok(())
}

fn merge(alloc: Global, index: &mut DeltaIndex, rows: &[Row]) -> Mem<()>
    ensures { OnOk result (index.new ≡ merged_all index.old rows.now) }
{
    for (block, entry) in rows {
        index.merge(alloc, *block, *entry)?;
    }
    Ok(())
}
