//! What a settled segment tells of blocks.
ghost use Rattle.std.specs.Prelude.{◌≡◌, IfOk};
ghost use Rattle.segment_format.specs.Rows.{place_of, row_of, rows_of};

use crate::format::NO_ITEM;
use crate::{Item, Segment};
use std::alloc::Global;
use xfs_base::{BlockId, Entry, List, Mem, Place, SegRef};

/// What a segment tells of blocks once it is settled: of each of its Deltas, in their order, the block and
/// the entry that its version has. The version lies in the segment itself, or nowhere where it is absent.
pub fn rows_of(alloc: Global, segment: &Segment) -> Mem<List<(BlockId, Entry)>>
    ensures { IfOk result (λ rows. rows ≡ rows_of segment.now) }
{
    let mut rows = List::from_vec(Vec::with_capacity(alloc, segment.items.len())?);
    for item in segment.items.as_slice() {
        if let Some(row) = row_of(segment, item) {
            rows.push(row)?;
        }
    }
    Ok(rows)
}

fn row_of(segment: &Segment, item: &Item) -> Option<(BlockId, Entry)>
    ensures { result ≡ row_of segment.now item.now }
{
    match item {
        Item::Delta {
            block,
            ver,
            hop,
            item,
        } => Some((
            *block,
            Entry {
                ver: *ver,
                hop: *hop,
                place: place_of(segment, *item),
            },
        )),
        Item::Block { .. } | Item::Part { .. } => None,
    }
}

fn place_of(segment: &Segment, item: u16) -> Option<Place>
    ensures { result ≡ place_of segment.now item }
{
    if item == NO_ITEM {
        return None;
    }
    let seg = SegRef {
        name: segment.name,
        group: segment.group,
    };
    Some(Place { seg, item })
}
