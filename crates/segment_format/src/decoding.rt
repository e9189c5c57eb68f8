//! Reading items, and a whole segment.
ghost use Rattle.std.specs.Prelude.{◌≡◌, ◌⊎◌, IfErr, IfOk};
ghost use Rattle.segment_format.specs.Answers.{IsFirst, ReadsEachText};
ghost use Rattle.segment_format.specs.declared.seg_error.SegError.TheVariants.{Memory};
ghost use Rattle.segment_format.specs.Ranges.{Fits};
ghost use Rattle.segment_format.specs.Text.{IsText};
ghost use Rattle.segment_format.specs.Reading.{Yields};
ghost use Rattle.segment_format.specs.ReadingItems.{kind_at, block_item_at, delta_item_at, part_item_at, body_at, item_at, items_at, parts_at, segment_at, answer_of};
ghost use Rattle.segment_format.specs.Rule.{nothing_seen};

use crate::decode_fields::{
    block_of, head_of, mark_of, rows_of, u8_of, u16_of, u32_of, u64_of, value_of,
};
use crate::format::is_row_count;
use crate::head::Head;
use crate::seen::{Seen, is_kind};
use crate::segment::version_of;
use crate::{Item, SegError, Segment};
use std::alloc::Global;
use xfs_base::limits::SLOT_COUNT;
use xfs_base::{FieldReader, List};

#[tactic(auto, unfolding(crate::specs::ReadingItems::kind_at))]
fn kind_of(seen: Seen, reader: &mut FieldReader) -> Result<u8, SegError>
    ensures { Yields (λ x. (x, reader.new)) result (kind_at seen reader.old) }
{
    let at = reader.at();
    let kind = u8_of(reader)?;
    if !is_kind(kind) {
        return Err(SegError::BadKind(at));
    }
    if !seen.has_room(kind) {
        return Err(SegError::BadLength(at));
    }
    if !seen.may_come(kind) {
        return Err(SegError::BadRef(at));
    }
    Ok(kind)
}

#[tactic(auto, unfolding(crate::specs::ReadingItems::block_item_at))]
fn block_item_of(alloc: Global, version: u8, reader: &mut FieldReader) -> Result<Item, SegError>
    ensures { Yields (λ x. (x, reader.new)) result (block_item_at version reader.old) }
{
    let block = block_of(reader)?;
    let value = value_of(alloc, version, reader)?;
    Ok(Item::Block { block, value })
}

#[tactic(auto, unfolding(crate::specs::ReadingItems::delta_item_at))]
fn delta_item_of(reader: &mut FieldReader) -> Result<Item, SegError>
    ensures { Yields (λ x. (x, reader.new)) result (delta_item_at reader.old) }
{
    let block = block_of(reader)?;
    let ver = u64_of(reader)?;
    let hop = u32_of(reader)?;
    let item = u16_of(reader)?;
    Ok(Item::Delta {
        block,
        ver,
        hop,
        item,
    })
}

#[tactic(auto, unfolding(crate::specs::ReadingItems::part_item_at))]
fn part_item_of(alloc: Global, reader: &mut FieldReader) -> Result<Item, SegError>
    ensures { Yields (λ x. (x, reader.new)) result (part_item_at reader.old) }
{
    let at = reader.at();
    let slot = u8_of(reader)?;
    if slot >= SLOT_COUNT {
        return Err(SegError::BadLength(at));
    }
    let behind = reader.at();
    let count = u16_of(reader)?;
    if !is_row_count(count) {
        return Err(SegError::BadLength(behind));
    }
    let rows = rows_of(alloc, count, reader)?;
    Ok(Item::Part { slot, rows })
}

#[tactic(auto, unfolding(crate::specs::ReadingItems::body_at))]
fn body_of(alloc: Global, version: u8, kind: u8, reader: &mut FieldReader) -> Result<Item, SegError>
    ensures { Yields (λ x. (x, reader.new)) result (body_at version kind reader.old) }
{
    if kind == 1 {
        return block_item_of(alloc, version, reader);
    }
    if kind == 2 {
        return delta_item_of(reader);
    }
    part_item_of(alloc, reader)
}

#[tactic(auto, unfolding(crate::specs::ReadingItems::item_at))]
fn item_of(
    alloc: Global,
    version: u8,
    seen: Seen,
    reader: &mut FieldReader,
) -> Result<Item, SegError>
    ensures { Yields (λ x. (x, reader.new)) result (item_at version seen reader.old) }
{
    let at = reader.at();
    let kind = kind_of(seen, reader)?;
    let item = body_of(alloc, version, kind, reader)?;
    if !seen.follows(&item) {
        return Err(SegError::BadRef(at));
    }
    Ok(item)
}

fn items_of(
    alloc: Global,
    version: u8,
    count: u16,
    reader: &mut FieldReader,
) -> Result<List<Item>, SegError>
    ensures { Yields (λ x. (x, reader.new)) result (items_at version nothing_seen count reader.old) }
{
    let mut items = List::new(alloc);
    let mut seen = Seen::nothing();
    for _ in 0..count {
        let item = item_of(alloc, version, seen, reader)?;
        seen = seen.with_item(&item);
        items.push(item)?;
    }
    if seen.awaited.is_some() {
        return Err(SegError::BadRef(reader.at()));
    }
    Ok(items)
}

#[tactic(auto, unfolding(crate::specs::ReadingItems::parts_at))]
fn parts_of(alloc: Global, reader: &mut FieldReader) -> Result<(Head, List<Item>), SegError>
    ensures { Yields (λ x. ((x.0, x.1), reader.new)) result (parts_at reader.old) }
{
    let start = reader.at();
    let head = head_of(reader)?;
    let items = items_of(alloc, head.version, head.count, reader)?;
    if head.version != version_of(items.as_slice()) {
        return Err(SegError::BadVersion(start));
    }
    Ok((head, items))
}

#[tactic(auto, unfolding(crate::specs::ReadingItems::segment_at))]
fn segment_of(alloc: Global, reader: &mut FieldReader) -> Result<Segment, SegError>
    ensures { Yields (λ x. (x, reader.new)) result (segment_at reader.old) }
{
    let _mark = mark_of(reader)?;
    let (head, items) = parts_of(alloc, reader)?;
    Ok(Segment {
        name: head.name,
        prior: head.prior,
        group: head.group,
        items,
    })
}

#[tactic(auto, unfolding(crate::specs::ReadingItems::answer_of))]
fn answer(alloc: Global, bytes: &[u8]) -> Result<Segment, SegError>
    ensures { Yields (λ x. x) result (answer_of bytes.now) }
{
    let mut reader = FieldReader::new(bytes);
    let segment = segment_of(alloc, &mut reader)?;
    if !reader.is_done() {
        return Err(SegError::Trailing(reader.at()));
    }
    Ok(segment)
}

/// The segment whose text these bytes are. Ok comes exactly where they are the text of a segment, and
/// it is that segment. Otherwise the refusal is the first that is met from the left, with its offset
/// (`docs/FORMATS.md` says when each comes), or `Memory`.
pub fn decode(alloc: Global, bytes: &[u8]) -> Result<Segment, SegError>
    // What is read is the text of the segment.
    ensures found { IfOk result (λ s. IsText bytes.now s × Fits s) }
    // The text of a segment is read as it, unless memory runs out.
    ensures only { ReadsEachText bytes.now result }
    // Which refusal it is.
    ensures refused { Yields (λ s. s) result (answer_of bytes.now) }
    // It stands at the first place, from the left, at which no text can go on, or at a second version that
    // no Block needs.
    ensures first { IfErr result (λ e. (e ≡ Memory) ⊎ IsFirst bytes.now e) }
{
    answer(alloc, bytes)
}
