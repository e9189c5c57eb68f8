//! Writing a segment's text.
ghost use Rattle.std.specs.Prelude.{◌≡◌, ◌++◌, ◌<◌, ◌^◌, length, OnOk, IfOk};
ghost use Rattle.std.specs.List.{AllByRecursion, flat_map};
ghost use Rattle.segment_format.specs.Format.{mark, second_version};
ghost use Rattle.segment_format.specs.Text.{block_text, pass_text, name_text, prior_text, value_text, place_text, row_text, item_text, head_text, head_of, version_of, IsItem, KeepsLimits, IsText};

use crate::format::MARK;
use crate::segment::version_of;
use crate::{Item, Segment};
use std::alloc::Global;
use xfs_base::{BlockId, Entry, FieldWriter, List, Mem, Pass, Place, Prior, SegName, Value};

fn put_block(alloc: Global, out: &mut FieldWriter, block: BlockId) -> Mem<()>
    ensures { OnOk result (out.new ≡ out.old ++ block_text block) }
{
    out.put_u32(alloc, block.ino.0)?;
    out.put_u32(alloc, block.blk)?;
    Ok(())
}

fn put_pass(alloc: Global, out: &mut FieldWriter, pass: Pass) -> Mem<()>
    ensures { OnOk result (out.new ≡ out.old ++ pass_text pass) }
{
    out.put_u32(alloc, pass.inc)?;
    out.put_u32(alloc, pass.att)?;
    Ok(())
}

fn put_name(alloc: Global, out: &mut FieldWriter, name: SegName) -> Mem<()>
    ensures { OnOk result (out.new ≡ out.old ++ name_text name) }
{
    out.put_u8(alloc, name.log.0)?;
    out.put_u32(alloc, name.seq)?;
    put_pass(alloc, out, name.pass)?;
    Ok(())
}

fn put_prior(alloc: Global, out: &mut FieldWriter, prior: Prior) -> Mem<()>
    ensures { OnOk result (out.new ≡ out.old ++ prior_text prior) }
{
    put_pass(alloc, out, prior.pass)?;
    out.put_u32(alloc, prior.group)?;
    Ok(())
}

fn put_value(alloc: Global, out: &mut FieldWriter, value: &Value) -> Mem<()>
    ensures { OnOk result (out.new ≡ out.old ++ value_text value.now) }
{
    match value.bytes() {
        None => Ok(()),
        Some(bytes) => {
            out.put_u16(alloc, bytes.len() as u16)?;
            out.put_bytes(alloc, bytes)?;
            Ok(())
        }
    }
}

fn put_place(alloc: Global, out: &mut FieldWriter, place: Option<Place>) -> Mem<()>
    ensures { OnOk result (out.new ≡ out.old ++ place_text place) }
{
    match place {
        None => out.put_u8(alloc, 0),
        Some(place) => {
            out.put_u8(alloc, 1)?;
            put_name(alloc, out, place.seg.name)?;
            out.put_u32(alloc, place.seg.group)?;
            out.put_u16(alloc, place.item)?;
            Ok(())
        }
    }
}

fn put_row(alloc: Global, out: &mut FieldWriter, block: BlockId, entry: Entry) -> Mem<()>
    ensures { OnOk result (out.new ≡ out.old ++ row_text (block, entry)) }
{
    put_block(alloc, out, block)?;
    out.put_u64(alloc, entry.ver)?;
    out.put_u32(alloc, entry.hop)?;
    put_place(alloc, out, entry.place)?;
    Ok(())
}

fn put_rows(alloc: Global, out: &mut FieldWriter, rows: &[(BlockId, Entry)]) -> Mem<()>
    ensures { OnOk result (out.new ≡ out.old ++ flat_map row_text rows.now) }
{
    for row in rows {
        put_row(alloc, out, row.0, row.1)?;
    }
    Ok(())
}

fn put_item(alloc: Global, out: &mut FieldWriter, item: &Item) -> Mem<()>
    requires { IsItem second_version item.now }
    ensures { OnOk result (out.new ≡ out.old ++ item_text item.now) }
{
    match item {
        Item::Block { block, value } => {
            out.put_u8(alloc, 1)?;
            put_block(alloc, out, *block)?;
            put_value(alloc, out, value)?;
            Ok(())
        }
        Item::Delta {
            block,
            ver,
            hop,
            item,
        } => {
            out.put_u8(alloc, 2)?;
            put_block(alloc, out, *block)?;
            out.put_u64(alloc, *ver)?;
            out.put_u32(alloc, *hop)?;
            out.put_u16(alloc, *item)?;
            Ok(())
        }
        Item::Part { slot, rows } => {
            out.put_u8(alloc, 3)?;
            out.put_u8(alloc, *slot)?;
            out.put_u16(alloc, rows.len() as u16)?;
            put_rows(alloc, out, rows.as_slice())?;
            Ok(())
        }
    }
}

fn put_items(alloc: Global, out: &mut FieldWriter, items: &[Item]) -> Mem<()>
    requires { AllByRecursion (IsItem second_version) items.now }
    ensures { OnOk result (out.new ≡ out.old ++ flat_map item_text items.now) }
{
    for item in items {
        put_item(alloc, out, item)?;
    }
    Ok(())
}

fn put_head(alloc: Global, out: &mut FieldWriter, segment: &Segment) -> Mem<()>
    requires { length segment.now.items < 2 ^ 16 }
    ensures { OnOk result (out.new ≡ out.old ++ (mark ++ head_text (head_of segment.now))) }
{
    out.put_bytes(alloc, &MARK)?;
    out.put_u8(alloc, version_of(segment.items.as_slice()))?;
    put_name(alloc, out, segment.name)?;
    put_prior(alloc, out, segment.prior)?;
    out.put_u32(alloc, segment.group)?;
    out.put_u16(alloc, segment.items.len() as u16)?;
    Ok(())
}

/// The text of a segment that keeps the limits and the rule on Deltas.
pub fn encode(alloc: Global, segment: &Segment) -> Mem<List<u8>>
    requires { KeepsLimits segment.now }
    ensures { IfOk result (λ bytes. IsText bytes segment.now) }
{
    let mut out = FieldWriter::new(alloc);
    put_head(alloc, &mut out, segment)?;
    put_items(alloc, &mut out, segment.items.as_slice())?;
    Ok(out.done())
}
