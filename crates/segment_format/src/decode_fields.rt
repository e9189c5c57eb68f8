//! Reading the header's fields, and those within an item.
ghost use Rattle.std.specs.Int.{w8, w16, w32, w64};
ghost use Rattle.segment_format.specs.Reading.{Yields, number, raw};
ghost use Rattle.segment_format.specs.ReadingFields.{block_at, log_at, pass_at, name_at, prior_at, mark_at, head_at, value_at, place_at, flagged_at, row_at, rows_at};

use crate::SegError;
use crate::format::{MOST, is_length, is_log, is_mark, is_version};
use crate::head::Head;
use std::alloc::Global;
use xfs_base::{
    BlockId, Entry, FieldReader, Ino, List, LogId, Pass, Place, Prior, SegName, SegRef, Value,
    ValueError,
};

pub(crate) fn u8_of(reader: &mut FieldReader) -> Result<u8, SegError>
    ensures { Yields (λ n. (n, reader.new)) result (number w8 reader.old) }
{
    let at = reader.at();
    match reader.u8() {
        Some(n) => Ok(n),
        None => Err(SegError::Short(at)),
    }
}

pub(crate) fn u16_of(reader: &mut FieldReader) -> Result<u16, SegError>
    ensures { Yields (λ n. (n, reader.new)) result (number w16 reader.old) }
{
    let at = reader.at();
    match reader.u16() {
        Some(n) => Ok(n),
        None => Err(SegError::Short(at)),
    }
}

pub(crate) fn u32_of(reader: &mut FieldReader) -> Result<u32, SegError>
    ensures { Yields (λ n. (n, reader.new)) result (number w32 reader.old) }
{
    let at = reader.at();
    match reader.u32() {
        Some(n) => Ok(n),
        None => Err(SegError::Short(at)),
    }
}

pub(crate) fn u64_of(reader: &mut FieldReader) -> Result<u64, SegError>
    ensures { Yields (λ n. (n, reader.new)) result (number w64 reader.old) }
{
    let at = reader.at();
    match reader.u64() {
        Some(n) => Ok(n),
        None => Err(SegError::Short(at)),
    }
}

fn bytes_of<'a>(n: usize, reader: &mut FieldReader<'a>) -> Result<&'a [u8], SegError>
    ensures { Yields (λ bytes. (bytes.now, reader.new)) result (raw n reader.old) }
{
    let at = reader.at();
    match reader.bytes(n) {
        Some(bytes) => Ok(bytes),
        None => Err(SegError::Short(at)),
    }
}

#[tactic(auto, unfolding(crate::specs::ReadingFields::block_at))]
pub(crate) fn block_of(reader: &mut FieldReader) -> Result<BlockId, SegError>
    ensures { Yields (λ x. (x, reader.new)) result (block_at reader.old) }
{
    let ino = u32_of(reader)?;
    let blk = u32_of(reader)?;
    Ok(BlockId { ino: Ino(ino), blk })
}

#[tactic(auto, unfolding(crate::specs::ReadingFields::log_at))]
fn log_of(reader: &mut FieldReader) -> Result<LogId, SegError>
    ensures { Yields (λ x. (x, reader.new)) result (log_at reader.old) }
{
    let at = reader.at();
    let log = u8_of(reader)?;
    if !is_log(log) {
        return Err(SegError::BadLength(at));
    }
    Ok(LogId(log))
}

#[tactic(auto, unfolding(crate::specs::ReadingFields::pass_at))]
fn pass_of(reader: &mut FieldReader) -> Result<Pass, SegError>
    ensures { Yields (λ x. (x, reader.new)) result (pass_at reader.old) }
{
    let inc = u32_of(reader)?;
    let att = u32_of(reader)?;
    Ok(Pass { inc, att })
}

#[tactic(auto, unfolding(crate::specs::ReadingFields::name_at))]
fn name_of(reader: &mut FieldReader) -> Result<SegName, SegError>
    ensures { Yields (λ x. (x, reader.new)) result (name_at reader.old) }
{
    let log = log_of(reader)?;
    let seq = u32_of(reader)?;
    let pass = pass_of(reader)?;
    Ok(SegName { log, seq, pass })
}

#[tactic(auto, unfolding(crate::specs::ReadingFields::prior_at))]
fn prior_of(reader: &mut FieldReader) -> Result<Prior, SegError>
    ensures { Yields (λ x. (x, reader.new)) result (prior_at reader.old) }
{
    let pass = pass_of(reader)?;
    let group = u32_of(reader)?;
    Ok(Prior { pass, group })
}

#[tactic(auto, unfolding(crate::specs::ReadingFields::mark_at))]
pub(crate) fn mark_of<'a>(reader: &mut FieldReader<'a>) -> Result<&'a [u8], SegError>
    ensures { Yields (λ bytes. (bytes.now, reader.new)) result (mark_at reader.old) }
{
    let start = reader.at();
    let mark = bytes_of(3, reader)?;
    if !is_mark(mark) {
        return Err(SegError::BadMark(start));
    }
    Ok(mark)
}

#[tactic(auto, unfolding(crate::specs::ReadingFields::head_at))]
pub(crate) fn head_of(reader: &mut FieldReader) -> Result<Head, SegError>
    ensures { Yields (λ x. (x, reader.new)) result (head_at reader.old) }
{
    let start = reader.at();
    let version = u8_of(reader)?;
    if !is_version(version) {
        return Err(SegError::BadVersion(start));
    }
    let name = name_of(reader)?;
    let prior = prior_of(reader)?;
    let group = u32_of(reader)?;
    let at = reader.at();
    let count = u16_of(reader)?;
    if count > MOST + MOST {
        return Err(SegError::BadLength(at));
    }
    Ok(Head {
        version,
        name,
        prior,
        group,
        count,
    })
}

#[tactic(auto, unfolding(crate::specs::ReadingFields::value_at))]
pub(crate) fn value_of(
    alloc: Global,
    version: u8,
    reader: &mut FieldReader,
) -> Result<Value, SegError>
    ensures { Yields (λ x. (x, reader.new)) result (value_at version reader.old) }
{
    let at = reader.at();
    let length = u16_of(reader)?;
    if !is_length(version, length) {
        return Err(SegError::BadLength(at));
    }
    let bytes = bytes_of(usize::from(length), reader)?;
    match Value::of(alloc, bytes) {
        Ok(value) => Ok(value),
        Err(_) => Err(SegError::Memory),
    }
}

#[tactic(auto, unfolding(crate::specs::ReadingFields::place_at))]
fn place_of(reader: &mut FieldReader) -> Result<Place, SegError>
    ensures { Yields (λ x. (x, reader.new)) result (place_at reader.old) }
{
    let name = name_of(reader)?;
    let group = u32_of(reader)?;
    let item = u16_of(reader)?;
    Ok(Place {
        seg: SegRef { name, group },
        item,
    })
}

#[tactic(auto, unfolding(crate::specs::ReadingFields::flagged_at))]
fn flagged_of(has: u8, reader: &mut FieldReader) -> Result<Option<Place>, SegError>
    ensures { Yields (λ x. (x, reader.new)) result (flagged_at has reader.old) }
{
    if has == 0 {
        return Ok(None);
    }
    Ok(Some(place_of(reader)?))
}

#[tactic(auto, unfolding(crate::specs::ReadingFields::row_at))]
fn row_of(reader: &mut FieldReader) -> Result<(BlockId, Entry), SegError>
    ensures { Yields (λ x. ((x.0, x.1), reader.new)) result (row_at reader.old) }
{
    let block = block_of(reader)?;
    let ver = u64_of(reader)?;
    let hop = u32_of(reader)?;
    let at = reader.at();
    let has = u8_of(reader)?;
    if has >= 2 {
        return Err(SegError::BadLength(at));
    }
    let place = flagged_of(has, reader)?;
    Ok((block, Entry { ver, hop, place }))
}

pub(crate) fn rows_of(
    alloc: Global,
    count: u16,
    reader: &mut FieldReader,
) -> Result<List<(BlockId, Entry)>, SegError>
    ensures { Yields (λ x. (x, reader.new)) result (rows_at count reader.old) }
{
    let mut rows = List::new(alloc);
    for _ in 0..count {
        let row = row_of(reader)?;
        rows.push(row)?;
    }
    Ok(rows)
}
