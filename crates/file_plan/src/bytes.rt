//! Bytes of blocks.
ghost use Rattle.std.specs.Prelude.{◌≡◌, ◌+◌, ◌<◌, ◌^◌, ◌++◌, IfOk, length, drop};
ghost use Rattle.xfs_base.specs.Value.{IsValue};
ghost use Rattle.file_plan.specs.Format.{bytes_in, value_of, overlaid, cut_of};

use std::alloc::{AllocError, Global};
use xfs_base::{List, Mem, Value, ValueError};

/// The bytes of a value; Absent has none.
pub(crate) fn bytes_of(value: &Value) -> &[u8]
    ensures bytes { result.now ≡ bytes_in value.now }
    ensures fits { IsValue value.now }
{
    match value.bytes() {
        None => b"".as_slice(),
        Some(bytes) => bytes,
    }
}

/// The value of these bytes, Absent where there are none.
pub(crate) fn value_of(alloc: Global, bytes: &[u8]) -> Mem<Value>
    requires { IsValue (value_of bytes.now) }
    ensures { IfOk result (λ value. value ≡ value_of bytes.now) }
{
    if bytes.is_empty() {
        return Ok(Value::absent());
    }
    match Value::of(alloc, bytes) {
        Ok(value) => Ok(value),
        Err(ValueError::BadLength(_)) => unreachable!(),
        Err(ValueError::Memory) => Err(AllocError),
    }
}

/// The old bytes with new ones over them from a place on, and zeros in a gap.
pub(crate) fn overlaid(alloc: Global, old: &[u8], at: usize, new: &[u8]) -> Mem<Vec<u8>>
    requires { at + length new.now < 2 ^ 32 }
    ensures { IfOk result (λ bytes. bytes.items ≡ overlaid old.now at new.now) }
{
    let (front, _) = old.split_at(at.min(old.len()));
    let mut bytes = Vec::from_slice(alloc, front)?;
    bytes.resize(at, 0)?;
    bytes.extend_from_slice(new)?;
    let end = at + new.len();
    let (_, back) = old.split_at(end.min(old.len()));
    bytes.extend_from_slice(back)?;
    Ok(bytes)
}

/// Appends so many bytes of a block from a place on, with zeros after its end.
pub(crate) fn add_cut(got: List<u8>, block: &[u8], low: usize, count: usize) -> Mem<List<u8>>
    requires { length got + count < 2 ^ 32 }
    ensures { IfOk result (λ bytes. bytes ≡ got ++ cut_of block.now low count) }
{
    let (_, from) = block.split_at(low.min(block.len()));
    let (cut, _) = from.split_at(count.min(from.len()));
    let mut bytes = got.into_vec();
    let wanted = bytes.len() + count;
    bytes.extend_from_slice(cut)?;
    bytes.resize(wanted, 0)?;
    Ok(List::from_vec(bytes))
}

/// The bytes after the first so many.
pub(crate) fn after_first(bytes: List<u8>, count: usize) -> Mem<List<u8>>
    ensures { IfOk result (λ rest. rest ≡ drop count bytes) }
{
    let mut bytes = bytes.into_vec();
    let cut = count.min(bytes.len());
    let rest = bytes.split_off(cut)?;
    Ok(List::from_vec(rest))
}
