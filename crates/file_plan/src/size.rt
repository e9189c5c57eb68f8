//! The form of a size.
ghost use Rattle.std.specs.Prelude.{◌≡◌, ◌≤◌, IfOk, IfSome};
ghost use Rattle.file_plan.specs.Format.{size_value, size_in, file_end};

use crate::bytes::value_of;
use crate::places::FILE_END;
use std::alloc::Global;
use xfs_base::{Mem, Value};

/// The value of a file's size block: eight bytes, big-endian, and Absent for 0.
pub fn size_value(alloc: Global, size: u32) -> Mem<Value>
    ensures { IfOk result (λ value. value ≡ size_value size) }
{
    if size == 0 {
        return Ok(Value::absent());
    }
    value_of(alloc, u64::from(size).to_be_bytes().as_slice())
}

/// The size that these bytes of a size block are: none where they are not eight bytes of a number of at
/// most 1,048,576. No bytes are the size 0.
pub fn read_size(bytes: &[u8]) -> Option<u32>
    ensures exact { result ≡ size_in bytes.now }
    ensures bound { IfSome result (λ size. size ≤ file_end) }
{
    if bytes.is_empty() {
        return Some(0);
    }
    if bytes.len() != 8 {
        return None;
    }
    let size = u64::from_be_bytes([
        bytes[0], bytes[1], bytes[2], bytes[3], bytes[4], bytes[5], bytes[6], bytes[7],
    ]);
    if size <= u64::from(FILE_END) {
        Some(size as u32)
    } else {
        None
    }
}
