//! Segments both ways, against bytes from outside.
use segment_format::{SegError, Segment, decode, encode};
use std::alloc::Global;
use xfs_base::Mem;

/// A segment of a client: one block of five bytes, and its Delta.
const WORKED: [u8; 74] = [
    0x78, 0x46, 0x53, 1, 1, 0, 0, 0, 1, 0, 0, 0, 1, 0, 0, 0, 1, 0, 0, 0, 0, 0, 0, 0, 0, 0, 0, 0, 0,
    0, 0, 0, 1, 0, 2, 1, 0, 0, 0, 1, 0, 0, 0, 0, 0, 5, 0x68, 0x65, 0x6c, 0x6c, 0x6f, 2, 0, 0, 0, 1,
    0, 0, 0, 0, 0, 0, 0, 0, 0, 0, 0, 1, 0, 0, 0, 0, 0, 0,
];

/// For each of its bytes, where the field begins that holds it.
const STARTS: [usize; 74] = [
    0, 0, 0, 3, 4, 5, 5, 5, 5, 9, 9, 9, 9, 13, 13, 13, 13, 17, 17, 17, 17, 21, 21, 21, 21, 25, 25,
    25, 25, 29, 29, 29, 29, 33, 33, 35, 36, 36, 36, 36, 40, 40, 40, 40, 44, 44, 46, 46, 46, 46, 46,
    51, 52, 52, 52, 52, 56, 56, 56, 56, 60, 60, 60, 60, 60, 60, 60, 60, 68, 68, 68, 68, 72, 72,
];

/// A segment of a manager: one Part of two rows, the first without a place and the second with one.
const PART: [u8; 100] = [
    0x78, 0x46, 0x53, 1, 10, 0, 0, 0, 1, 0, 0, 0, 1, 0, 0, 0, 1, 0, 0, 0, 0, 0, 0, 0, 0, 0, 0, 0,
    0, 0, 0, 0, 1, 0, 1, 3, 7, 0, 2, 0, 0, 0, 1, 0, 0, 0, 2, 0, 0, 0, 0, 0, 0, 0, 3, 0, 0, 0, 4, 0,
    0, 0, 0, 5, 0, 0, 0, 6, 0, 0, 0, 0, 0, 0, 0, 7, 0, 0, 0, 8, 1, 13, 0, 0, 0, 9, 0, 0, 0, 10, 0,
    0, 0, 11, 0, 0, 0, 12, 0, 13,
];

/// The name and the offset of what was answered.
fn told(answer: Result<Segment, SegError>) -> (&'static str, usize) {
    match answer {
        Ok(_) => ("Ok", 0),
        Err(SegError::Short(at)) => ("Short", at),
        Err(SegError::BadMark(at)) => ("BadMark", at),
        Err(SegError::BadVersion(at)) => ("BadVersion", at),
        Err(SegError::BadKind(at)) => ("BadKind", at),
        Err(SegError::BadLength(at)) => ("BadLength", at),
        Err(SegError::BadRef(at)) => ("BadRef", at),
        Err(SegError::Trailing(at)) => ("Trailing", at),
        Err(SegError::Memory) => ("Memory", 0),
    }
}

/// These bytes with another one at a place.
fn spoiled(alloc: Global, bytes: &[u8], at: usize, byte: u8) -> Mem<Vec<u8>> {
    let mut copy = Vec::from_slice(alloc, bytes)?;
    if let Some(place) = copy.get_mut(at) {
        *place = byte;
    }
    Ok(copy)
}

/// The worked segment in another version, with so many bytes in its Block.
fn resized(alloc: Global, version: u8, length: u16) -> Mem<Vec<u8>> {
    let mut bytes = Vec::from_slice(alloc, &WORKED[..3])?;
    bytes.push(version)?;
    bytes.extend_from_slice(&WORKED[4..44])?;
    bytes.extend_from_slice(&length.to_be_bytes())?;
    for _ in 0..length {
        bytes.push(b'b')?;
    }
    bytes.extend_from_slice(&WORKED[51..])?;
    Ok(bytes)
}

/// Whether each front of the worked segment is cut off in the field where it ends.
pub fn are_fronts_short(alloc: Global) -> bool {
    for (length, start) in STARTS.iter().enumerate() {
        if told(decode(alloc, &WORKED[..length])) != ("Short", *start) {
            return false;
        }
    }
    true
}

/// Single changes of the worked segment: the place, the new byte, and what is answered.
const CHANGES: [(usize, u8, &str, usize); 10] = [
    (2, 0x54, "BadMark", 0),
    (3, 2, "BadVersion", 3),
    (3, 3, "BadVersion", 3),
    (4, 14, "BadLength", 4),
    (34, 1, "BadRef", 51),
    (34, 49, "BadLength", 33),
    (35, 9, "BadKind", 35),
    (45, 0, "BadLength", 44),
    (55, 2, "BadRef", 51),
    (74, 0, "Ok", 0),
];

/// Whether each single change is told, and a byte too many.
pub fn are_changes_told(alloc: Global) -> Mem<bool> {
    for (place, byte, name, offset) in CHANGES {
        let bytes = spoiled(alloc, &WORKED, place, byte)?;
        if told(decode(alloc, &bytes)) != (name, offset) {
            return Ok(false);
        }
    }
    let mut longer = Vec::from_slice(alloc, &WORKED)?;
    longer.push(0)?;
    Ok(told(decode(alloc, &longer)) == ("Trailing", 74))
}

/// Versions of the format with lengths of a Block, and what is answered.
const LENGTHS: [(u8, u16, &str, usize); 6] = [
    (1, 4096, "Ok", 0),
    (1, 4097, "BadLength", 44),
    (2, 4096, "BadVersion", 3),
    (2, 4097, "Ok", 0),
    (2, 8192, "Ok", 0),
    (2, 8193, "BadLength", 44),
];

// Whether these bytes spell a segment that is written so again.
fn is_written_so(alloc: Global, bytes: &[u8]) -> Mem<bool> {
    match decode(alloc, bytes) {
        Ok(segment) => Ok(encode(alloc, &segment)?.as_slice() == bytes),
        Err(_) => Ok(false),
    }
}

/// Whether each version has the Blocks that need it and no others, and those are written as they are read.
pub fn are_lengths_told(alloc: Global) -> Mem<bool> {
    for (version, length, name, offset) in LENGTHS {
        let bytes = resized(alloc, version, length)?;
        let is_so = if name == "Ok" {
            is_written_so(alloc, &bytes)?
        } else {
            told(decode(alloc, &bytes)) == (name, offset)
        };
        if !is_so {
            return Ok(false);
        }
    }
    Ok(true)
}

/// Whether the segment of a manager is written as it is read.
pub fn is_part_written(alloc: Global) -> Mem<bool> {
    is_written_so(alloc, &PART)
}
