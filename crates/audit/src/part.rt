//! Reading the parts of a line of an act.
ghost use Rattle.std.specs.Prelude.{◌≡◌, ◌<◌, ◌≤◌, IfOk, drop};
ghost use Rattle.script_text.specs.Outcome.{Answers};
ghost use Rattle.audit.specs.Shapes.{front, back};
ghost use Rattle.audit.specs.Acts.{read_number, read_counted, long_of, read_long, read_node, read_client, first_is, read_writer, read_block, read_version, value_of, read_value, read_flight, read_fall, IsFew, read_segment};

use crate::shape::parts_at;
use script_text::text::quoted_text;
use script_text::word::{decimal_of, number_of, spells};
use script_text::{Kind, LineError};
use std::alloc::Global;
use version_model::Fall;
use xfs_base::limits::{MAX_VALUE, MOST_CLIENTS, MOST_MANAGERS};
use xfs_base::{BlockId, Ino, NodeId, Pass, SegName, Text, Value, ValueError};

/// The most clients that a run has.
const CLIENTS: u32 = MOST_CLIENTS as u32;

/// The most managers that a run has.
const MANAGERS: u32 = MOST_MANAGERS as u32;

/// The number of a word.
fn read_number(word: &[u8]) -> Result<u32, LineError>
    ensures { Answers result (read_number word.now) }
{
    match number_of(word) {
        None => Err(LineError::Bad(Kind::BadNumber)),
        Some(number) => Ok(number),
    }
}

/// The number of a word, from 1.
fn read_counted(word: &[u8]) -> Result<u32, LineError>
    ensures { Answers result (read_counted word.now) }
{
    let number = read_number(word)?;
    if number == 0 {
        return Err(LineError::Bad(Kind::BadNumber));
    }
    Ok(number)
}

/// The number below 2^64 of a word.
fn long_of(word: &[u8]) -> Option<u64>
    ensures { result ≡ long_of word.now }
{
    match decimal_of(word) {
        None => None,
        Some(number) => Some(number),
    }
}

/// The number below 2^64 of a word, or its fault.
fn read_long(word: &[u8]) -> Result<u64, LineError>
    ensures { Answers result (read_long word.now) }
{
    match long_of(word) {
        None => Err(LineError::Bad(Kind::BadNumber)),
        Some(number) => Ok(number),
    }
}

/// The two parts of a word around a byte that stands in it.
fn cut(word: &[u8], mark: u8) -> (&[u8], &[u8])
    ensures front { result.0.now ≡ front mark word.now }
    ensures back { result.1.now ≡ back mark word.now }
{
    match parts_at(word, mark) {
        Some((front, back)) => (front, back),
        None => (word, &[]),
    }
}

/// A word without its first byte.
fn behind_letter(word: &[u8]) -> &[u8]
    ensures { result.now ≡ drop 1 word.now }
{
    match word {
        [] => word,
        [_, digits @ ..] => digits,
    }
}

/// The number of a node behind its letter, from 1 to the most there are, which are fewer than 256.
fn read_node_number(limit: u32, word: &[u8]) -> Result<u8, LineError>
    requires { limit < 256 }
    ensures node { Answers result (read_node limit word.now) }
    ensures few { IfOk result (λ number. number ≤ limit) }
{
    let number = read_number(behind_letter(word))?;
    if number == 0 || number > limit {
        return Err(LineError::Bad(Kind::NoNode));
    }
    Ok(number as u8)
}

/// The client of a word.
pub fn read_client(word: &[u8]) -> Result<u8, LineError>
    ensures { Answers result (read_client word.now) }
{
    read_node_number(CLIENTS, word)
}

/// Whether the first byte of a word is this one.
fn begins_with(word: &[u8], letter: u8) -> bool
    ensures { result ≡ first_is letter word.now }
{
    match word {
        [] => false,
        [first, ..] => *first == letter,
    }
}

/// The client, the manager or the cleaner of a word.
pub fn read_writer(word: &[u8]) -> Result<NodeId, LineError>
    ensures writer { Answers result (read_writer word.now) }
    ensures few { IfOk result (λ node. IsFew node) }
{
    if spells(word, b"cl") {
        return Ok(NodeId::Cleaner);
    }
    if begins_with(word, b'c') {
        Ok(NodeId::Client(read_client(word)?))
    } else {
        Ok(NodeId::Manager(read_node_number(MANAGERS, word)?))
    }
}

/// The block of a word.
pub fn read_block(word: &[u8]) -> Result<BlockId, LineError>
    ensures { Answers result (read_block word.now) }
{
    let (ino, blk) = cut(word, b'/');
    let ino = Ino(read_number(ino)?);
    let blk = read_number(blk)?;
    Ok(BlockId { ino, blk })
}

/// The version of a word, behind its letter.
pub fn read_version(word: &[u8]) -> Result<u64, LineError>
    ensures { Answers result (read_version word.now) }
{
    read_long(behind_letter(word))
}

/// The value of some bytes.
fn value_of(alloc: Global, text: &Text) -> Result<Value, LineError>
    ensures { Answers result (value_of text.now) }
{
    if text.is_empty() {
        return Err(LineError::Bad(Kind::BadText));
    }
    if text.len() > MAX_VALUE {
        return Err(LineError::Bad(Kind::TooLong));
    }
    match Value::of(alloc, text.as_bytes()) {
        Ok(value) => Ok(value),
        Err(ValueError::BadLength(_)) => Err(LineError::Bad(Kind::TooLong)),
        Err(ValueError::Memory) => Err(LineError::Memory),
    }
}

/// The value that the rest of a line is.
pub fn read_value(alloc: Global, rest: &[u8]) -> Result<Value, LineError>
    ensures { Answers result (read_value rest.now) }
{
    if spells(rest, b"absent") {
        return Ok(Value::absent());
    }
    match quoted_text(alloc, rest)? {
        None => Err(LineError::Bad(Kind::BadText)),
        Some(text) => value_of(alloc, &text),
    }
}

/// The segment in flight of a word: its number and its incarnation.
pub fn read_flight(word: &[u8]) -> Result<Option<(u32, u32)>, LineError>
    ensures { Answers result (read_flight word.now) }
{
    if spells(word, b"none") {
        return Ok(None);
    }
    let (seq, inc) = cut(word, b'.');
    let seq = read_counted(seq)?;
    let inc = read_counted(inc)?;
    Ok(Some((seq, inc)))
}

/// The fall of a word.
pub fn read_fall(word: &[u8]) -> Result<Fall, LineError>
    ensures { Answers result (read_fall word.now) }
{
    let (block, versions) = cut(word, b':');
    let (low, high) = cut(versions, b':');
    let block = read_block(block)?;
    let low = read_long(low)?;
    let high = read_long(high)?;
    Ok(Fall { block, low, high })
}

/// The segment of a word.
pub fn read_segment(word: &[u8]) -> Result<SegName, LineError>
    ensures { Answers result (read_segment word.now) }
{
    let (log, numbers) = cut(word, b'.');
    let (seq, pass) = cut(numbers, b'.');
    let (inc, att) = cut(pass, b'.');
    let log = read_writer(log)?.log();
    let seq = read_counted(seq)?;
    let inc = read_counted(inc)?;
    let att = read_counted(att)?;
    Ok(SegName {
        log,
        seq,
        pass: Pass { inc, att },
    })
}
