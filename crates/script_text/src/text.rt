//! Reading texts.
ghost use Rattle.std.specs.Prelude.{◌≡◌, ◌<◌, ◌==◌, false, true, [], length, Some, IfOk, IfSome};
ghost use Rattle.std.specs.List.{repeat};
ghost use Rattle.script_text.specs.Words.{joined};
ghost use Rattle.script_text.specs.Text.{is_plain};
ghost use Rattle.script_text.specs.Outcome.{Answers, judge};
ghost use Rattle.script_text.specs.declared.refusal.Kind.TheVariants.{BadText, TooLong};
ghost use Rattle.script_text.specs.Reading.{hex_value, turn_at, IsMark, IsTurn, text_from, quoted_text, with_count, text_parts, counted_text, is_short, some_text, read_text, within_repeat};

use crate::word::{Words, cut_at, number_of};
use crate::{Kind, LineError};
use std::alloc::Global;
use xfs_base::{List, Mem, Text};

/// What a byte between quotes is read as.
#[derive(Clone, Copy)]
pub enum Mark {
    /// A byte of the text.
    Plain,
    /// What stands behind a backslash.
    Escape,
    /// The first hexadecimal digit of a byte.
    High,
    /// The second; with the value of the first.
    Low(u8),
}

/// What a byte does to the text that is read.
#[derive(Clone, Copy)]
pub enum Turn {
    /// It adds a byte.
    Adds(u8),
    /// It is read with the next.
    Goes(Mark),
    /// It closes the text.
    Closes,
    /// It may not stand here.
    Fails,
}

/// A text that is repeated.
pub struct Repeated {
    /// How often.
    pub count: u32,
    /// The text.
    pub text: Text,
}

impl Drop for Repeated {
    fn drop(self) {
        let Repeated { count: _, text } = self;
        drop(text);
    }
}

fn is_plain(b: u8) -> bool
    ensures { result ≡ is_plain b }
{
    0x20 <= b && b <= 0x7e && b != b'"' && b != b'\\'
}

fn hex_value(b: u8) -> Option<u8>
    ensures exact { result ≡ hex_value b }
    ensures small { IfSome result (λ n. n < 16) }
{
    match b {
        b'0'..=b'9' => Some(b - b'0'),
        b'a'..=b'f' => Some(b - b'a' + 10),
        _ => None,
    }
}

/// What a byte does at this mark.
fn turn_at(mark: Mark, b: u8) -> Turn
    requires { IsMark mark }
    ensures exact { result ≡ turn_at mark b }
    ensures mark { IsTurn result }
{
    match mark {
        Mark::Plain => {
            if b == b'"' {
                Turn::Closes
            } else if is_plain(b) {
                Turn::Adds(b)
            } else if b == b'\\' {
                Turn::Goes(Mark::Escape)
            } else {
                Turn::Fails
            }
        }
        Mark::Escape => {
            if b == b'x' {
                Turn::Goes(Mark::High)
            } else if b == b'"' || b == b'\\' {
                Turn::Adds(b)
            } else {
                Turn::Fails
            }
        }
        Mark::High => match hex_value(b) {
            None => Turn::Fails,
            Some(high) => Turn::Goes(Mark::Low(high)),
        },
        Mark::Low(high) => match hex_value(b) {
            None => Turn::Fails,
            Some(low) => Turn::Adds(16 * high + low),
        },
    }
}

/// The text whose bytes stand up to the closing quote, which is the last byte.
fn text_from(alloc: Global, bytes: &[u8]) -> Mem<Option<Text>>
    ensures { IfOk result (λ text. text ≡ text_from (Mark.Plain) bytes.now) }
{
    let mut text = Text::new(alloc);
    let mut mark = Mark::Plain;
    let mut rest = bytes;
    while let [b, after @ ..] = rest {
        match turn_at(mark, *b) {
            Turn::Adds(byte) => {
                text.add(&[byte])?;
                mark = Mark::Plain;
            }
            Turn::Goes(next) => mark = next,
            Turn::Closes => {
                return if after.is_empty() {
                    Ok(Some(text))
                } else {
                    Ok(None)
                };
            }
            Turn::Fails => return Ok(None),
        }
        rest = after;
    }
    Ok(None)
}

/// The text between quotes.
pub fn quoted_text(alloc: Global, word: &[u8]) -> Mem<Option<Text>>
    ensures { IfOk result (λ text. text ≡ quoted_text word.now) }
{
    match word {
        [b'"', bytes @ ..] => text_from(alloc, bytes),
        _ => Ok(None),
    }
}

/// The text between quotes, so often.
fn with_count(alloc: Global, count: u32, word: &[u8]) -> Mem<Option<Repeated>>
    ensures { IfOk result (λ parts. parts ≡ with_count count (quoted_text word.now)) }
{
    match quoted_text(alloc, word)? {
        None => Ok(None),
        Some(text) => Ok(Some(Repeated { count, text })),
    }
}

/// A count, a star and the text between quotes that is repeated so often.
fn counted_text(alloc: Global, word: &[u8]) -> Mem<Option<Repeated>>
    ensures { IfOk result (λ parts. parts ≡ counted_text word.now) }
{
    match cut_at(word, b'*') {
        None => Ok(None),
        Some((front, back)) => match number_of(front) {
            None => Ok(None),
            Some(count) => with_count(alloc, count, back),
        },
    }
}

/// How often a text is repeated, and the text.
fn text_parts(alloc: Global, word: &[u8]) -> Mem<Option<Repeated>>
    ensures { IfOk result (λ parts. parts ≡ text_parts word.now) }
{
    match word {
        [b'"', ..] => with_count(alloc, 1, word),
        _ => counted_text(alloc, word),
    }
}

/// The text so often, within a limit.
fn repeat_within(alloc: Global, limit: usize, parts: &Repeated) -> Result<Text, LineError>
    ensures { Answers result (within_repeat limit parts.now) }
{
    let piece = parts.text.as_bytes();
    let count = parts.count;
    let mut text = Text::new(alloc);
    for _ in 0..count {
        if piece.len() > limit - text.len() {
            return Err(LineError::Bad(Kind::TooLong));
        }
        text.add(piece)?;
    }
    Ok(text)
}

/// Whether a text so often has no byte.
fn is_nothing(parts: &Repeated) -> bool
    ensures { result ≡ (length (repeat parts.now.count parts.now.text) == 0) }
{
    if parts.count == 0 {
        return true;
    }
    parts.text.is_empty()
}

/// The text so often, which adds bytes, within a limit.
fn some_text(alloc: Global, limit: usize, parts: &Repeated) -> Result<Text, LineError>
    ensures { Answers result (judge BadText TooLong (is_short limit) (some_text false (Some parts.now))) }
{
    if is_nothing(parts) {
        return Err(LineError::Bad(Kind::BadText));
    }
    repeat_within(alloc, limit, parts)
}

/// The text so often, within a limit; no copy is made of one without a byte.
fn any_text(alloc: Global, limit: usize, parts: &Repeated) -> Result<Text, LineError>
    ensures { Answers result (judge BadText TooLong (is_short limit) (some_text true (Some parts.now))) }
{
    if is_nothing(parts) {
        return Ok(Text::new(alloc));
    }
    repeat_within(alloc, limit, parts)
}

/// Takes a text: the rest of the line.
pub fn read_text(
    alloc: Global,
    may_be_empty: bool,
    limit: usize,
    words: &mut Words,
) -> Result<Text, LineError>
    ensures read { Answers result (read_text may_be_empty limit (joined 32 words.old)) }
    ensures left { words.new ≡ [] }
{
    match text_parts(alloc, words.rest())? {
        None => Err(LineError::Bad(Kind::BadText)),
        Some(parts) => {
            if may_be_empty {
                any_text(alloc, limit, &parts)
            } else {
                some_text(alloc, limit, &parts)
            }
        }
    }
}
