//! Which words a line of an act has.
ghost use Rattle.std.specs.Prelude.{◌≡◌, Some, None, MatchOption};
ghost use Rattle.std.specs.List.{list_all};
ghost use Rattle.script_text.specs.Reading.{cut_at};
ghost use Rattle.script_text.specs.Words.{words as all_words};
ghost use Rattle.audit.specs.Shapes.{is_digit, are_digits, is_numbered, is_writer, count_of, is_block, is_version, is_flight, is_fall, is_segment, verb_of, fits, shape_of};

use script_text::word::{Words, cut_at, spells};

/// What an act did.
#[derive(Clone, Copy, PartialEq, Eq)]
pub enum Verb {
    /// `a wrote c1 1/0 "x"`
    Wrote,
    /// `a read c2 1/0 v1 "x"`
    Read,
    /// `a synced c1`
    Synced,
    /// `a fell c1 1.1 1/0:0:1`, or with `none` for what was in flight
    Fell,
    /// `a back c1 c1.1.1.1`
    Back,
    /// `a lost c2 c1.1.1.1`
    Lost,
    /// `a filed c1.1.1.1`
    Filed,
    /// `a dropped c1.1.1.1`
    Dropped,
}

fn is_digit(byte: &u8) -> bool
    ensures { result ≡ is_digit byte.now }
{
    byte.is_ascii_digit()
}

fn has_only_digits(bytes: &[u8]) -> bool
    ensures { result ≡ list_all is_digit bytes.now }
{
    bytes.iter().all(is_digit)
}

/// Whether all bytes are digits, and there is one.
fn are_digits(bytes: &[u8]) -> bool
    ensures { result ≡ are_digits bytes.now }
{
    !bytes.is_empty() && has_only_digits(bytes)
}

/// Whether a word is a letter and digits.
pub fn is_numbered(letter: u8, word: &[u8]) -> bool
    ensures { result ≡ is_numbered letter word.now }
{
    match word {
        [] => false,
        [first, digits @ ..] => *first == letter && are_digits(digits),
    }
}

/// Whether a word is of the form of the writer of a log.
pub fn is_writer(word: &[u8]) -> bool
    ensures { result ≡ is_writer word.now }
{
    is_numbered(b'c', word) || is_numbered(b'm', word) || spells(word, b"cl")
}

/// How often a byte stands in a word.
fn count_of(mark: u8, word: &[u8]) -> usize
    ensures { result ≡ count_of mark word.now }
{
    word.iter().filter(|byte| **byte == mark).count()
}

/// Whether a word is of the form of a block, as `1/0`.
fn is_block(word: &[u8]) -> bool
    ensures { result ≡ is_block word.now }
{
    count_of(b'/', word) == 1
}

/// Whether a word is of the form of a version, as `v1`.
fn is_version(word: &[u8]) -> bool
    ensures { result ≡ is_version word.now }
{
    match word {
        [] => false,
        [first, ..] => *first == b'v',
    }
}

/// Whether a word is of the form of a segment in flight, as `1.1` or `none`.
fn is_flight(word: &[u8]) -> bool
    ensures { result ≡ is_flight word.now }
{
    spells(word, b"none") || count_of(b'.', word) == 1
}

/// The two parts of a word around the first of a byte; none where it has none.
pub fn parts_at(word: &[u8], mark: u8) -> Option<(&[u8], &[u8])>
    ensures { MatchOption result (cut_at mark word.now ≡ None) (λ p. cut_at mark word.now ≡ Some (p.0.now, p.1.now)) }
{
    match cut_at(word, mark) {
        None => None,
        Some((front, back)) => Some((front, back)),
    }
}

/// Whether a word is of the form of a fall, as `1/0:0:1`.
fn is_fall(word: &[u8]) -> bool
    ensures { result ≡ is_fall word.now }
{
    match parts_at(word, b':') {
        None => false,
        Some((block, versions)) => is_block(block) && count_of(b':', versions) == 1,
    }
}

/// Whether a word is of the form of a segment, as `c1.1.1.1`.
fn is_segment(word: &[u8]) -> bool
    ensures { result ≡ is_segment word.now }
{
    match parts_at(word, b'.') {
        None => false,
        Some((log, numbers)) => is_writer(log) && count_of(b'.', numbers) == 2,
    }
}

/// Whether all words that are left are of the form of a fall.
fn are_falls(words: Words) -> bool
    ensures { result ≡ list_all is_fall words.entry }
{
    let mut words = words;
    while !words.is_end() {
        if !is_fall(words.next()) {
            return false;
        }
    }
    true
}

/// Whether all words that are left are of the form of a segment.
fn are_segments(words: Words) -> bool
    ensures { result ≡ list_all is_segment words.entry }
{
    let mut words = words;
    while !words.is_end() {
        if !is_segment(words.next()) {
            return false;
        }
    }
    true
}

/// What a word says that an act did.
fn verb_of(word: &[u8]) -> Option<Verb>
    ensures { result ≡ verb_of word.now }
{
    if spells(word, b"wrote") {
        Some(Verb::Wrote)
    } else if spells(word, b"read") {
        Some(Verb::Read)
    } else if spells(word, b"synced") {
        Some(Verb::Synced)
    } else if spells(word, b"fell") {
        Some(Verb::Fell)
    } else if spells(word, b"back") {
        Some(Verb::Back)
    } else if spells(word, b"lost") {
        Some(Verb::Lost)
    } else if spells(word, b"filed") {
        Some(Verb::Filed)
    } else if spells(word, b"dropped") {
        Some(Verb::Dropped)
    } else {
        None
    }
}

/// Whether the words behind a verb are of its form.
fn fits(verb: Verb, words: Words) -> bool
    ensures { result ≡ fits verb words.entry }
{
    let mut words = words;
    match verb {
        Verb::Wrote => {
            is_numbered(b'c', words.next()) && is_block(words.next()) && !words.is_end()
        }
        Verb::Read => {
            is_numbered(b'c', words.next())
                && is_block(words.next())
                && is_version(words.next())
                && !words.is_end()
        }
        Verb::Synced => is_numbered(b'c', words.next()) && words.is_end(),
        Verb::Fell => {
            is_numbered(b'c', words.next()) && is_flight(words.next()) && are_falls(words)
        }
        Verb::Back => is_numbered(b'c', words.next()) && are_segments(words),
        Verb::Lost => is_writer(words.next()) && is_segment(words.next()) && words.is_end(),
        Verb::Filed => is_segment(words.next()) && words.is_end(),
        Verb::Dropped => is_segment(words.next()) && words.is_end(),
    }
}

/// What a line of an act says was done; none where its words are of no act.
pub fn shape_of(line: &[u8]) -> Option<Verb>
    ensures { result ≡ shape_of (all_words line.now) }
{
    let mut words = Words::of(line);
    if !spells(words.next(), b"a") {
        return None;
    }
    match verb_of(words.next()) {
        None => None,
        Some(verb) => { if fits(verb, words) { Some(verb) } else { None } }
    }
}
