//! The words of a line, numbers, and cutting at a byte.
ghost use Rattle.std.specs.Prelude.{◌≡◌, ◌≢◌, ◌<◌, ◌^◌, ◌++◌, ◌∷◌, [], MatchOption, ◌==◌};
ghost use Rattle.std.specs.List.{position};
ghost use Rattle.std.specs.Str.{bytes_eq};
ghost use Rattle.std.specs.Fmt.{decimal};
ghost use Rattle.script_text.specs.Words.{Lacks, words, joined, first, behind, is_end, or_empty};
ghost use Rattle.script_text.specs.Reading.{number_of};

use std::marker::Model;
use std::str;

/// Whether a word is spelt as this text is.
pub fn spells(word: &[u8], text: &[u8]) -> bool
    ensures { result ≡ bytes_eq word.now text.now }
{
    word == text
}

/// The number below 2^64 that a word writes in decimal digits, without a sign or a leading zero; none
/// where it writes no such number.
pub fn decimal_of(word: &[u8]) -> Option<u64>
    ensures { MatchOption result ((n : _) → n < 2 ^ 64 → word.now ≢ decimal n) (λ n. word.now ≡ decimal n) }
{
    if word.is_empty() {
        return None;
    }
    if word[0] == b'+' {
        return None;
    }
    if word[0] == b'0' {
        return if word.len() == 1 { Some(0) } else { None };
    }
    match str::from_utf8(word) {
        Ok(text) => match text.parse::<u64>() {
            Ok(number) => Some(number),
            Err(_) => None,
        },
        Err(_) => None,
    }
}

/// The number that a word writes in decimal digits, without a sign or a leading zero; none where it
/// writes no number below 2^32.
pub fn number_of(word: &[u8]) -> Option<u32>
    ensures { result ≡ number_of word.now }
{
    match decimal_of(word) {
        None => None,
        Some(number) => {
            if number <= u32::MAX as u64 {
                Some(number as u32)
            } else {
                None
            }
        }
    }
}

fn place_of(bytes: &[u8], mark: u8) -> Option<usize>
    ensures { result ≡ position (λ b. b == mark) bytes.now }
{
    bytes.iter().position(|b| *b == mark)
}

/// What stands before the first of a byte, and what stands behind it; none where there is none.
pub fn cut_at(bytes: &[u8], mark: u8) -> Option<(&[u8], &[u8])>
    ensures { MatchOption result (Lacks mark bytes.now) (λ p. (bytes.now ≡ p.0.now ++ mark ∷ p.1.now) × Lacks mark p.0.now) }
{
    match place_of(bytes, mark) {
        None => None,
        Some(place) => {
            let (before, _) = bytes.split_at(place);
            let (_, after) = bytes.split_at(place + 1);
            Some((before, after))
        }
    }
}

/// The words of a line that are left, from left to right. Contracts see the list of them.
pub struct Words<'a> {
    rest: Option<&'a [u8]>,
}

impl<'a> Drop for Words<'a> {
    fn drop(self) {
        let Words { rest: _ } = self;
    }
}

impl<'a> Model for Words<'a> {
    ghost use Rattle.std.specs.Prelude.{List as Seq, ℕ};
    ghost use Rattle.script_text.specs.Reading.{left_of};

    ghost Value = { Seq (Seq ℕ) };

    ghost view = { λ w. left_of w.rest };
}

impl<'a> Words<'a> {
    /// All words of a line.
    pub fn of(line: &'a [u8]) -> Words<'a>
        ensures { result ≡ words line.now }
    {
        Words { rest: Some(line) }
    }

    /// Whether none is left.
    pub fn is_end(&self) -> bool
        ensures { result ≡ is_end self.now }
    {
        self.rest.is_none()
    }

    /// Takes the next word; the empty one where none is left.
    pub fn next(&mut self) -> &'a [u8]
        ensures word { result.now ≡ first self.old }
        ensures left { self.new ≡ behind self.old }
    {
        match self.rest {
            None => &[],
            Some(bytes) => match cut_at(bytes, b' ') {
                None => {
                    self.rest = None;
                    bytes
                }
                Some((word, rest)) => {
                    self.rest = Some(rest);
                    word
                }
            },
        }
    }

    /// Takes all that is left of the line, with the spaces.
    pub fn rest(&mut self) -> &'a [u8]
        ensures rest { result.now ≡ joined 32 self.old }
        ensures words { words result.now ≡ or_empty self.old }
        ensures left { self.new ≡ [] }
    {
        match self.rest {
            None => &[],
            Some(bytes) => {
                self.rest = None;
                bytes
            }
        }
    }
}
