//! Reading the parts of a line that are numbers and nodes.
ghost use Rattle.std.specs.Prelude.{◌≡◌, ◌≤◌, ◌<◌, IfSome};
ghost use Rattle.script_text.specs.Words.{first, behind};
ghost use Rattle.script_text.specs.Outcome.{Answers, or_fault};
ghost use Rattle.script_text.specs.declared.refusal.Kind.TheVariants.{BadNumber};
ghost use Rattle.script_text.specs.Reading.{number_in, raw_in, number_behind, read_node};

use crate::word::{Words, number_of};
use crate::{Kind, LineError};
use xfs_base::Ino;

/// The number that a word writes, at least and at most this.
pub fn number_in(least: u32, limit: u32, word: &[u8]) -> Option<u32>
    ensures exact { result ≡ number_in least limit word.now }
    ensures range { IfSome result (λ n. (least ≤ n) × (n ≤ limit)) }
{
    match number_of(word) {
        None => None,
        Some(number) => {
            if least <= number && number <= limit {
                Some(number)
            } else {
                None
            }
        }
    }
}

fn raw_in(word: &[u8]) -> Option<u32>
    ensures { result ≡ raw_in word.now }
{
    match number_of(word) {
        None => None,
        Some(number) => {
            if number > 0 && Ino(number).creator() == 0 {
                Some(number)
            } else {
                None
            }
        }
    }
}

/// The number behind a letter.
fn number_behind(letter: u8, word: &[u8]) -> Option<u32>
    ensures { result ≡ number_behind letter word.now }
{
    match word {
        [] => None,
        [b, digits @ ..] => {
            if *b == letter {
                number_of(digits)
            } else {
                None
            }
        }
    }
}

/// Takes a number, at least and at most this.
pub fn read_number(least: u32, limit: u32, words: &mut Words) -> Result<u32, LineError>
    ensures read { Answers result (or_fault BadNumber (number_in least limit (first words.old))) }
    ensures left { words.new ≡ behind words.old }
{
    match number_in(least, limit, words.next()) {
        None => Err(LineError::Bad(Kind::BadNumber)),
        Some(number) => Ok(number),
    }
}

/// Takes a raw index number.
pub fn read_raw(words: &mut Words) -> Result<u32, LineError>
    ensures read { Answers result (or_fault BadNumber (raw_in (first words.old))) }
    ensures left { words.new ≡ behind words.old }
{
    match raw_in(words.next()) {
        None => Err(LineError::Bad(Kind::BadNumber)),
        Some(number) => Ok(number),
    }
}

/// Takes a node of this letter, of so many.
pub fn read_node(letter: u8, count: u8, words: &mut Words) -> Result<u8, LineError>
    ensures read { Answers result (read_node letter count (first words.old)) }
    ensures left { words.new ≡ behind words.old }
{
    match number_behind(letter, words.next()) {
        None => Err(LineError::Bad(Kind::BadNumber)),
        Some(number) => {
            if 0 < number && number <= count as u32 {
                Ok(number as u8)
            } else {
                Err(LineError::Bad(Kind::NoNode))
            }
        }
    }
}
