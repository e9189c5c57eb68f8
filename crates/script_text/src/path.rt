//! Reading paths.
ghost use Rattle.std.specs.Prelude.{◌≡◌};
ghost use Rattle.script_text.specs.Words.{first, behind};
ghost use Rattle.script_text.specs.Outcome.{Answers};
ghost use Rattle.script_text.specs.Reading.{names_below, read_path};

use crate::word::{Words, cut_at};
use crate::{Kind, LineError};
use std::alloc::Global;
use xfs_base::{List, Text};

/// The most names of a path.
const MAX_NAMES: usize = 16;

/// The names between slashes.
fn names_of(alloc: Global, bytes: &[u8]) -> Result<List<Text>, LineError>
    ensures { Answers result (names_below bytes.now) }
{
    let mut names = List::new(alloc);
    let mut rest = bytes;
    while let Some((name, after)) = cut_at(rest, b'/') {
        if names.len() >= MAX_NAMES {
            return Err(LineError::Bad(Kind::TooLong));
        }
        names.push(Text::of(alloc, name)?)?;
        rest = after;
    }
    if names.len() >= MAX_NAMES {
        return Err(LineError::Bad(Kind::TooLong));
    }
    names.push(Text::of(alloc, rest)?)?;
    Ok(names)
}

/// Takes a path.
pub fn read_path(alloc: Global, words: &mut Words) -> Result<List<Text>, LineError>
    ensures read { Answers result (read_path (first words.old)) }
    ensures left { words.new ≡ behind words.old }
{
    match words.next() {
        [b'/'] => Ok(List::new(alloc)),
        [b'/', rest @ ..] => names_of(alloc, rest),
        _ => Err(LineError::Bad(Kind::BadText)),
    }
}
