//! Why bytes are no segment.
ghost use Rattle.std.specs.Prelude.{◌≡◌};
ghost use Rattle.segment_format.specs.declared.seg_error.SegError.TheVariants.{Memory};

use std::alloc::AllocError;
use thiserror::Error;

/// Why bytes are no segment: the first place, from the left, at which no segment's text can go on, or a
/// second version that no Block needs, with its offset in bytes from 0. `docs/FORMATS.md` says when each
/// comes.
#[derive(Debug, Drop, Error)]
pub enum SegError {
    /// The bytes end within the field that begins here.
    #[error("the field at {0} is cut off")]
    Short(usize),
    /// The first three bytes are not the mark of a segment.
    #[error("no mark of a segment at {0}")]
    BadMark(usize),
    /// The version is neither 1 nor 2, or it is 2 and no Block needs it.
    #[error("an unknown version at {0}")]
    BadVersion(usize),
    /// The kind of an item is none of the three.
    #[error("an unknown kind of item at {0}")]
    BadKind(usize),
    /// A length, a count, a slot, a log or a flag is out of its range, or there are more items than a
    /// segment may have.
    #[error("a number out of its range at {0}")]
    BadLength(usize),
    /// A Block without its Delta, or a Delta that names another place than its Block's.
    #[error("an item at {0} that breaks the rule on deltas")]
    BadRef(usize),
    /// Bytes stand after the last item.
    #[error("bytes after the last item, from {0} on")]
    Trailing(usize),
    /// Want of memory.
    #[error("out of memory")]
    Memory,
}

impl From<AllocError> for SegError {
    ghost from_gives = { λ _ e. e ≡ Memory };

    fn from(_e: AllocError) -> SegError {
        SegError::Memory
    }
}
