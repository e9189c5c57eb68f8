//! Why bytes are no script.
ghost use Rattle.std.specs.Prelude.{◌≡◌};

use std::alloc::{AllocError, AllocFailed};
use xfs_base::Crosses;

/// Why the first bad line is bad. `docs/LANGUAGE.md` says when each kind comes.
#[derive(Clone, Copy, PartialEq, Eq)]
pub enum Kind {
    /// The setup is not whole, or a line of it is malformed.
    BadSetup,
    /// No form has these words.
    BadWord,
    /// A number is malformed or out of its range.
    BadNumber,
    /// A text or a path is malformed.
    BadText,
    /// A limit is passed.
    TooLong,
    /// The setup has no such node.
    NoNode,
    /// A crash has no later restart, in a run with threads.
    Unclosed,
    /// The form is not built. No line is refused so.
    Unbuilt,
}

/// Why a line is not taken.
#[derive(Clone, Copy)]
pub enum LineError {
    /// It is bad, of this kind.
    Bad(Kind),
    /// Want of memory.
    Memory,
}

impl From<AllocError> for LineError {
    ghost use Rattle.script_text.specs.declared.refusal.LineError.TheVariants.{Memory};

    ghost from_gives = { λ _ e. e ≡ Memory };

    fn from(_error: AllocError) -> LineError {
        LineError::Memory
    }
}

/// Why `parse` gives no script.
#[derive(Clone, Copy, PartialEq, Eq)]
pub enum ScriptError {
    /// The first bad line, counted from 1, and why it is bad.
    Bad(u32, Kind),
    /// Want of memory.
    Memory,
}

impl Crosses for Kind {}

impl Crosses for ScriptError {}
