//! The lines that the program itself writes; `docs/LANGUAGE.md` describes them.
ghost use Rattle.std.specs.Prelude.{◌≡◌, ◌++◌, ◌∷◌, [], IfOk};
ghost use Rattle.std.specs.Fmt.{decimal};
ghost use Rattle.top_call.specs.Spoken.{kind_text, refused_text, verdict_text, usage_text};

use script_text::Kind;
use std::alloc::Global;
use version_model::Verdict;
use xfs_base::{Mem, Text};

/// The word of a kind of refusal.
fn kind_text(kind: Kind) -> &'static [u8]
    ensures { result.now ≡ kind_text kind }
{
    match kind {
        Kind::BadSetup => b"BadSetup",
        Kind::BadWord => b"BadWord",
        Kind::BadNumber => b"BadNumber",
        Kind::BadText => b"BadText",
        Kind::TooLong => b"TooLong",
        Kind::NoNode => b"NoNode",
        Kind::Unclosed => b"Unclosed",
        Kind::Unbuilt => b"Unbuilt",
    }
}

/// The line that names the first bad line and its kind.
pub fn refused(alloc: Global, number: u32, kind: Kind) -> Mem<Text>
    ensures { IfOk result (λ text. text ≡ refused_text number kind) }
{
    let mut text = Text::of(alloc, b"refused line ")?;
    text.add(number.to_string(alloc)?.as_str().as_bytes())?;
    text.add(b" ")?;
    text.add(kind_text(kind))?;
    text.add(b"\n")?;
    Ok(text)
}

/// A word and a number, as a line.
fn numbered(alloc: Global, word: &[u8], number: u64) -> Mem<Text>
    ensures { IfOk result (λ text. text ≡ word.now ++ (decimal number ++ 10 ∷ [])) }
{
    let mut text = Text::of(alloc, word)?;
    text.add(number.to_string(alloc)?.as_str().as_bytes())?;
    text.add(b"\n")?;
    Ok(text)
}

/// The line of what is said of a journal.
pub fn verdict(alloc: Global, verdict: Verdict) -> Mem<Text>
    ensures { IfOk result (λ text. text ≡ verdict_text verdict) }
{
    match verdict {
        Verdict::Legal(count) => numbered(alloc, b"legal ", count),
        Verdict::Illegal(line) => numbered(alloc, b"illegal ", line),
    }
}

/// The usage line.
pub fn usage() -> &'static [u8]
    ensures { result.now ≡ usage_text }
{
    b"usage: xfs run | live W | mount W | gen NUMBER N | big NUMBER N | audit | boards | disks\n"
}
