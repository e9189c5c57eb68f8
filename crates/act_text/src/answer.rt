//! The texts of answers.
ghost use Rattle.std.specs.Prelude.{◌≡◌, ◌++◌, OnOk};
ghost use Rattle.version_model.specs.declared.answer.Answer.TheVariants.{Got, Rebuilt};
ghost use Rattle.act_text.specs.Answers.{fault_word, names_text, more_names, answer_text};

use crate::piece::{add_log_seq, add_marked, add_number, add_value};
use script_print::spelling::add_quoted;
use std::alloc::Global;
use version_model::{Answer, FileFault};
use xfs_base::{Mem, Text, Value};

/// The word of a refusal of a call on files.
fn fault_word(fault: FileFault) -> &'static [u8]
    ensures { result.now ≡ fault_word fault }
{
    match fault {
        FileFault::NoEntry => b"noentry",
        FileFault::Exists => b"exists",
        FileFault::NotDir => b"notdir",
        FileFault::IsDir => b"isdir",
        FileFault::BadName => b"badname",
        FileFault::DirFull => b"dirfull",
        FileFault::TooBig => b"toobig",
        FileFault::BadDir => b"baddir",
    }
}

/// Appends names, with a space before each.
fn add_more_names(text: &mut Text, names: &[Text]) -> Mem<()>
    ensures { OnOk result (text.new ≡ text.old ++ more_names names.now) }
{
    for name in names {
        text.add(b" ")?;
        text.add(name.as_bytes())?;
    }
    Ok(())
}

/// Appends names, parted by spaces.
fn add_names(text: &mut Text, names: &[Text]) -> Mem<()>
    ensures { OnOk result (text.new ≡ text.old ++ names_text names.now) }
{
    match names {
        [] => text.add(b"empty"),
        [name, more @ ..] => {
            text.add(name.as_bytes())?;
            add_more_names(text, more)
        }
    }
}

/// Appends how many fragments were filled in and how many are gone.
fn add_rebuilt(alloc: Global, text: &mut Text, filled: u32, gone: u32) -> Mem<()>
    ensures { OnOk result (text.new ≡ text.old ++ answer_text (Rebuilt filled gone)) }
{
    add_marked(alloc, text, b"ok ", u64::from(filled))?;
    add_marked(alloc, text, b" gone ", u64::from(gone))
}

/// Appends a version and its value.
fn add_got(alloc: Global, text: &mut Text, ver: u64, value: &Value) -> Mem<()>
    ensures { OnOk result (text.new ≡ text.old ++ answer_text (Got ver value.now)) }
{
    add_marked(alloc, text, b"v", ver)?;
    text.add(b" ")?;
    add_value(text, value)
}

/// Appends an answer.
pub fn add_answer(alloc: Global, text: &mut Text, answer: &Answer) -> Mem<()>
    ensures { OnOk result (text.new ≡ text.old ++ answer_text answer.now) }
{
    match answer {
        Answer::Version(ver) => add_marked(alloc, text, b"v", *ver),
        Answer::Got(ver, value) => add_got(alloc, text, *ver, value),
        Answer::Done => text.add(b"ok"),
        Answer::Made(ino) => add_marked(alloc, text, b"ino ", u64::from(*ino)),
        Answer::Bytes(bytes) => add_quoted(text, bytes.as_slice()),
        Answer::Size(size) => add_number(alloc, text, *size),
        Answer::Names(names) => add_names(text, names.as_slice()),
        Answer::Epoch(epoch) => add_marked(alloc, text, b"ok epoch ", u64::from(*epoch)),
        Answer::Count(count) => add_marked(alloc, text, b"ok ", u64::from(*count)),
        Answer::Rebuilt(filled, gone) => add_rebuilt(alloc, text, *filled, *gone),
        Answer::Busy => text.add(b"busy"),
        Answer::Down => text.add(b"down"),
        Answer::Up => text.add(b"up"),
        Answer::Cut => text.add(b"cut"),
        Answer::Lost(seg) => {
            text.add(b"lost ")?;
            add_log_seq(alloc, text, *seg)
        }
        Answer::File(fault) => text.add(fault_word(*fault)),
    }
}
