//! Reading the whole input.
ghost use Rattle.std.specs.Prelude.{◌<◌, ◌≤◌, length, IfOk, IsErrOf};
ghost use Rattle.std.specs.Io.KnownBytes.{Consumes};
ghost use Rattle.xfs_base.specs.Causes.{Rose};
ghost use Rattle.top_call.specs.Input.{limit, ReadWhole};

use crate::Source;
use std::alloc::Global;
use xfs_base::limits::MAX_BYTES;
use xfs_base::{Failed, Text};

/// The most bytes that are ever read: one more than a script may have.
pub const LIMIT: usize = MAX_BYTES + 1;

/// Why an input was not read.
#[derive(Clone, Copy, PartialEq, Eq)]
pub enum InputError {
    /// A read failed.
    Failed,
    /// Want of memory.
    Memory,
}

/// Reads the input to its end or to the limit, never further. `Failed` only where the source's count of
/// faults rose. Each turn took at least one byte, found the end or failed, so the bytes that may still
/// come bound the turns.
pub fn read_input<S: Source>(alloc: Global, source: &mut S) -> Result<Text, InputError>
    ensures whole { IfOk result (λ text. ReadWhole (S.left source.old) text) }
    ensures bound { IfOk result (λ text. length text ≤ limit) }
    ensures consumes { IfOk result (λ text. Consumes (S.left source.old) (S.left source.new) text) }
    ensures taken { (bytes : _) × (length bytes ≤ limit) × Consumes (S.left source.old) (S.left source.new) bytes }
    ensures later { S.faults source.old ≤ S.faults source.new }
    ensures failed { IsErrOf result InputError.Failed → Rose (S.faults source.old) (S.faults source.new) }
{
    let mut text = Text::new(alloc);
    let mut room = [0u8; 4096];
    while text.as_bytes().len() < LIMIT {
        let wanted = usize::min(4096, LIMIT - text.as_bytes().len());
        let got = match source.read(&mut room[..wanted]) {
            Ok(got) => got,
            Err(Failed) => return Err(InputError::Failed),
        };
        if got == 0 {
            return Ok(text);
        }
        match text.add(&room[..got]) {
            Ok(()) => {}
            Err(_) => return Err(InputError::Memory),
        }
    }
    Ok(text)
}
