//! Reading the script of an input, and what is answered where there is none.
ghost use Rattle.std.specs.Prelude.{◌≡◌, ◌≤◌, None, IfOk, IfErr};
ghost use Rattle.script_print.specs.Printing.{IsScript};
ghost use Rattle.top_call.specs.Claim.{writing, reading, ReadsAtMost};
ghost use Rattle.top_call.specs.Input.{limit};
ghost use Rattle.top_call.specs.Told.{IsPlain};
ghost use Rattle.top_call.specs.Unread.{IsScriptRead, IsWhy, TellsWhy};

use crate::Outcome;
use crate::one_thread::{ended, refuse};
use crate::outside::{Sink, Source};
use crate::whole_input::{InputError, read_input};
use script_text::{Kind, Script, ScriptError, parse};
use std::alloc::Global;

/// Why no script of an input is played.
#[derive(Clone, Copy, PartialEq, Eq)]
pub enum Unread {
    /// A read failed.
    Failed,
    /// Want of memory.
    Memory,
    /// It has a bad line: the number of the first, and why that is bad.
    Bad(u32, Kind),
}

/// Reads an input, and gives the script that it spells. `live` refuses a script in which a node crashes for good.
pub(crate) fn read_script<S: Source>(
    alloc: Global,
    live: bool,
    source: &mut S,
) -> Result<Script, Unread>
    ensures found { IfOk result (λ script. IsScriptRead live (reading S.left S.faults source.old source.new) script) }
    ensures script { IfOk result (λ script. IsScript script) }
    ensures cause { IfErr result (λ why. IsWhy live (reading S.left S.faults source.old source.new) why) }
    ensures bounded { ReadsAtMost (reading S.left S.faults source.old source.new) limit }
    ensures read_later { S.faults source.old ≤ S.faults source.new }
{
    match read_input(alloc, source) {
        Ok(input) => match parse(alloc, input.as_bytes(), live) {
            Ok(script) => Ok(script),
            Err(ScriptError::Bad(number, kind)) => Err(Unread::Bad(number, kind)),
            Err(ScriptError::Memory) => Err(Unread::Memory),
        },
        Err(InputError::Failed) => Err(Unread::Failed),
        Err(InputError::Memory) => Err(Unread::Memory),
    }
}

/// Says why no script is played: writes the line that names the first bad line, or nothing.
pub(crate) fn end_unread<N, K: Sink>(alloc: Global, why: Unread, sink: &mut K) -> Outcome<N>
    ensures told { TellsWhy (writing K.written K.faults sink.old sink.new) result why }
    ensures no_run { result.estate ≡ None }
    ensures plain { IsPlain result }
    ensures later { K.faults sink.old ≤ K.faults sink.new }
{
    match why {
        Unread::Failed => ended(4),
        Unread::Memory => ended(7),
        Unread::Bad(number, kind) => refuse(alloc, number, kind, sink),
    }
}
