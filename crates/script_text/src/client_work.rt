//! Reading the works of clients.
ghost use Rattle.std.specs.Prelude.{◌≡◌, ◌<◌, ◌≤◌, length, Some, IfOk, IfErr};
ghost use Rattle.xfs_base.specs.Limits.{max_value};
ghost use Rattle.script_text.specs.declared.form.Form.TheVariants.{Bget, Bput, Get, Ls, Mk, Mkdir, Mv, Put, Rm, Size};
ghost use Rattle.script_text.specs.Words.{words};
ghost use Rattle.script_text.specs.Outcome.{Answers};
ghost use Rattle.script_text.specs.Reading.{read_work};

use crate::LineError;
use crate::operands::{client, operands, path};
use crate::part::{read_number, read_raw};
use crate::path::read_path;
use crate::text::read_text;
use std::alloc::Global;
use version_model::{FileCall, Work};
use xfs_base::limits::{MAX_TEXT, MAX_VALUE};
use xfs_base::{BlockId, Bytes, Ino, Setup, Text, Value};

/// The value of a text that a block holds.
fn value_of(alloc: Global, text: &Text) -> Result<Value, LineError>
    requires { (0 < length text.now) × (length text.now ≤ max_value) }
    ensures value { IfOk result (λ value. value ≡ Some text.now) }
    ensures memory { IfErr result (λ error. error ≡ LineError.Memory) }
{
    match Value::of(alloc, text.as_bytes()) {
        Ok(value) => Ok(value),
        Err(_) => Err(LineError::Memory),
    }
}

/// Reads a line of `bput`.
pub fn bput(alloc: Global, setup: &Setup, room: usize, line: &[u8]) -> Result<Work, LineError>
    ensures { Answers result (read_work (record { setup = setup.now; room = room }) Bput (words line.now)) }
{
    let client = client(setup, line)?;
    let mut words = operands(line);
    let ino = read_raw(&mut words)?;
    let blk = read_number(0, u32::MAX, &mut words)?;
    let text = read_text(alloc, false, MAX_VALUE.min(room), &mut words)?;
    let block = BlockId { ino: Ino(ino), blk };
    let value = value_of(alloc, &text)?;
    Ok(Work::Bput {
        client,
        block,
        value,
    })
}

/// Reads a line of `bget`.
pub fn bget(setup: &Setup, line: &[u8]) -> Result<Work, LineError>
    ensures { (room : _) → Answers result (read_work (record { setup = setup.now; room = room }) Bget (words line.now)) }
{
    let client = client(setup, line)?;
    let mut words = operands(line);
    let ino = read_number(0, u32::MAX, &mut words)?;
    let blk = read_number(0, u32::MAX, &mut words)?;
    let block = BlockId { ino: Ino(ino), blk };
    Ok(Work::Bget { client, block })
}

/// Reads a line of `put`.
pub fn put(alloc: Global, setup: &Setup, room: usize, line: &[u8]) -> Result<Work, LineError>
    ensures { Answers result (read_work (record { setup = setup.now; room = room }) Put (words line.now)) }
{
    let client = client(setup, line)?;
    let mut words = operands(line);
    let path = read_path(alloc, &mut words)?;
    let offset = read_number(0, u32::MAX, &mut words)?;
    let text = read_text(alloc, true, MAX_TEXT.min(room), &mut words)?;
    let bytes = Bytes::from_list(text.into_list())?;
    let call = FileCall::Put {
        path,
        offset,
        bytes,
    };
    Ok(Work::File { client, call })
}

/// Reads a line of `get`.
pub fn get(alloc: Global, setup: &Setup, line: &[u8]) -> Result<Work, LineError>
    ensures { (room : _) → Answers result (read_work (record { setup = setup.now; room = room }) Get (words line.now)) }
{
    let client = client(setup, line)?;
    let mut words = operands(line);
    let path = read_path(alloc, &mut words)?;
    let offset = read_number(0, u32::MAX, &mut words)?;
    let len = read_number(0, MAX_TEXT as u32, &mut words)?;
    let call = FileCall::Get { path, offset, len };
    Ok(Work::File { client, call })
}

/// Reads a line of `mv`.
pub fn mv(alloc: Global, setup: &Setup, line: &[u8]) -> Result<Work, LineError>
    ensures { (room : _) → Answers result (read_work (record { setup = setup.now; room = room }) Mv (words line.now)) }
{
    let client = client(setup, line)?;
    let mut words = operands(line);
    let from = read_path(alloc, &mut words)?;
    let to = read_path(alloc, &mut words)?;
    let call = FileCall::Mv { from, to };
    Ok(Work::File { client, call })
}

/// Reads a line of `mk`.
pub fn mk(alloc: Global, setup: &Setup, line: &[u8]) -> Result<Work, LineError>
    ensures { (room : _) → Answers result (read_work (record { setup = setup.now; room = room }) Mk (words line.now)) }
{
    let client = client(setup, line)?;
    let path = path(alloc, line)?;
    let call = FileCall::Mk { path };
    Ok(Work::File { client, call })
}

/// Reads a line of `mkdir`.
pub fn mkdir(alloc: Global, setup: &Setup, line: &[u8]) -> Result<Work, LineError>
    ensures { (room : _) → Answers result (read_work (record { setup = setup.now; room = room }) Mkdir (words line.now)) }
{
    let client = client(setup, line)?;
    let path = path(alloc, line)?;
    let call = FileCall::Mkdir { path };
    Ok(Work::File { client, call })
}

/// Reads a line of `size`.
pub fn size(alloc: Global, setup: &Setup, line: &[u8]) -> Result<Work, LineError>
    ensures { (room : _) → Answers result (read_work (record { setup = setup.now; room = room }) Size (words line.now)) }
{
    let client = client(setup, line)?;
    let path = path(alloc, line)?;
    let call = FileCall::Size { path };
    Ok(Work::File { client, call })
}

/// Reads a line of `ls`.
pub fn ls(alloc: Global, setup: &Setup, line: &[u8]) -> Result<Work, LineError>
    ensures { (room : _) → Answers result (read_work (record { setup = setup.now; room = room }) Ls (words line.now)) }
{
    let client = client(setup, line)?;
    let path = path(alloc, line)?;
    let call = FileCall::Ls { path };
    Ok(Work::File { client, call })
}

/// Reads a line of `rm`.
pub fn rm(alloc: Global, setup: &Setup, line: &[u8]) -> Result<Work, LineError>
    ensures { (room : _) → Answers result (read_work (record { setup = setup.now; room = room }) Rm (words line.now)) }
{
    let client = client(setup, line)?;
    let path = path(alloc, line)?;
    let call = FileCall::Rm { path };
    Ok(Work::File { client, call })
}
