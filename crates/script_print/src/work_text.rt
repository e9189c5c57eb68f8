//! The line of a work: the words of its form, each part by its one spelling.
ghost use Rattle.std.specs.Prelude.{◌≡◌, ◌∷◌, ◌++◌, codes, OnOk, Some};
ghost use Rattle.std.specs.Fmt.{decimal};
ghost use Rattle.version_model.specs.declared.work.Work.TheVariants as works;
ghost use Rattle.script_print.specs.Printing.{path_text, work_line};

use crate::spelling::{add_node, add_number, add_path, add_text, add_word};
use std::alloc::Global;
use version_model::{FileCall, Work};
use xfs_base::{BlockId, List, Mem, NodeId, Text, Value};

/// Appends a node and what is asked of it.
fn add_order(alloc: Global, out: &mut Text, letter: u8, number: u8, verb: &[u8]) -> Mem<()>
    ensures { OnOk result (out.new ≡ out.old ++ letter ∷ (decimal number ++ 32 ∷ verb.now)) }
{
    add_node(alloc, out, letter, number)?;
    add_word(out, verb)?;
    Ok(())
}

/// Appends a number for the network behind what is asked of it.
fn add_net(alloc: Global, out: &mut Text, verb: &[u8], number: u32) -> Mem<()>
    ensures { OnOk result (out.new ≡ out.old ++ codes "net" ++ 32 ∷ (verb.now ++ 32 ∷ decimal number)) }
{
    out.add(b"net")?;
    add_word(out, verb)?;
    add_number(alloc, out, number)?;
    Ok(())
}

/// Appends a call on one path.
fn add_on_path(alloc: Global, out: &mut Text, client: u8, verb: &[u8], path: &List<Text>) -> Mem<()>
    ensures { OnOk result (out.new ≡ out.old ++ 99 ∷ (decimal client ++ 32 ∷ (verb.now ++ 32 ∷ path_text path.now))) }
{
    add_order(alloc, out, b'c', client, verb)?;
    add_path(out, path)?;
    Ok(())
}

/// Appends a write of a block; no line writes Absent.
fn add_bput(alloc: Global, out: &mut Text, client: u8, block: BlockId, value: &Value) -> Mem<()>
    ensures { OnOk result (out.new ≡ out.old ++ work_line (works.Bput client block value.now)) }
{
    match value.bytes() {
        None => Ok(()),
        Some(bytes) => {
            add_order(alloc, out, b'c', client, b"bput")?;
            add_number(alloc, out, block.ino.0)?;
            add_number(alloc, out, block.blk)?;
            add_text(out, bytes)?;
            Ok(())
        }
    }
}

/// Appends a read of a block.
fn add_bget(alloc: Global, out: &mut Text, client: u8, block: BlockId) -> Mem<()>
    ensures { OnOk result (out.new ≡ out.old ++ work_line (works.Bget client block)) }
{
    add_order(alloc, out, b'c', client, b"bget")?;
    add_number(alloc, out, block.ino.0)?;
    add_number(alloc, out, block.blk)?;
    Ok(())
}

/// Appends a call on files.
fn add_call(alloc: Global, out: &mut Text, client: u8, call: &FileCall) -> Mem<()>
    ensures { OnOk result (out.new ≡ out.old ++ work_line (works.File client call.now)) }
{
    match call {
        FileCall::Mk { path } => add_on_path(alloc, out, client, b"mk", path),
        FileCall::Mkdir { path } => add_on_path(alloc, out, client, b"mkdir", path),
        FileCall::Put {
            path,
            offset,
            bytes,
        } => {
            add_on_path(alloc, out, client, b"put", path)?;
            add_number(alloc, out, *offset)?;
            add_text(out, bytes.as_slice())?;
            Ok(())
        }
        FileCall::Get { path, offset, len } => {
            add_on_path(alloc, out, client, b"get", path)?;
            add_number(alloc, out, *offset)?;
            add_number(alloc, out, *len)?;
            Ok(())
        }
        FileCall::Size { path } => add_on_path(alloc, out, client, b"size", path),
        FileCall::Ls { path } => add_on_path(alloc, out, client, b"ls", path),
        FileCall::Rm { path } => add_on_path(alloc, out, client, b"rm", path),
        FileCall::Mv { from, to } => {
            add_on_path(alloc, out, client, b"mv", from)?;
            add_path(out, to)?;
            Ok(())
        }
    }
}

/// Appends a crash; no line crashes a storage server or the registry.
fn add_crash(alloc: Global, out: &mut Text, node: NodeId) -> Mem<()>
    ensures { OnOk result (out.new ≡ out.old ++ work_line (works.Crash node)) }
{
    match node {
        NodeId::Client(number) => add_order(alloc, out, b'c', number, b"crash"),
        NodeId::Manager(number) => add_order(alloc, out, b'm', number, b"crash"),
        NodeId::Cleaner => out.add(b"cl crash"),
        NodeId::Server(_) => Ok(()),
        NodeId::Registry => Ok(()),
    }
}

/// Appends a restart; no line restarts a storage server or the registry so.
fn add_restart(alloc: Global, out: &mut Text, node: NodeId) -> Mem<()>
    ensures { OnOk result (out.new ≡ out.old ++ work_line (works.Restart node)) }
{
    match node {
        NodeId::Client(number) => add_order(alloc, out, b'c', number, b"restart"),
        NodeId::Manager(number) => add_order(alloc, out, b'm', number, b"restart"),
        NodeId::Cleaner => out.add(b"cl restart"),
        NodeId::Server(_) => Ok(()),
        NodeId::Registry => Ok(()),
    }
}

/// Appends a slot and the manager that is to have it.
fn add_move(alloc: Global, out: &mut Text, slot: u8, manager: u8) -> Mem<()>
    ensures { OnOk result (out.new ≡ out.old ++ work_line (works.Move slot manager)) }
{
    out.add(b"reg move")?;
    add_number(alloc, out, slot as u32)?;
    out.add(b" ")?;
    add_node(alloc, out, b'm', manager)?;
    Ok(())
}

/// Appends how many segments the cleaner is to empty.
fn add_clean(alloc: Global, out: &mut Text, count: u32) -> Mem<()>
    ensures { OnOk result (out.new ≡ out.old ++ work_line (works.Clean count)) }
{
    out.add(b"cl clean")?;
    add_number(alloc, out, count)?;
    Ok(())
}

/// Appends the stop of a storage server.
fn add_server_stop(alloc: Global, out: &mut Text, server: u8, passes: u32) -> Mem<()>
    ensures { OnOk result (out.new ≡ out.old ++ work_line (works.ServerStop server passes)) }
{
    add_order(alloc, out, b's', server, b"stop")?;
    add_number(alloc, out, passes)?;
    Ok(())
}

/// Appends the line that asks for this work; nothing where none does.
pub fn add_work(alloc: Global, out: &mut Text, work: &Work) -> Mem<()>
    ensures { OnOk result (out.new ≡ out.old ++ work_line work.now) }
{
    match work {
        Work::Bput {
            client,
            block,
            value,
        } => add_bput(alloc, out, *client, *block, value),
        Work::Bget { client, block } => add_bget(alloc, out, *client, *block),
        Work::Sync { client } => add_order(alloc, out, b'c', *client, b"sync"),
        Work::File { client, call } => add_call(alloc, out, *client, call),
        Work::Crash { node } => add_crash(alloc, out, *node),
        Work::Restart { node } => add_restart(alloc, out, *node),
        Work::Checkpoint { manager } => add_order(alloc, out, b'm', *manager, b"checkpoint"),
        Work::Lose { server } => add_order(alloc, out, b's', *server, b"lose"),
        Work::Rebuild { server } => add_order(alloc, out, b's', *server, b"rebuild"),
        Work::Move { slot, manager } => add_move(alloc, out, *slot, *manager),
        Work::Clean { count } => add_clean(alloc, out, *count),
        Work::NetLose(count) => add_net(alloc, out, b"lose", *count),
        Work::NetAgain(count) => add_net(alloc, out, b"again", *count),
        Work::NetMix(number) => add_net(alloc, out, b"mix", *number),
        Work::NetHold => out.add(b"net hold"),
        Work::NetGo => out.add(b"net go"),
        Work::NetStep(count) => add_net(alloc, out, b"step", *count),
        Work::BoardStop(board) => add_order(alloc, out, b'b', *board, b"stop"),
        Work::BoardStart(board) => add_order(alloc, out, b'b', *board, b"start"),
        Work::ServerStop { server, passes } => add_server_stop(alloc, out, *server, *passes),
        Work::ServerStart(server) => add_order(alloc, out, b's', *server, b"start"),
    }
}
