//! The listing of a directory: its eight buckets in turn.
ghost use Rattle.std.specs.Prelude.{◌≡◌, ◌+◌, ◌<◌, ◌^◌, IfOk, map};
ghost use Rattle.file_plan.specs.Format.{read_rows};
ghost use Rattle.file_plan.specs.Plan.{gathering, gathered, shown};

use crate::bucket::read_bucket;
use crate::rows::insert_all;
use crate::walk::refuses;
use crate::{Name, Node, PlanState};
use std::alloc::Global;
use version_model::{Answer, FileFault};
use xfs_base::{Ino, List, Mem, Text};

fn shown(alloc: Global, name: &Name, node: Node) -> Mem<Text>
    ensures { IfOk result (λ text. text ≡ shown (name.now, node)) }
{
    let mut text = Text::of(alloc, name.as_bytes())?;
    if node.is_directory() {
        text.add(b"/".as_slice())?;
    }
    Ok(text)
}

fn all_shown(alloc: Global, rows: &[(Name, Node)]) -> Mem<List<Text>>
    ensures { IfOk result (λ names. names ≡ map shown rows.now) }
{
    let mut names = List::from_vec(Vec::with_capacity(alloc, rows.len())?);
    for (name, node) in rows {
        names.push(shown(alloc, name, *node)?)?;
    }
    Ok(names)
}

/// Before a bucket, with so many left to read, and these entries read.
pub(crate) fn gathering(
    alloc: Global,
    dir: Ino,
    blk: u32,
    left: u32,
    rows: List<(Name, Node)>,
) -> Mem<PlanState>
    ensures { IfOk result (λ state. state ≡ gathering dir blk left rows) }
{
    if left == 0 {
        let names = all_shown(alloc, rows.as_slice())?;
        return Ok(PlanState::Ends(Answer::Names(names)));
    }
    Ok(PlanState::Gathers {
        dir,
        blk,
        left: left - 1,
        rows,
    })
}

/// A bucket was read.
pub(crate) fn gathered(
    alloc: Global,
    dir: Ino,
    blk: u32,
    left: u32,
    rows: List<(Name, Node)>,
    block: &[u8],
) -> Mem<PlanState>
    requires { blk + 1 < 2 ^ 32 }
    ensures { IfOk result (λ state. state ≡ gathered dir blk left rows (read_rows block.now)) }
{
    match read_bucket(alloc, block)? {
        None => Ok(refuses(FileFault::BadDir)),
        Some(more) => gathering(alloc, dir, blk + 1, left, insert_all(alloc, rows, more)?),
    }
}
