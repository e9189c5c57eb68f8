//! The bytes of a file, block by block.
ghost use Rattle.std.specs.Prelude.{◌≡◌, ◌<◌, ◌≤◌, min, IfOk, IfSome};
ghost use Rattle.xfs_base.specs.Limits.{max_bytes};
ghost use Rattle.file_plan.specs.Calls.{block_size};
ghost use Rattle.file_plan.specs.Plan.{filling, putting, fetching, in_block, emptying, blocks_of, measured_as, measured};

use crate::places::{BLOCK_SIZE, FILE_END};
use crate::walk::refuses;
use crate::{PlanState, Task};
use std::alloc::Global;
use version_model::{Answer, FileFault};
use xfs_base::{Bytes, Ino, List, Mem};

/// A file gets these bytes from a block on; `end` is what its size has to reach.
pub(crate) fn filling(ino: Ino, blk: u32, low: u32, bytes: List<u8>, end: u32) -> PlanState
    ensures { result ≡ filling ino blk low bytes end }
{
    if bytes.is_empty() {
        let task = Task::Raises { end };
        return PlanState::Measures { ino, task };
    }
    if low == 0 && bytes.len() >= BLOCK_SIZE as usize {
        return PlanState::Fills {
            ino,
            blk,
            bytes,
            end,
        };
    }
    PlanState::Takes {
        ino,
        blk,
        low,
        bytes,
        end,
    }
}

/// A file gets these bytes from a place on, where it does not grow past its end. No bytes have no end
/// that its size has to reach.
pub(crate) fn putting(ino: Ino, offset: u32, bytes: List<u8>) -> PlanState
    ensures { result ≡ putting ino offset bytes }
{
    let end = (offset as usize).saturating_add(bytes.len());
    if end > FILE_END as usize {
        return refuses(FileFault::TooBig);
    }
    let end = if bytes.is_empty() { 0 } else { end as u32 };
    filling(ino, offset / BLOCK_SIZE, offset % BLOCK_SIZE, bytes, end)
}

/// So many bytes of a file are wanted from a block on, after these.
pub(crate) fn fetching(ino: Ino, blk: u32, low: u32, left: u32, got: List<u8>) -> Mem<PlanState>
    ensures { IfOk result (λ state. state ≡ fetching ino blk low left got) }
{
    if left == 0 {
        return Ok(PlanState::Ends(Answer::Bytes(Bytes::from_list(got)?)));
    }
    Ok(PlanState::Fetches {
        ino,
        blk,
        low,
        left,
        got,
    })
}

/// How many of the wanted bytes stand in a block.
pub(crate) fn in_block(low: u32, left: u32) -> u32
    requires { low < block_size }
    ensures { result ≡ in_block low left }
{
    left.min(BLOCK_SIZE - low)
}

/// So many blocks of a removed file go, and then its size.
pub(crate) fn emptying(ino: Ino, blk: u32, left: u32, ver: u64) -> PlanState
    ensures { result ≡ emptying ino blk left ver }
{
    if left == 0 {
        return PlanState::Closes { ino, ver };
    }
    PlanState::Empties {
        ino,
        blk,
        left: left - 1,
        ver,
    }
}

fn blocks_of(size: u32) -> u32
    requires { size ≤ max_bytes }
    ensures { result ≡ blocks_of size }
{
    (size + (BLOCK_SIZE - 1)) / BLOCK_SIZE
}

fn measured_as(alloc: Global, ino: Ino, task: Task, ver: u64, size: u32) -> Mem<PlanState>
    requires { size ≤ max_bytes }
    ensures { IfOk result (λ state. state ≡ measured_as ino task ver size) }
{
    match task {
        Task::Tells => Ok(PlanState::Ends(Answer::Size(u64::from(size)))),
        Task::Cuts { offset, len } => {
            let left = len.min(size.saturating_sub(offset));
            let got = List::new(alloc);
            fetching(ino, offset / BLOCK_SIZE, offset % BLOCK_SIZE, left, got)
        }
        Task::Raises { end } => {
            if end <= size {
                return Ok(PlanState::Ends(Answer::Done));
            }
            Ok(PlanState::Grows { ino, end, ver })
        }
        Task::Clears => {
            if size == 0 {
                return Ok(PlanState::Ends(Answer::Done));
            }
            Ok(emptying(ino, 0, blocks_of(size), ver))
        }
    }
}

/// The size of a file was read.
pub(crate) fn measured(
    alloc: Global,
    ino: Ino,
    task: Task,
    ver: u64,
    size: Option<u32>,
) -> Mem<PlanState>
    requires { IfSome size (λ size. size ≤ max_bytes) }
    ensures { IfOk result (λ state. state ≡ measured ino task ver size) }
{
    match size {
        None => Ok(refuses(FileFault::BadDir)),
        Some(size) => measured_as(alloc, ino, task, ver, size),
    }
}
