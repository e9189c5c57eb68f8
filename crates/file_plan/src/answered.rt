//! What a call does on each answer to its calls on blocks.
ghost use Rattle.std.specs.Prelude.{◌≡◌, IfOk};
ghost use Rattle.file_plan.specs.Plan.{file_plan_answered, on_got, on_written, on_changed, on_synced};
ghost use Rattle.xfs_base.specs.Value.{IsValue};
ghost use Rattle.file_plan.specs.Ranges.{IsInRange};

use crate::bytes::{add_cut, after_first, bytes_of};
use crate::content::{emptying, fetching, filling, in_block, measured};
use crate::entry::{entered, looked};
use crate::gather::gathered;
use crate::places::BLOCK_SIZE;
use crate::size::read_size;
use crate::walk::walked;
use crate::{BlockAnswer, Job, PlanState, Task};
use std::alloc::Global;
use version_model::Answer;
use xfs_base::{Mem, Value};

/// An answer came; one that isn't of the call that was made changes nothing.
pub(crate) fn answered(alloc: Global, state: PlanState, answer: &BlockAnswer) -> Mem<PlanState>
    requires { IsInRange state }
    ensures next { IfOk result (λ next. next ≡ file_plan_answered state answer.now) }
    ensures in_range { IfOk result (λ next. IsInRange next) }
{
    match answer {
        BlockAnswer::Got(ver, value) => {
            let next = got(alloc, state, *ver, value)?;
            Ok(next)
        }
        BlockAnswer::Put(_) => {
            let next = written(state)?;
            Ok(next)
        }
        BlockAnswer::Changed => Ok(changed(state)),
        BlockAnswer::Synced => Ok(synced(state)),
    }
}

/// A block was read.
fn got(alloc: Global, state: PlanState, ver: u64, value: &Value) -> Mem<PlanState>
    requires { IsInRange state }
    ensures next { IfOk result (λ next. next ≡ on_got state ver value.now) }
    ensures fits { IsValue value.now }
{
    let block = bytes_of(value);
    match state {
        PlanState::Walks {
            dir: _,
            name,
            onto,
            rest,
            job,
        } => walked(alloc, &name, onto, rest, job, block),
        PlanState::Looks { dir, name, job } => looked(alloc, dir, name, ver, job, block),
        PlanState::Measures { ino, task } => { measured(alloc, ino, task, ver, read_size(block)) }
        PlanState::Fetches {
            ino,
            blk,
            low,
            left,
            got,
        } => {
            let here = in_block(low, left);
            let got = add_cut(got, block, low as usize, here as usize)?;
            fetching(ino, blk + 1, 0, left - here, got)
        }
        PlanState::Takes {
            ino,
            blk,
            low,
            bytes,
            end,
        } => Ok(PlanState::Patches {
            ino,
            blk,
            low,
            bytes,
            end,
            ver,
            old: value.copy(alloc)?,
        }),
        PlanState::Gathers {
            dir,
            blk,
            left,
            rows,
        } => gathered(alloc, dir, blk, left, rows, block),
        state => Ok(state),
    }
}

/// A block was written.
fn written(state: PlanState) -> Mem<PlanState>
    requires { IsInRange state }
    ensures { IfOk result (λ next. next ≡ on_written state) }
{
    match state {
        PlanState::Enters { ino, job, .. } => Ok(entered(job, ino)),
        PlanState::Fills {
            ino,
            blk,
            bytes,
            end,
        } => {
            let rest = after_first(bytes, BLOCK_SIZE as usize)?;
            Ok(filling(ino, blk + 1, 0, rest, end))
        }
        PlanState::Patches {
            ino,
            blk,
            low,
            bytes,
            end,
            ..
        } => {
            let rest = after_first(bytes, (BLOCK_SIZE - low) as usize)?;
            Ok(filling(ino, blk + 1, 0, rest, end))
        }
        PlanState::Grows { .. } => Ok(PlanState::Ends(Answer::Done)),
        PlanState::Empties {
            ino,
            blk,
            left,
            ver,
        } => Ok(emptying(ino, blk + 1, left, ver)),
        PlanState::Closes { .. } => Ok(PlanState::Ends(Answer::Done)),
        state => Ok(state),
    }
}

/// A version isn't the named one any more: the block is read again.
fn changed(state: PlanState) -> PlanState
    ensures { result ≡ on_changed state }
{
    match state {
        PlanState::Enters { dir, name, job, .. } => PlanState::Looks { dir, name, job },
        PlanState::Patches {
            ino,
            blk,
            low,
            bytes,
            end,
            ..
        } => PlanState::Takes {
            ino,
            blk,
            low,
            bytes,
            end,
        },
        PlanState::Grows { ino, end, .. } => {
            let task = Task::Raises { end };
            PlanState::Measures { ino, task }
        }
        PlanState::Closes { ino, .. } => {
            let task = Task::Clears;
            PlanState::Measures { ino, task }
        }
        state => state,
    }
}

/// All is settled.
fn synced(state: PlanState) -> PlanState
    ensures { result ≡ on_synced state }
{
    match state {
        PlanState::Syncs { dir, name, node } => {
            let job = Job::Unlinks(node);
            PlanState::Looks { dir, name, job }
        }
        state => state,
    }
}
