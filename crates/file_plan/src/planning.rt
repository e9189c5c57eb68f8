//! A call on files as a plan.
ghost use Rattle.std.specs.Prelude.{◌≡◌, ◌-◌, ◌<◌, ◌≤◌, IfOk, Some, length, take};
ghost use Rattle.xfs_base.specs.Limits.{max_lines};
ghost use Rattle.file_plan.specs.Calls.{block_size};
ghost use Rattle.file_plan.specs.Format.{bytes_in, value_of, overlaid};
ghost use Rattle.file_plan.specs.Ranges.{IsInRange};
ghost use Rattle.file_plan.specs.Plan.{made_by, start, file_plan_answered, file_plan_next, plan};

use crate::answered::answered;
use crate::bucket::bucket_bytes;
use crate::bytes::{bytes_of, overlaid, value_of};
use crate::places::{BLOCK_SIZE, bucket_block, size_block};
use crate::size::size_value;
use crate::{BlockAnswer, BlockCall, Next, PlanState, walk};
use std::alloc::Global;
use std::marker::Model;
use version_model::FileCall;
use xfs_base::{BlockId, Crosses, Ino, Mem, Value};

/// Where a call on files stands: what it does next, and where it stands after an answer. Contracts see
/// the state.
pub struct FilePlan {
    state: PlanState,
}

impl Drop for FilePlan {
    fn drop(self) {
        let FilePlan { state } = self;
        drop(state);
    }
}

impl Model for FilePlan {
    ghost use Rattle.file_plan.specs.declared.state.PlanState.{PlanState};
    ghost use Rattle.file_plan.specs.Ranges.{IsInRange};

    ghost Value = { PlanState };

    ghost view = { λ plan. plan.state };

    ghost invariant = { λ plan. IsInRange plan.state };
}

/// The index number that a client makes with its item of this number: its slot is of the client's own
/// manager (the 1996 paper, "File Directories and Index Numbers").
pub fn made_by(number: u32, client: u8) -> Ino
    requires numbered { number ≤ max_lines }
    requires client { 1 ≤ client }
    requires of_eight { client ≤ 8 }
    ensures { result ≡ made_by number client }
{
    let client = u32::from(client);
    Ino(number * 128 + client * 8 + (client - 1))
}

fn get(block: BlockId) -> Next
    ensures { result ≡ Next.Step (BlockCall.Get block) }
{
    Next::Step(BlockCall::Get(block))
}

impl FilePlan {
    /// The plan of a call before its first call on blocks; a file or a directory that it makes gets this
    /// index number.
    pub fn start(alloc: Global, call: &FileCall, ino: Ino) -> Mem<FilePlan>
        ensures { IfOk result (λ plan. plan ≡ start call.now ino) }
    {
        Ok(FilePlan {
            state: walk::start(alloc, call, ino)?,
        })
    }

    /// The plan after one more answer. An answer that isn't one to the call that was made changes
    /// nothing.
    pub fn answered(self, alloc: Global, answer: &BlockAnswer) -> Mem<FilePlan>
        ensures { IfOk result (λ plan. plan ≡ file_plan_answered self answer.now) }
    {
        let FilePlan { state } = self;
        Ok(FilePlan {
            state: answered(alloc, state, answer)?,
        })
    }

    /// What the call does next: a call on blocks, or its answer.
    pub fn next(&self, alloc: Global) -> Mem<Next>
        ensures { IfOk result (λ step. step ≡ file_plan_next self.now) }
    {
        next_of(alloc, &self.state)
    }
}

impl Crosses for FilePlan {}

fn next_of(alloc: Global, state: &PlanState) -> Mem<Next>
    requires { IsInRange state.now }
    ensures { IfOk result (λ step. step ≡ file_plan_next state.now) }
{
    match state {
        PlanState::Ends(answer) => Ok(Next::Reply(answer.copy(alloc)?)),
        PlanState::Walks { dir, name, .. } => Ok(get(bucket_block(*dir, name))),
        PlanState::Looks { dir, name, .. } => Ok(get(bucket_block(*dir, name))),
        PlanState::Enters {
            dir,
            name,
            ver,
            rows,
            ..
        } => {
            let bytes = bucket_bytes(alloc, rows.as_slice())?;
            let value = value_of(alloc, &bytes)?;
            let block = bucket_block(*dir, name);
            Ok(Next::Step(BlockCall::PutAt(block, *ver, value)))
        }
        PlanState::Syncs { .. } => Ok(Next::Step(BlockCall::Sync)),
        PlanState::Measures { ino, .. } => Ok(get(size_block(*ino))),
        PlanState::Fetches { ino, blk, .. } => Ok(get(BlockId {
            ino: *ino,
            blk: *blk,
        })),
        PlanState::Fills {
            ino,
            blk,
            bytes,
            ..
        } => {
            let value = filled(alloc, bytes.as_slice())?;
            let block = BlockId {
                ino: *ino,
                blk: *blk,
            };
            Ok(Next::Step(BlockCall::Put(block, value)))
        }
        PlanState::Takes { ino, blk, .. } => Ok(get(BlockId {
            ino: *ino,
            blk: *blk,
        })),
        PlanState::Patches {
            ino,
            blk,
            low,
            bytes,
            end: _,
            ver,
            old,
        } => {
            let value = patched(alloc, old, *low, bytes.as_slice())?;
            let block = BlockId {
                ino: *ino,
                blk: *blk,
            };
            Ok(Next::Step(BlockCall::PutAt(block, *ver, value)))
        }
        PlanState::Grows { ino, end, ver } => {
            let value = size_value(alloc, *end)?;
            Ok(Next::Step(BlockCall::PutAt(size_block(*ino), *ver, value)))
        }
        PlanState::Empties { ino, blk, .. } => {
            let block = BlockId {
                ino: *ino,
                blk: *blk,
            };
            Ok(Next::Step(BlockCall::Put(block, Value::absent())))
        }
        PlanState::Closes { ino, ver } => {
            let value = Value::absent();
            Ok(Next::Step(BlockCall::PutAt(size_block(*ino), *ver, value)))
        }
        PlanState::Gathers { dir, blk, .. } => Ok(get(BlockId {
            ino: *dir,
            blk: *blk,
        })),
    }
}

/// The value of a block that gets the first of these bytes.
fn filled(alloc: Global, bytes: &[u8]) -> Mem<Value>
    requires { 0 < length bytes.now }
    ensures { IfOk result (λ value. value ≡ Some (take block_size bytes.now)) }
{
    let (whole, _) = bytes.split_at((BLOCK_SIZE as usize).min(bytes.len()));
    let value = value_of(alloc, whole)?;
    Ok(value)
}

/// The value of a block with these bytes over it from a byte on, as far as they are of this block.
fn patched(alloc: Global, old: &Value, low: u32, bytes: &[u8]) -> Mem<Value>
    requires within { low < block_size }
    requires some { 0 < length bytes.now }
    ensures { IfOk result (λ value. value ≡ value_of (overlaid (bytes_in old.now) low (take (block_size - low) bytes.now))) }
{
    let count = ((BLOCK_SIZE - low) as usize).min(bytes.len());
    let (piece, _) = bytes.split_at(count);
    let block = overlaid(alloc, bytes_of(old), low as usize, piece)?;
    value_of(alloc, &block)
}

/// What a call on files of a client does next, where its calls on blocks had these answers: each list of
/// answers has a next step.
pub fn plan(
    alloc: Global,
    call: &FileCall,
    number: u32,
    client: u8,
    so_far: &[BlockAnswer],
) -> Mem<Next>
    requires numbered { number ≤ max_lines }
    requires client { 1 ≤ client }
    requires of_eight { client ≤ 8 }
    ensures { IfOk result (λ step. step ≡ plan call.now number client so_far.now) }
{
    let mut plan = FilePlan::start(alloc, call, made_by(number, client))?;
    for answer in so_far {
        plan = plan.answered(alloc, answer)?;
    }
    plan.next(alloc)
}
