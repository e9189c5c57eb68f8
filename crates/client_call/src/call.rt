//! The call that is open.
ghost use Rattle.std.specs.Prelude.{◌≡◌, IfOk, Some};
ghost use Rattle.client_call.specs.Calls.{call_new, block_of, stands_by, call_of, file_call, may_make, plan_answered, answer_of};

use file_plan::planning::made_by;
use file_plan::{BlockAnswer, BlockCall, FilePlan, Next};
use segment_reading::Reading;
use std::alloc::Global;
use std::mem;
use version_model::{Answer, FileCall, Work};
use xfs_base::limits::MAX_LINES;
use xfs_base::{BlockId, Mem};

/// What a call does after its present call on blocks.
#[derive(Drop)]
pub enum Plan {
    /// It is answered.
    One,
    /// It goes on as this plan says.
    File(FilePlan),
}

/// A call that is not answered.
pub struct Call {
    /// What it does after its present call on blocks.
    pub plan: Plan,
    /// Its present call on blocks, which waits.
    pub step: BlockCall,
    /// The reading of its block from a log, where one is on.
    pub reading: Option<Reading>,
}

impl Drop for Call {
    fn drop(self) {
        let Call {
            plan,
            step,
            reading,
        } = self;
        drop(plan);
        drop(step);
        drop(reading);
    }
}

/// Where a call stands.
#[derive(Drop)]
pub enum Going {
    /// It has a call on blocks to make.
    On(Call),
    /// It is done, and this is its answer.
    Ends(Answer),
}

impl Call {
    /// A call that has this call on blocks to make.
    pub fn new(plan: Plan, step: BlockCall) -> Call
        ensures { result ≡ call_new plan step }
    {
        Call {
            plan,
            step,
            reading: None,
        }
    }

    /// What it does after its present call on blocks.
    pub fn into_plan(self) -> Plan
        ensures { result ≡ self.plan }
    {
        let Call {
            plan,
            step,
            reading,
        } = self;
        drop(step);
        drop(reading);
        plan
    }

    /// The block that its present call on blocks is on; none where it waits for all that is dirty.
    pub fn block(&self) -> Option<BlockId>
        ensures { result ≡ block_of self.now.step }
    {
        match &self.step {
            BlockCall::Get(block) => Some(*block),
            BlockCall::Put(block, _) => Some(*block),
            BlockCall::PutAt(block, _, _) => Some(*block),
            BlockCall::Sync => None,
        }
    }

    /// The call of an item of this number of a client; none where the item is no call, nor where it is a call
    /// on files and the number is above 20,000, or the client isn't 1 to 8.
    pub fn of(alloc: Global, work: &Work, number: u32, client: u8) -> Mem<Option<Going>>
        ensures { IfOk result (λ call. call ≡ call_of work.now number client) }
    {
        match work {
            Work::Bput { block, value, .. } => {
                let step = BlockCall::Put(*block, value.copy(alloc)?);
                Ok(Some(Going::On(Call::new(Plan::One, step))))
            }
            Work::Bget { block, .. } => {
                Ok(Some(Going::On(Call::new(Plan::One, BlockCall::Get(*block)))))
            }
            Work::Sync { .. } => Ok(Some(Going::On(Call::new(Plan::One, BlockCall::Sync)))),
            Work::File { call, .. } => file_call(alloc, call, number, client),
            _ => Ok(None),
        }
    }
}

impl Plan {
    /// Where a call stands once its call on blocks is answered.
    pub fn answered(self, alloc: Global, answer: BlockAnswer) -> Mem<Going>
        ensures { IfOk result (λ stands. stands ≡ plan_answered self answer) }
    {
        match self {
            Plan::One => Ok(Going::Ends(answer_of(answer))),
            Plan::File(plan) => {
                let next = plan.answered(alloc, &answer);
                drop(answer);
                stands_by(alloc, next?)
            }
        }
    }
}

// The call on files of an item. Neither a client nor an item has a greater number.
fn file_call(alloc: Global, call: &FileCall, number: u32, client: u8) -> Mem<Option<Going>>
    ensures { IfOk result (λ made. made ≡ file_call call.now number client) }
{
    if !may_make(number, client) {
        return Ok(None);
    }
    let plan = FilePlan::start(alloc, call, made_by(number, client))?;
    Ok(Some(stands_by(alloc, plan)?))
}

fn may_make(number: u32, client: u8) -> bool
    ensures { result ≡ may_make number client }
{
    number <= MAX_LINES && (1 <= client && client <= 8)
}

fn stands_by(alloc: Global, plan: FilePlan) -> Mem<Going>
    ensures { IfOk result (λ stands. stands ≡ stands_by plan) }
{
    match plan.next(alloc) {
        Ok(Next::Step(step)) => Ok(Going::On(Call::new(Plan::File(plan), step))),
        Ok(Next::Reply(answer)) => {
            drop(plan);
            Ok(Going::Ends(answer))
        }
        Err(error) => {
            drop(plan);
            Err(error)
        }
    }
}

// The answer of a call that is one call on blocks.
fn answer_of(answer: BlockAnswer) -> Answer
    ensures { result ≡ answer_of answer }
{
    match answer {
        BlockAnswer::Got(ver, value) => Answer::Got(ver, value),
        BlockAnswer::Put(ver) => Answer::Version(ver),
        BlockAnswer::Changed => Answer::Done,
        BlockAnswer::Synced => Answer::Done,
    }
}

/// This call is open.
pub fn hold(open: &mut Option<Call>, call: Call)
    ensures { open.new ≡ Some call }
{
    drop(mem::replace(open, Some(call)));
}
