//! The wants that wait, their recalls, and what is applied of each log.
ghost use Rattle.std.specs.Prelude.{◌≡◌, ◌+◌, ◌^◌, ◌<◌, length, IsTrue, OnOk, IfOk, IfNone, option_map};
ghost use Rattle.std.specs.BTreeMap.{insert_entry};
ghost use Rattle.std.specs.List.{list_any};
ghost use Rattle.xfs_base.specs.Blocks.{block_cmp};
ghost use Rattle.xfs_base.specs.Limits.{block_logs};
ghost use Rattle.slot_beliefs.specs.Recalls.{recalls, answers, noted, applied_of, is_applied, is_ready, ready_blocks, job_at, without_job, is_followed, applied_upto};

use crate::job::{Awaited, Job, Wanted};
use std::alloc::Global;
use std::collections::BTreeMap;
use xfs_base::limits::BY_LOG;
use xfs_base::{BlockId, List, LogId, Mem, Stamp};

/// A recall to each of these clients, each with a turn of its own.
pub fn recalls(
    alloc: Global,
    epoch: u32,
    last: u64,
    keep: bool,
    clients: &[u8],
) -> Mem<List<Awaited>>
    requires { last + length clients.now < 2 ^ 64 }
    ensures { IfOk result (λ awaited. awaited ≡ recalls epoch last keep clients.now) }
{
    let mut awaited = List::new(alloc);
    let mut turn = last;
    for client in clients {
        turn += 1;
        awaited.push(Awaited {
            client: *client,
            stamp: Stamp { epoch, turn },
            keep,
            end: None,
        })?;
    }
    Ok(awaited)
}

/// A want waits for a block and these recalls.
pub fn wait(
    jobs: &mut BTreeMap<BlockId, Job>,
    block: BlockId,
    want: Wanted,
    awaited: List<Awaited>,
) -> Mem<()>
    ensures { OnOk result (jobs.new.entries ≡ insert_entry block_cmp jobs.old.entries block (record { want = want; awaited = awaited })) }
{
    jobs.insert(block, Job { want, awaited })?;
    Ok(())
}

/// The want that waits for a block, which then waits no longer.
pub fn take_want(jobs: &mut BTreeMap<BlockId, Job>, block: BlockId) -> Option<Wanted>
    ensures want { result ≡ option_map (λ job. job.want) (job_at jobs.old.entries block) }
    ensures jobs { jobs.new.entries ≡ without_job jobs.old.entries block }
    ensures none { IfNone result (jobs.new.entries ≡ jobs.old.entries) }
{
    match jobs.remove(&block) {
        Some(job) => Some(job.want),
        None => None,
    }
}

fn answers(recall: &Awaited, client: u8, stamp: Stamp) -> bool
    ensures { result ≡ answers client stamp recall.now }
{
    recall.client == client && recall.stamp == stamp && recall.end.is_none()
}

/// Whether one of the recalls is the unanswered one of a client under a stamp.
pub fn is_awaited(awaited: &[Awaited], client: u8, stamp: Stamp) -> bool
    ensures { result ≡ list_any (answers client stamp) awaited.now }
{
    for recall in awaited {
        if answers(recall, client, stamp) {
            return true;
        }
    }
    false
}

/// The recalls, with the end that an answer named.
pub fn noted(
    alloc: Global,
    awaited: &[Awaited],
    client: u8,
    stamp: Stamp,
    end: u32,
) -> Mem<List<Awaited>>
    ensures { IfOk result (λ after. after ≡ noted awaited.now client stamp end) }
{
    let mut after = List::new(alloc);
    for recall in awaited {
        let mut recall = *recall;
        if answers(&recall, client, stamp) {
            recall.end = Some(end);
        }
        after.push(recall)?;
    }
    Ok(after)
}

/// Nine numbers as an array.
pub fn nine(list: &[u32]) -> [u32; BY_LOG]
    requires { length list.now ≡ block_logs }
    ensures { result ≡ list.now }
{
    let mut nine = [0; BY_LOG];
    nine.copy_from_slice(list);
    nine
}

/// What is applied of a log: 0 of a manager's log, which a slot does not follow, and of log 0, which there is
/// not, what is applied of log 1.
pub fn applied_of(applied: &[u32; BY_LOG], log: u8) -> u32
    ensures { result ≡ applied_of applied.now log }
{
    let index = usize::from(log).saturating_sub(1);
    if index < applied.len() {
        applied[index]
    } else {
        0
    }
}

/// What is applied, with this much of one log.
pub fn applied_upto(applied: &[u32; BY_LOG], log: LogId, upto: u32) -> [u32; BY_LOG]
    requires { IsTrue (is_followed log) }
    ensures { result ≡ applied_upto applied.now log upto }
{
    let mut all = *applied;
    all[usize::from(log.0) - 1] = upto;
    all
}

fn is_applied(applied: &[u32; BY_LOG], log: u8, end: Option<u32>) -> bool
    ensures { result ≡ is_applied applied.now log end }
{
    match end {
        Some(end) => end <= applied_of(applied, log),
        None => false,
    }
}

/// Whether all recalls are answered, and what each answer named is applied.
pub fn is_ready(applied: &[u32; BY_LOG], awaited: &[Awaited]) -> bool
    ensures { result ≡ is_ready applied.now awaited.now }
{
    for recall in awaited {
        if !is_applied(applied, recall.client, recall.end) {
            return false;
        }
    }
    true
}

/// The blocks whose wants need wait no longer.
pub fn ready_blocks(
    alloc: Global,
    jobs: &BTreeMap<BlockId, Job>,
    applied: &[u32; BY_LOG],
) -> Mem<List<BlockId>>
    ensures { IfOk result (λ blocks. blocks ≡ ready_blocks jobs.now.entries applied.now) }
{
    let mut blocks = List::new(alloc);
    for (block, job) in jobs {
        if is_ready(applied, job.awaited.as_slice()) {
            blocks.push(*block)?;
        }
    }
    Ok(blocks)
}
