//! The recalls of the wants that wait, as they are sent.
ghost use Rattle.std.specs.Prelude.{◌≡◌, OnOk, ◌++◌};
ghost use Rattle.std.specs.BTreeMap.{insert_entry};
ghost use Rattle.xfs_base.specs.Blocks.{block_cmp};
ghost use Rattle.token_manager.specs.Recalls.{send_recalls, send_all};

use crate::output::Out;
use slot_beliefs::recalls::wait;
use slot_beliefs::{Awaited, Job, Wanted};
use std::collections::BTreeMap;
use xfs_base::{BlockId, List, Mem};

// Sends the recalls that are not answered.
pub(crate) fn send_recalls(outs: &mut List<Out>, block: BlockId, awaited: &[Awaited]) -> Mem<()>
    ensures { OnOk result (outs.new ≡ outs.old ++ send_recalls block awaited.now) }
{
    for recall in awaited {
        if recall.end.is_none() {
            outs.push(Out::Recall {
                client: recall.client,
                block,
                stamp: recall.stamp,
                keep: recall.keep,
            })?;
        }
    }
    Ok(())
}

// A want waits, and the recalls for it are sent.
pub(crate) fn await_all(
    jobs: &mut BTreeMap<BlockId, Job>,
    outs: &mut List<Out>,
    want: Wanted,
    awaited: List<Awaited>,
) -> Mem<()>
    ensures jobs { OnOk result (jobs.new.entries ≡ insert_entry block_cmp jobs.old.entries want.block (record { want = want; awaited = awaited })) }
    ensures outs { OnOk result (outs.new ≡ outs.old ++ send_recalls want.block awaited) }
{
    send_recalls(outs, want.block, awaited.as_slice())?;
    wait(jobs, want.block, want, awaited)
}

// Sends the recalls of all wants that are not answered.
pub(crate) fn send_all(outs: &mut List<Out>, jobs: &BTreeMap<BlockId, Job>) -> Mem<()>
    ensures { OnOk result (outs.new ≡ outs.old ++ send_all jobs.now.entries) }
{
    for (block, job) in jobs {
        send_recalls(outs, *block, job.awaited.as_slice())?;
    }
    Ok(())
}
