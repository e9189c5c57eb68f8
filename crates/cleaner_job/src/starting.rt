//! The log of a cleaner, and what it has at the start of a run.
ghost use Rattle.std.specs.Prelude.{◌≡◌, IfOk};
ghost use Rattle.cleaner_job.specs.Starting.{cleaner_log, no_end};
ghost use Rattle.client_log.specs.LogState.{log_start as first_log};
ghost use Rattle.delta_feed.specs.FeedState.{feed_start as first_feed};

use client_log::Log;
use delta_feed::Feed;
use group_map::GroupMap;
use std::alloc::Global;
use xfs_base::{End, LogId, Mem, NodeId};

/// A log in which nothing is settled, and its deltas.
pub fn start_log(alloc: Global, inc: u32, groups: &GroupMap) -> Mem<(Log, Feed)>
    ensures log { IfOk result (λ parts. parts.0 ≡ first_log cleaner_log inc no_end groups.now) }
    ensures feed { IfOk result (λ parts. parts.1 ≡ first_feed 0) }
{
    let feed = Feed::start(alloc, 0)?;
    let copy = groups.copy(alloc)?;
    let log = Log::start(alloc, cleaner_log(), inc, End::none(), copy)?;
    Ok((log, feed))
}

/// The log of the cleaner.
pub fn cleaner_log() -> LogId
    ensures { result ≡ cleaner_log }
{
    NodeId::Cleaner.log()
}
