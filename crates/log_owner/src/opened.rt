//! How an opening ends.
ghost use Rattle.std.specs.Prelude.{◌≡◌, ◌++◌, [], IfOk, OnOk, map};
ghost use Rattle.delta_feed.specs.Transition.{settled};
ghost use Rattle.log_owner.specs.Opened.{feed_one, feed_all, feed_of, filed, file_all, names_in};
ghost use Rattle.log_owner.specs.Sending.{name_of};

use crate::{Opening, Promised};
use client_log::Log;
use delta_feed::{Feed, In};
use node_base::{Effects, Maps};
use segment_format::{Segment, rows_of};
use std::alloc::Global;
use version_model::Act;
use xfs_base::{End, List, LogId, Mem, SegName};

/// Where an opening stands after an event.
#[derive(Drop)]
pub enum Progress {
    /// It goes on.
    Opening(Opening),
    /// The log is open.
    Opened(Opened),
    /// A segment that is needed is lost.
    Lost(SegName),
}

/// A log that is open again, and what its owner knows.
pub struct Opened {
    /// The maps.
    pub maps: Maps,
    /// The epochs of the maps that were asked for last, which the slots are promised to.
    pub promised: Promised,
    /// The log.
    pub log: Log,
    /// The feed of the deltas of its segments.
    pub feed: Feed,
    /// The segments that were found, in rising order.
    pub chain: List<SegName>,
}

impl Drop for Opened {
    fn drop(self) {
        let Opened {
            maps,
            promised: _,
            log,
            feed,
            chain,
        } = self;
        drop(maps);
        drop(log);
        drop(feed);
        drop(chain);
    }
}

impl Opened {
    /// The maps, the promises, the log, the feed, and the segments that were found.
    pub fn into_parts(self) -> (Maps, Promised, Log, Feed, List<SegName>)
        ensures { result ≡ (self.maps, self.promised, self.log, self.feed, self.chain) }
    {
        let Opened {
            maps,
            promised,
            log,
            feed,
            chain,
        } = self;
        (maps, promised, log, feed, chain)
    }
}

/// The feed of a chain of segments and of the segment after them, which has no item: what lies below `low`
/// the slots know from elsewhere.
pub(crate) fn feed_of(alloc: Global, low: u32, chain: &[Segment], end: End) -> Mem<Feed>
    ensures { IfOk result (λ feed. feed ≡ feed_of low chain.now end) }
{
    let mut feed = Feed::start(alloc, low.saturating_sub(1))?;
    match feed_upto(alloc, &mut feed, chain, end) {
        Ok(()) => Ok(feed),
        Err(error) => {
            drop(feed);
            Err(error)
        }
    }
}

// The feed is fed a chain and the segment after it.
fn feed_upto(alloc: Global, feed: &mut Feed, chain: &[Segment], end: End) -> Mem<()>
    ensures { OnOk result (feed.new ≡ settled (feed_all feed.old chain.now) end.seq []) }
{
    feed_all(alloc, feed, chain)?;
    let rows = List::new(alloc);
    let seq = end.seq;
    drop(feed.take(alloc, In::Settled { seq, rows })?);
    Ok(())
}

fn feed_all(alloc: Global, feed: &mut Feed, chain: &[Segment]) -> Mem<()>
    ensures { OnOk result (feed.new ≡ feed_all feed.old chain.now) }
{
    for segment in chain {
        feed_one(alloc, feed, segment)?;
    }
    Ok(())
}

#[tactic(auto, unfolding(crate::specs::Opened::feed_one))]
fn feed_one(alloc: Global, feed: &mut Feed, segment: &Segment) -> Mem<()>
    ensures { OnOk result (feed.new ≡ feed_one feed.old segment.now) }
{
    let rows = rows_of(alloc, segment)?;
    let seq = segment.name.seq;
    drop(feed.take(alloc, In::Settled { seq, rows })?);
    Ok(())
}

/// Acts that the segments of a chain are filed, and the one after them.
pub(crate) fn file_all(effects: &mut Effects, log: LogId, chain: &[Segment], end: End) -> Mem<()>
    ensures { OnOk result (effects.new ≡ effects.old ++ file_all log chain.now end) }
{
    file_each(effects, chain)?;
    let seg = name_of(log, end);
    effects.act(Act::Filed { seg })
}

fn file_each(effects: &mut Effects, chain: &[Segment]) -> Mem<()>
    ensures { OnOk result (effects.new ≡ effects.old ++ map filed chain.now) }
{
    for segment in chain {
        effects.act(Act::Filed { seg: segment.name })?;
    }
    Ok(())
}

/// The names of these segments.
pub(crate) fn names_in(alloc: Global, chain: &[Segment]) -> Mem<List<SegName>>
    ensures { IfOk result (λ names. names ≡ names_in chain.now) }
{
    let mut names = List::new(alloc);
    for segment in chain {
        names.push(segment.name)?;
    }
    Ok(names)
}

/// The name of the newest settled segment of a log.
pub fn name_of(log: LogId, end: End) -> SegName
    ensures { result ≡ name_of log end }
{
    SegName {
        log,
        seq: end.seq,
        pass: end.pass,
    }
}
