//! Where a takeover reads.
ghost use Rattle.std.specs.Prelude.{◌≡◌, ◌++◌, ◌≤◌, IfOk, OnOk, map};
ghost use Rattle.std.specs.List.{flat_map, range_with_len};
ghost use Rattle.xfs_base.specs.Limits.{block_logs};
ghost use Rattle.takeover.specs.Sources.{part_source, log_sources, sources_of, back_from};
ghost use Rattle.takeover.specs.Transition.{target_of, present_waiting, present_repeat, fetches};

use crate::output::Out;
use crate::report::{LOGS_END, Report, end_of, horizon_at};
use segment_format::Segment;
use segment_reading::{Reading, Target};
use std::alloc::Global;
use std::collections::VecDeque;
use xfs_base::{List, LogId, Mem, SegName, SegRef, SlotNews};

/// A segment, and those before it in its log that are not below a number.
#[derive(Clone, Copy, PartialEq, Eq)]
pub(crate) struct Source {
    /// The segment that is read next.
    pub seg: SegRef,
    /// The least number that is read.
    pub low: u32,
}

/// The source that is read at present.
#[derive(Drop)]
pub(crate) struct Present {
    /// What is left of it.
    pub source: Source,
    /// The reading of its next segment; none while the segment's group is not known.
    pub reading: Option<Reading>,
}

impl Source {
    /// What is looked for next.
    pub fn target(self) -> Target
        ensures { result ≡ target_of self }
    {
        Target {
            seg: self.seg,
            block: None,
        }
    }

    /// What is left of it once this segment of it is read.
    pub fn back_from(self, segment: &Segment) -> Option<Source>
        ensures { result ≡ back_from self segment.now }
    {
        let seq = segment.name.seq;
        if seq <= self.low || segment.prior.names_none() {
            return None;
        }
        let name = SegName {
            log: segment.name.log,
            seq: seq - 1,
            pass: segment.prior.pass,
        };
        Some(Source {
            seg: SegRef {
                name,
                group: segment.prior.group,
            },
            low: self.low,
        })
    }
}

impl Present {
    /// The source, where it waits for its group.
    pub fn waiting(&self) -> Option<Source>
        ensures { result ≡ present_waiting self.now.source self.now.reading }
    {
        match &self.reading {
            None => Some(self.source),
            Some(_) => None,
        }
    }

    /// Asks again what is unanswered.
    pub fn repeat(&self, alloc: Global, outs: &mut List<Out>) -> Mem<()>
        ensures { OnOk result (outs.new ≡ outs.old ++ present_repeat self.now.source self.now.reading) }
    {
        match &self.reading {
            None => Ok(()),
            Some(reading) => {
                let servers = reading.unanswered(alloc)?;
                add_fetches(
                    outs,
                    servers.as_slice(),
                    self.source.seg.name,
                    reading.ask(),
                )
            }
        }
    }
}

/// Asks these servers for their fragments of a segment.
pub(crate) fn add_fetches(outs: &mut List<Out>, servers: &[u8], name: SegName, ask: u32) -> Mem<()>
    ensures { OnOk result (outs.new ≡ outs.old ++ fetches name ask servers.now) }
{
    for server in servers {
        outs.push(Out::Fetch {
            server: *server,
            name,
            ask,
        })?;
    }
    Ok(())
}

/// The parts of the checkpoint in their order, then the logs behind it.
pub(crate) fn sources_of(
    alloc: Global,
    news: &SlotNews,
    reports: &[Report],
) -> Mem<VecDeque<Source>>
    ensures { IfOk result (λ sources. sources.items ≡ sources_of news.now reports.now) }
{
    let mut sources = VecDeque::new(alloc);
    add_parts(&mut sources, news.parts.as_slice())?;
    add_logs(&mut sources, news.horizon.as_slice(), reports)?;
    Ok(sources)
}

fn add_parts(sources: &mut VecDeque<Source>, parts: &[SegRef]) -> Mem<()>
    ensures { OnOk result (sources.new.items ≡ sources.old.items ++ map part_source parts.now) }
{
    for part in parts {
        sources.push_back(Source {
            seg: *part,
            low: part.name.seq,
        })?;
    }
    Ok(())
}

fn add_logs(sources: &mut VecDeque<Source>, horizon: &[u32], reports: &[Report]) -> Mem<()>
    ensures { OnOk result (sources.new.items ≡ sources.old.items ++ flat_map (log_sources horizon.now reports.now) (range_with_len 1 block_logs)) }
{
    for log in 1..LOGS_END {
        add_log(sources, horizon, reports, log)?;
    }
    Ok(())
}

fn add_log(sources: &mut VecDeque<Source>, horizon: &[u32], reports: &[Report], log: u8) -> Mem<()>
    requires { 1 ≤ log }
    ensures { OnOk result (sources.new.items ≡ sources.old.items ++ log_sources horizon.now reports.now log) }
{
    let low = horizon_at(horizon, log);
    let end = end_of(reports, log);
    if end.seq < low {
        return Ok(());
    }
    let name = SegName {
        log: LogId(log),
        seq: end.seq,
        pass: end.pass,
    };
    sources.push_back(Source {
        seg: SegRef {
            name,
            group: end.group,
        },
        low,
    })?;
    Ok(())
}
