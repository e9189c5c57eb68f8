//! The takeover.
ghost use Rattle.std.specs.Prelude.{◌≡◌, ◌++◌, IfOk, OnOk, All, IsTrue, Some, None};
ghost use Rattle.takeover.specs.Course.{StartsSlot};
ghost use Rattle.takeover.specs.TakeState.{take_start};
ghost use Rattle.takeover.specs.Transition.{can_ask, awaited, awaits, begin_if_all, on_report, on_told, waiting, on_maps, polls, on_tick, transition};

use crate::input::In;
use crate::output::Out;
use crate::report::{Report, awaited_of, is_among};
use crate::rows::Row;
use crate::source::{Present, Source, sources_of};
use delta_index::DeltaIndex;
use group_map::GroupMap;
use std::alloc::Global;
use std::collections::VecDeque;
use std::marker::Model;
use stripe_code::Told;
use xfs_base::{Crosses, List, Mem, NodeId, SlotNews};

/// The takeover of a slot by its new manager: first the clients and the cleaner are polled; once all have
/// reported, the segments of the slot's newest checkpoint are read, and then logs 1 to 9, each backward from
/// its reported end to the first segment that the checkpoint does not cover. Segments are read one at a time.
/// What they tell of the slot's blocks is joined to its index. Contracts see it as a record.
pub struct Take {
    pub(crate) news: SlotNews,
    pub(crate) groups: GroupMap,
    pub(crate) clients: u8,
    pub(crate) reports: List<Report>,
    pub(crate) sources: VecDeque<Source>,
    pub(crate) present: Option<Present>,
    pub(crate) ask: u32,
    pub(crate) chain: VecDeque<List<Row>>,
    pub(crate) index: DeltaIndex,
}

impl Drop for Take {
    fn drop(self) {
        let Take {
            news,
            groups,
            clients: _,
            reports,
            sources,
            present,
            ask: _,
            chain,
            index,
        } = self;
        drop(news);
        drop(groups);
        drop(reports);
        drop(sources);
        drop(present);
        drop(chain);
        drop(index);
    }
}

impl Model for Take {
    ghost use Rattle.takeover.specs.TakeState.{TakeState};

    ghost Value = { TakeState };

    ghost view = { λ t. record {
      news = t.news;
      groups = t.groups;
      clients = t.clients;
      reports = t.reports;
      sources = t.sources.items;
      present = t.present;
      ask = t.ask;
      chain = t.chain.items;
      index = t.index;
    } };
}

impl Crosses for Take {}

impl Take {
    /// A takeover of the slot of these news, of which nothing is known yet. The slot is 0 to 7, its horizon has
    /// nine numbers from 1 on, and there are 1 to 8 clients; of other news nothing more is said than what the
    /// takeover does. Its first Tick polls the clients and the cleaner.
    pub fn start(alloc: Global, news: SlotNews, groups: GroupMap, clients: u8) -> Mem<Take>
        ensures { IfOk result (λ take. take ≡ take_start news groups clients) }
    {
        Ok(Take {
            news,
            groups,
            clients,
            reports: List::new(alloc),
            sources: VecDeque::new(alloc),
            present: None,
            ask: 0,
            chain: VecDeque::new(alloc),
            index: DeltaIndex::new(alloc),
        })
    }

    /// One step: what the takeover is after the input, and what it says, as `specs/Transition.antt` says for
    /// each of them. After want of memory nothing is said of the takeover.
    ///
    /// - Of each node that is polled the first report counts, and of no other.
    /// - A segment is lost where, in two rounds of questions one after the other, more of its fragments were
    ///   missing at the same servers than its group's parity makes good. That ends the takeover.
    /// - A segment whose group is not known waits for it.
    /// - Where no further question can be numbered, or the index has more than 4,294,967,295 rows, the slot
    ///   never becomes active.
    pub fn take(&mut self, alloc: Global, input: In) -> Mem<List<Out>>
        ensures state { OnOk result (self.new ≡ (transition self.old input).state) }
        ensures outs { IfOk result (λ outs. outs ≡ (transition self.old input).outs) }
        ensures starts { IfOk result (λ outs. All StartsSlot outs) }
    {
        self.step(alloc, input)
    }

    fn step(&mut self, alloc: Global, input: In) -> Mem<List<Out>>
        ensures state { OnOk result (self.new ≡ (transition self.old input).state) }
        ensures outs { IfOk result (λ outs. outs ≡ (transition self.old input).outs) }
    {
        let mut outs = List::new(alloc);
        match input {
            In::Report { from, held, end } => {
                self.on_report(alloc, &mut outs, Report { from, held, end })?
            }
            In::Got {
                ask,
                server,
                generation: _,
                fragment,
            } => self.on_told(alloc, &mut outs, ask, server, Told::Held(fragment))?,
            In::Missing {
                ask,
                server,
                generation,
            } => self.on_told(alloc, &mut outs, ask, server, Told::Missing(generation))?,
            In::Maps(groups) => self.on_maps(alloc, &mut outs, groups)?,
            In::Tick => self.on_tick(alloc, &mut outs)?,
        }
        Ok(outs)
    }

    // Whether a further question can be numbered.
    fn can_ask(&self) -> bool
        ensures { result ≡ can_ask self.now }
    {
        self.ask < u32::MAX
    }

    // The nodes whose report is not in, in order.
    fn awaited(&self, alloc: Global) -> Mem<List<NodeId>>
        ensures { IfOk result (λ nodes. nodes ≡ awaited self.now) }
    {
        awaited_of(alloc, self.clients, self.reports.as_slice())
    }

    fn awaits(&self, alloc: Global, node: NodeId) -> Mem<bool>
        ensures { IfOk result (λ found. found ≡ awaits self.now node) }
    {
        Ok(is_among(self.awaited(alloc)?.as_slice(), node))
    }

    #[tactic(auto, unfolding(crate::specs::Transition::on_report))]
    fn on_report(&mut self, alloc: Global, outs: &mut List<Out>, report: Report) -> Mem<()>
        ensures state { OnOk result (self.new ≡ (on_report self.old report).state) }
        ensures outs { OnOk result (outs.new ≡ outs.old ++ (on_report self.old report).outs) }
    {
        if !self.can_ask() || !self.awaits(alloc, report.from)? {
            return Ok(());
        }
        self.reports.push(report)?;
        self.begin_if_all(alloc, outs)
    }

    // Once all reports are in, the reading begins.
    fn begin_if_all(&mut self, alloc: Global, outs: &mut List<Out>) -> Mem<()>
        requires { IsTrue (can_ask self.old) }
        ensures state { OnOk result (self.new ≡ (begin_if_all self.old).state) }
        ensures outs { OnOk result (outs.new ≡ outs.old ++ (begin_if_all self.old).outs) }
    {
        if self.awaited(alloc)?.is_empty() {
            self.sources = sources_of(alloc, &self.news, self.reports.as_slice())?;
            self.go_on(alloc, outs)?;
        }
        Ok(())
    }

    #[tactic(auto, unfolding(crate::specs::Transition::on_told))]
    fn on_told(
        &mut self,
        alloc: Global,
        outs: &mut List<Out>,
        ask: u32,
        server: u8,
        told: Told,
    ) -> Mem<()>
        ensures state { OnOk result (self.new ≡ (on_told self.old ask server told).state) }
        ensures outs { OnOk result (outs.new ≡ outs.old ++ (on_told self.old ask server told).outs) }
    {
        if !self.can_ask() {
            return Ok(());
        }
        match self.present.take() {
            None => Ok(()),
            Some(Present { source, reading }) => {
                self.judge(alloc, outs, source, reading, ask, server, told)
            }
        }
    }

    #[tactic(auto, unfolding(crate::specs::Transition::on_maps))]
    fn on_maps(&mut self, alloc: Global, outs: &mut List<Out>, groups: GroupMap) -> Mem<()>
        ensures state { OnOk result (self.new ≡ (on_maps self.old groups).state) }
        ensures outs { OnOk result (outs.new ≡ outs.old ++ (on_maps self.old groups).outs) }
    {
        self.groups = groups;
        match self.waiting() {
            None => Ok(()),
            Some(source) => {
                if !self.can_ask() {
                    return Ok(());
                }
                self.seek(alloc, outs, source)
            }
        }
    }

    // The source that waits for its group.
    fn waiting(&self) -> Option<Source>
        ensures { result ≡ waiting self.now.present }
    {
        match &self.present {
            None => None,
            Some(present) => present.waiting(),
        }
    }

    fn on_tick(&self, alloc: Global, outs: &mut List<Out>) -> Mem<()>
        ensures { OnOk result (outs.new ≡ outs.old ++ on_tick self.now) }
    {
        add_polls(outs, self.awaited(alloc)?.as_slice())?;
        match &self.present {
            None => Ok(()),
            Some(present) => present.repeat(alloc, outs),
        }
    }
}

// Asks these nodes for their reports.
fn add_polls(outs: &mut List<Out>, nodes: &[NodeId]) -> Mem<()>
    ensures { OnOk result (outs.new ≡ outs.old ++ polls nodes.now) }
{
    for node in nodes {
        outs.push(Out::Poll { to: *node })?;
    }
    Ok(())
}
