//! The reading of a takeover, one segment after the other.
ghost use Rattle.std.specs.Prelude.{◌≡◌, ◌++◌, IfOk, OnOk, IsTrue, Some};
ghost use Rattle.takeover.specs.Transition.{can_ask, take_read, ask_servers, seek, go_on, active, hand_over, join_chain, go_on_from, has_read, take_lose, again, take_follow, take_judge};

use crate::Take;
use crate::output::Out;
use crate::report::{applied_of, beliefs_of};
use crate::rows::{Row, is_index, join, told_of};
use crate::source::{Present, Source, add_fetches};
use segment_format::Segment;
use segment_reading::{Next, Reading};
use std::alloc::Global;
use stripe_code::Told;
use xfs_base::{List, Mem, SegName};

impl Take {
    /// The next source is read; where none is left, the slot is handed over.
    #[tactic(auto, unfolding(crate::specs::Transition::go_on))]
    pub(crate) fn go_on(&mut self, alloc: Global, outs: &mut List<Out>) -> Mem<()>
        requires { IsTrue (can_ask self.old) }
        ensures state { OnOk result (self.new ≡ (go_on self.old).state) }
        ensures outs { OnOk result (outs.new ≡ outs.old ++ (go_on self.old).outs) }
    {
        match self.sources.pop_front() {
            None => {
                self.present = None;
                self.hand_over(alloc, outs)
            }
            Some(source) => self.seek(alloc, outs, source),
        }
    }

    // What the manager goes on with, unless the index is too long for a slot.
    fn hand_over(&self, alloc: Global, outs: &mut List<Out>) -> Mem<()>
        ensures { OnOk result (outs.new ≡ outs.old ++ hand_over self.now) }
    {
        let index = self.index.rows(alloc)?;
        if !is_index(index.as_slice()) {
            return Ok(());
        }
        outs.push(self.active(alloc, index)?)
    }

    fn active(&self, alloc: Global, index: List<Row>) -> Mem<Out>
        ensures { IfOk result (λ out. out ≡ active self.now index) }
    {
        let reports = self.reports.as_slice();
        Ok(Out::Active {
            epoch: self.news.epoch,
            index,
            beliefs: beliefs_of(alloc, reports)?,
            applied: applied_of(alloc, self.news.horizon.as_slice(), reports)?,
        })
    }

    /// The next segment of a source is read over its group, or waits until that is known.
    #[tactic(auto, unfolding(crate::specs::Transition::seek))]
    pub(crate) fn seek(&mut self, alloc: Global, outs: &mut List<Out>, source: Source) -> Mem<()>
        requires { IsTrue (can_ask self.old) }
        ensures state { OnOk result (self.new ≡ (seek self.old source).state) }
        ensures outs { OnOk result (outs.new ≡ outs.old ++ (seek self.old source).outs) }
    {
        match self.groups.lookup(source.seg.group) {
            Err(_) => {
                self.read(source, None);
                Ok(())
            }
            Ok(group) => {
                let reading = Reading::start(alloc, source.target(), group, self.ask + 1)?;
                self.ask_servers(alloc, outs, source, reading)
            }
        }
    }

    // A round begins under the next question.
    fn ask_servers(
        &mut self,
        alloc: Global,
        outs: &mut List<Out>,
        source: Source,
        reading: Reading,
    ) -> Mem<()>
        requires { IsTrue (can_ask self.old) }
        ensures state { OnOk result (self.new ≡ (ask_servers self.old source reading).state) }
        ensures outs { OnOk result (outs.new ≡ outs.old ++ (ask_servers self.old source reading).outs) }
    {
        self.ask += 1;
        let servers = reading.unanswered(alloc)?;
        add_fetches(outs, servers.as_slice(), source.seg.name, self.ask)?;
        self.read(source, Some(reading));
        Ok(())
    }

    // This is read at present.
    fn read(&mut self, source: Source, reading: Option<Reading>)
        ensures { self.new ≡ take_read self.old source reading }
    {
        self.present = Some(Present { source, reading });
    }

    /// What comes of an answer to the reading of a source, where its group is known.
    pub(crate) fn judge(
        &mut self,
        alloc: Global,
        outs: &mut List<Out>,
        source: Source,
        reading: Option<Reading>,
        ask: u32,
        server: u8,
        told: Told,
    ) -> Mem<()>
        requires { IsTrue (can_ask self.old) }
        ensures state { OnOk result (self.new ≡ (take_judge self.old source reading ask server told).state) }
        ensures outs { OnOk result (outs.new ≡ outs.old ++ (take_judge self.old source reading ask server told).outs) }
    {
        match reading {
            None => {
                self.read(source, None);
                Ok(())
            }
            Some(mut reading) => {
                let next = reading.take(alloc, &self.groups, ask, server, told)?;
                self.follow(alloc, outs, source, reading, next)
            }
        }
    }

    // What the reading says comes next.
    fn follow(
        &mut self,
        alloc: Global,
        outs: &mut List<Out>,
        source: Source,
        reading: Reading,
        next: Next,
    ) -> Mem<()>
        requires { IsTrue (can_ask self.old) }
        ensures state { OnOk result (self.new ≡ (take_follow self.old source reading next).state) }
        ensures outs { OnOk result (outs.new ≡ outs.old ++ (take_follow self.old source reading next).outs) }
    {
        match next {
            Next::Again => self.again(alloc, outs, source, reading),
            Next::Read(segment) => self.has_read(alloc, outs, source, &segment),
            Next::Wait | Next::Ask | Next::Lost => {
                self.read(source, Some(reading));
                Ok(())
            }
        }
    }

    // Between two rounds nothing is asked: the next one begins at once, or the segment is lost.
    #[tactic(auto, unfolding(crate::specs::Transition::again))]
    fn again(
        &mut self,
        alloc: Global,
        outs: &mut List<Out>,
        source: Source,
        mut reading: Reading,
    ) -> Mem<()>
        requires { IsTrue (can_ask self.old) }
        ensures state { OnOk result (self.new ≡ (again self.old source reading).state) }
        ensures outs { OnOk result (outs.new ≡ outs.old ++ (again self.old source reading).outs) }
    {
        match reading.confirmed(alloc, self.ask + 1)? {
            Next::Ask => self.ask_servers(alloc, outs, source, reading),
            Next::Lost => self.lose(outs, source.seg.name),
            Next::Wait | Next::Again | Next::Read(_) => {
                self.read(source, Some(reading));
                Ok(())
            }
        }
    }

    // The slot is broken.
    fn lose(&mut self, outs: &mut List<Out>, name: SegName) -> Mem<()>
        ensures state { OnOk result (self.new ≡ (take_lose self.old name).state) }
        ensures outs { OnOk result (outs.new ≡ outs.old ++ (take_lose self.old name).outs) }
    {
        self.sources.clear();
        self.present = None;
        outs.push(Out::Lost { name })
    }

    // A segment of the source was read.
    #[tactic(auto, unfolding(crate::specs::Transition::has_read))]
    fn has_read(
        &mut self,
        alloc: Global,
        outs: &mut List<Out>,
        source: Source,
        segment: &Segment,
    ) -> Mem<()>
        requires { IsTrue (can_ask self.old) }
        ensures state { OnOk result (self.new ≡ (has_read self.old source segment.now).state) }
        ensures outs { OnOk result (outs.new ≡ outs.old ++ (has_read self.old source segment.now).outs) }
    {
        let rows = told_of(alloc, self.news.slot, segment)?;
        self.chain.push_front(rows)?;
        self.go_on_from(alloc, outs, source.back_from(segment))
    }

    // The segment before it is read, or the source is read whole.
    fn go_on_from(&mut self, alloc: Global, outs: &mut List<Out>, before: Option<Source>) -> Mem<()>
        requires { IsTrue (can_ask self.old) }
        ensures state { OnOk result (self.new ≡ (go_on_from self.old before).state) }
        ensures outs { OnOk result (outs.new ≡ outs.old ++ (go_on_from self.old before).outs) }
    {
        match before {
            Some(source) => self.seek(alloc, outs, source),
            None => {
                self.join_chain(alloc)?;
                self.go_on(alloc, outs)
            }
        }
    }

    // What the source told is merged.
    fn join_chain(&mut self, alloc: Global) -> Mem<()>
        ensures { OnOk result (self.new ≡ join_chain self.old) }
    {
        join(alloc, &mut self.index, &self.chain)?;
        self.chain.clear();
        Ok(())
    }
}
