//! Reading the chain back, one segment after the other.
ghost use Rattle.std.specs.Prelude.{◌≡◌, ◌++◌, ◌<◌, IfOk, OnOk, Some, map};
ghost use Rattle.xfs_base.specs.Limits.{u32_end};
ghost use Rattle.log_scan.specs.declared.output.Out.TheVariants.{Fetch};
ghost use Rattle.log_scan.specs.Transition.{backward_from, end_below, backward_with, backward_told, backward_fetch, target_at, prior_at, is_bottom, opening_begin_round, opening_follow, opening_go_on, opening_confirm, opening_read, opening_hear};

use crate::Out;
use crate::opening::Opening;
use crate::stage::{Backward, Stage};
use segment_format::Segment;
use segment_reading::{Next, Reading, Target, known_group};
use std::alloc::Global;
use stripe_code::Told;
use xfs_base::{End, List, LogId, Mem, Prior, SegName, SegRef};

impl Backward {
    /// Before the segment at which the chain starts.
    pub(crate) fn from(alloc: Global, start: End) -> Backward
        ensures { result ≡ backward_from start }
    {
        Backward {
            start,
            next: start,
            chain: List::new(alloc),
        }
    }

    /// With the next segment, which was read.
    pub(crate) fn with(self, segment: Segment) -> Mem<Backward>
        ensures { IfOk result (λ backward. backward ≡ backward_with self segment) }
    {
        let Backward {
            start,
            mut chain,
            ..
        } = self;
        let next = end_below(&segment);
        chain.push(segment)?;
        Ok(Backward { start, next, chain })
    }

    /// The whole chain, to be told.
    pub(crate) fn told(self) -> Out
        ensures { result ≡ backward_told self }
    {
        let mut segments = self.chain.into_vec();
        segments.reverse();
        Out::Chain {
            segments: List::from_vec(segments),
            end: self.start,
            prior: prior_at(self.start),
        }
    }
}

impl Opening {
    /// The next segment is read, or all are.
    #[tactic(auto, unfolding(crate::specs::Transition::opening_follow))]
    pub(crate) fn follow(
        &mut self,
        alloc: Global,
        outs: &mut List<Out>,
        backward: Backward,
    ) -> Mem<Stage>
        requires { self.old.ask < u32_end }
        ensures opening { OnOk result (self.new ≡ (opening_follow self.old backward).state.opening) }
        ensures stage { IfOk result (λ stage. stage ≡ (opening_follow self.old backward).state.stage) }
        ensures outs { OnOk result (outs.new ≡ outs.old ++ (opening_follow self.old backward).outs) }
    {
        if is_bottom(self.low, backward.next) {
            outs.push(backward.told())?;
            return Ok(Stage::Over);
        }
        self.begin_round(alloc, outs, backward)
    }

    /// The registry confirms what the reader asked between two rounds, or ends the chain by its horizon.
    #[tactic(auto, unfolding(crate::specs::Transition::opening_confirm))]
    pub(crate) fn confirm(
        &mut self,
        alloc: Global,
        outs: &mut List<Out>,
        backward: Backward,
        reading: Option<Reading>,
    ) -> Mem<Stage>
        requires { self.old.ask < u32_end }
        ensures opening { OnOk result (self.new ≡ (opening_confirm self.old backward reading).state.opening) }
        ensures stage { IfOk result (λ stage. stage ≡ (opening_confirm self.old backward reading).state.stage) }
        ensures outs { OnOk result (outs.new ≡ outs.old ++ (opening_confirm self.old backward reading).outs) }
    {
        if is_bottom(self.low, backward.next) {
            outs.push(backward.told())?;
            return Ok(Stage::Over);
        }
        match reading {
            None => self.begin_round(alloc, outs, backward),
            Some(mut reading) => {
                let next = reading.confirmed(alloc, self.ask + 1)?;
                self.go_on(alloc, outs, backward, reading, next)
            }
        }
    }

    /// Takes what a server told in answer to a question.
    pub(crate) fn hear(
        &mut self,
        alloc: Global,
        outs: &mut List<Out>,
        backward: Backward,
        reading: Option<Reading>,
        ask: u32,
        server: u8,
        told: Told,
    ) -> Mem<Stage>
        ensures opening { OnOk result (self.new ≡ (opening_hear self.old backward reading ask server told).state.opening) }
        ensures stage { IfOk result (λ stage. stage ≡ (opening_hear self.old backward reading ask server told).state.stage) }
        ensures outs { OnOk result (outs.new ≡ outs.old ++ (opening_hear self.old backward reading ask server told).outs) }
    {
        match reading {
            None => Ok(Stage::Reads {
                backward,
                reading: None,
            }),
            Some(reading) => {
                if !self.can_ask() {
                    return Ok(Stage::Reads {
                        backward,
                        reading: Some(reading),
                    });
                }
                self.read(alloc, outs, backward, reading, ask, server, told)
            }
        }
    }

    fn read(
        &mut self,
        alloc: Global,
        outs: &mut List<Out>,
        backward: Backward,
        mut reading: Reading,
        ask: u32,
        server: u8,
        told: Told,
    ) -> Mem<Stage>
        requires { self.old.ask < u32_end }
        ensures opening { OnOk result (self.new ≡ (opening_read self.old backward reading self.old.groups ask server told).state.opening) }
        ensures stage { IfOk result (λ stage. stage ≡ (opening_read self.old backward reading self.old.groups ask server told).state.stage) }
        ensures outs { OnOk result (outs.new ≡ outs.old ++ (opening_read self.old backward reading self.old.groups ask server told).outs) }
    {
        match &self.groups {
            None => Ok(reads(backward, reading)),
            Some(groups) => {
                let next = reading.take(alloc, groups, ask, server, told)?;
                self.go_on(alloc, outs, backward, reading, next)
            }
        }
    }

    // What the reading of the next segment does next.
    #[tactic(auto, unfolding(crate::specs::Transition::opening_go_on))]
    fn go_on(
        &mut self,
        alloc: Global,
        outs: &mut List<Out>,
        backward: Backward,
        reading: Reading,
        next: Next,
    ) -> Mem<Stage>
        requires { self.old.ask < u32_end }
        ensures opening { OnOk result (self.new ≡ (opening_go_on self.old backward reading next).state.opening) }
        ensures stage { IfOk result (λ stage. stage ≡ (opening_go_on self.old backward reading next).state.stage) }
        ensures outs { OnOk result (outs.new ≡ outs.old ++ (opening_go_on self.old backward reading next).outs) }
    {
        match next {
            Next::Wait => Ok(reads(backward, reading)),
            Next::Ask => {
                self.ask = reading.ask();
                fetch(alloc, outs, &reading)?;
                Ok(reads(backward, reading))
            }
            Next::Again => {
                self.ask_anew(outs)?;
                Ok(reads(backward, reading))
            }
            Next::Read(segment) => self.follow(alloc, outs, backward.with(segment)?),
            Next::Lost => {
                let name = reading.target().seg.name;
                outs.push(Out::Lost { name })?;
                Ok(Stage::Over)
            }
        }
    }

    // The next segment is asked for, or where its group is not known the registry is.
    #[tactic(auto, unfolding(crate::specs::Transition::opening_begin_round))]
    fn begin_round(&mut self, alloc: Global, outs: &mut List<Out>, backward: Backward) -> Mem<Stage>
        requires { self.old.ask < u32_end }
        ensures opening { OnOk result (self.new ≡ (opening_begin_round self.old backward).state.opening) }
        ensures stage { IfOk result (λ stage. stage ≡ (opening_begin_round self.old backward).state.stage) }
        ensures outs { OnOk result (outs.new ≡ outs.old ++ (opening_begin_round self.old backward).outs) }
    {
        match known_group(&self.groups, backward.next.group) {
            None => {
                self.ask_anew(outs)?;
                Ok(Stage::Reads {
                    backward,
                    reading: None,
                })
            }
            Some(group) => {
                let target = target_at(self.log, backward.next);
                let reading = Reading::start(alloc, target, group, self.ask + 1)?;
                self.ask += 1;
                fetch(alloc, outs, &reading)?;
                Ok(reads(backward, reading))
            }
        }
    }
}

fn reads(backward: Backward, reading: Reading) -> Stage
    ensures { result ≡ Stage.Reads backward (Some reading) }
{
    Stage::Reads {
        backward,
        reading: Some(reading),
    }
}

/// Asks the servers that the reading still asks.
pub(crate) fn fetch(alloc: Global, outs: &mut List<Out>, reading: &Reading) -> Mem<()>
    ensures { OnOk result (outs.new ≡ outs.old ++ backward_fetch reading.now) }
{
    let servers = reading.unanswered(alloc)?;
    add_fetches(
        outs,
        servers.as_slice(),
        reading.target().seg.name,
        reading.ask(),
    )
}

fn add_fetches(outs: &mut List<Out>, servers: &[u8], name: SegName, ask: u32) -> Mem<()>
    ensures { OnOk result (outs.new ≡ outs.old ++ map (λ server. Fetch server name ask) servers.now) }
{
    for server in servers {
        outs.push(Out::Fetch {
            server: *server,
            name,
            ask,
        })?;
    }
    Ok(())
}

// The segment before this one.
fn end_below(segment: &Segment) -> End
    ensures { result ≡ end_below segment.now }
{
    End {
        seq: segment.name.seq.saturating_sub(1),
        pass: segment.prior.pass,
        group: segment.prior.group,
    }
}

fn target_at(log: LogId, end: End) -> Target
    ensures { result ≡ target_at log end }
{
    let name = SegName {
        log,
        seq: end.seq,
        pass: end.pass,
    };
    Target {
        seg: SegRef {
            name,
            group: end.group,
        },
        block: None,
    }
}

fn prior_at(end: End) -> Prior
    ensures { result ≡ prior_at end }
{
    Prior {
        pass: end.pass,
        group: end.group,
    }
}

// Whether nothing is read there: it is below the horizon, or no segment is named.
fn is_bottom(low: u32, end: End) -> bool
    ensures { result ≡ is_bottom low end }
{
    end.seq < low || prior_at(end).names_none()
}
