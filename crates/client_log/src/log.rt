//! The log: its state, its start, what it takes, and what a node reads of it.
ghost use Rattle.std.specs.Prelude.{◌≡◌, ◌↔◌, ◌++◌, [], None, Some, OnOk, IfOk, IsTrue, MatchOption};
ghost use Rattle.std.specs.Option.{option_map};
ghost use Rattle.segment_format.specs.Format.{IsLog};
ghost use Rattle.client_log.specs.LogState.{log_start};
ghost use Rattle.client_log.specs.Transition.{transition};

use crate::{Change, In, Out};
use group_map::GroupMap;
use log_flight::{Dirty, Flight};
use segment_format::Segment;
use std::alloc::Global;
use std::marker::Model;
use xfs_base::{Crosses, End, List, LogId, Mem};

/// A log that its owner writes. Contracts see it as a record of its parts (`specs/LogState.antt`).
pub struct Log {
    pub(crate) log: LogId,
    pub(crate) inc: u32,
    pub(crate) end: End,
    pub(crate) dirty: Dirty,
    pub(crate) flight: Option<Flight>,
    pub(crate) groups: GroupMap,
}

impl Drop for Log {
    fn drop(self) {
        let Log {
            log: _,
            inc: _,
            end: _,
            dirty,
            flight,
            groups,
        } = self;
        drop(dirty);
        drop(flight);
        drop(groups);
    }
}

impl Model for Log {
    ghost use Rattle.segment_format.specs.Format.{IsLog};
    ghost use Rattle.client_log.specs.LogState.{LogState};

    ghost Value = { LogState };

    ghost view = { λ l. record { log = l.log; inc = l.inc; end = l.end; dirty = l.dirty; flight = l.flight; groups = l.groups } };

    ghost invariant = { λ l. IsLog l.log.0 };
}

impl Crosses for Log {}

impl Log {
    /// The log of an owner in this incarnation, whose newest settled segment is the end: nothing waits and
    /// nothing is in flight. The end of a log that has no segment yet is all zero. The log is 1 to 13.
    pub fn start(alloc: Global, log: LogId, inc: u32, end: End, groups: GroupMap) -> Mem<Log>
        requires { IsLog log.0 }
        ensures { IfOk result (λ made. made ≡ log_start log inc end groups) }
    {
        Ok(Log {
            log,
            inc,
            end,
            dirty: Dirty::new(alloc),
            flight: None,
            groups,
        })
    }

    /// What the log does on an input, as `specs/Transition.antt` says for each of them. After want of
    /// memory nothing is said of the log.
    pub fn take(&mut self, alloc: Global, input: In) -> Mem<List<Out>>
        ensures state { OnOk result (self.new ≡ (transition self.old input).state) }
        ensures outs { IfOk result (λ outs. outs ≡ (transition self.old input).outs) }
    {
        let mut outs = List::new(alloc);
        self.take_one(alloc, &mut outs, input)?;
        Ok(outs)
    }

    fn take_one(&mut self, alloc: Global, outs: &mut List<Out>, input: In) -> Mem<()>
        ensures state { OnOk result (self.new ≡ (transition self.old input).state) }
        ensures outs { OnOk result (outs.new ≡ outs.old ++ (transition self.old input).outs) }
    {
        match input {
            In::Put {
                block,
                entry,
                value,
            } => self.on_put(alloc, outs, block, Change { entry, value }),
            In::Parts(items) => self.on_parts(alloc, outs, items),
            In::Seal => self.on_seal(alloc, outs),
            In::Acked {
                name,
                index,
                generation,
            } => self.on_acked(alloc, outs, name, index, generation),
            In::Maps(groups) => self.on_maps(alloc, outs, groups),
            In::Tick => self.on_tick(alloc, outs),
        }
    }

    /// The newest settled segment of the log.
    pub fn end(&self) -> End
        ensures { result ≡ self.now.end }
    {
        self.end
    }

    /// The segment in flight; none exactly where none is.
    pub fn flight(&self) -> Option<&Segment>
        ensures none { result ≡ None ↔ (self.now.flight ≡ None) }
        ensures some { MatchOption result (self.now.flight ≡ None) (λ s. option_map (λ f. f.segment) self.now.flight ≡ Some s.now) }
    {
        match &self.flight {
            None => None,
            Some(flight) => Some(flight.segment()),
        }
    }

    /// Whether all that was put is settled: nothing waits, and nothing is in flight.
    pub fn is_settled(&self) -> bool
        ensures { IsTrue result ↔ ((self.now.dirty ≡ []) × (self.now.flight ≡ None)) }
    {
        self.dirty.len() == 0 && self.flight.is_none()
    }
}
