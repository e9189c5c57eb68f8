//! The opening of a log.
ghost use Rattle.std.specs.Prelude.{◌≡◌, IfOk, OnOk};
ghost use Rattle.log_scan.specs.ScanState.{scan_start};
ghost use Rattle.log_scan.specs.Transition.{transition};

use crate::opening::Opening;
use crate::stage::Stage;
use crate::{In, Out};
use std::alloc::Global;
use std::marker::Model;
use std::mem;
use xfs_base::{Crosses, List, LogId, Mem};

/// The opening of a client's log, or of the cleaner's, after a restart (the 1996 paper, "Recovery and
/// Reconfiguration"): the registry is asked for the maps, every server is fenced and lists what it holds of
/// the log, and the registry is asked again. Of the segments that are listed, and that its least horizon does
/// not cover, those of the newest incarnation count; of these the one of the greatest number, by its greatest
/// attempt, is where the log goes on. Where a member that lost nothing lacks it, it was not settled: it is
/// passed over, and the log goes on behind its prior. From there the chain is read back by the priors, down
/// to the horizon. Contracts see it as a record.
pub struct Scan {
    opening: Opening,
    stage: Stage,
}

impl Drop for Scan {
    fn drop(self) {
        let Scan { opening, stage } = self;
        drop(opening);
        drop(stage);
    }
}

impl Model for Scan {
    ghost use Rattle.log_scan.specs.ScanState.{ScanState};

    ghost Value = { ScanState };

    ghost view = { λ s. record { opening = s.opening; stage = s.stage } };
}

impl Crosses for Scan {}

impl Scan {
    /// The opening of a log, 1 to 9, in this incarnation of its owner. Its first Tick asks the registry.
    pub fn start(_alloc: Global, log: LogId, inc: u32) -> Mem<Scan>
        ensures { IfOk result (λ scan. scan ≡ scan_start log inc) }
    {
        Ok(Scan {
            opening: Opening::begin(log, inc),
            stage: Stage::Hails,
        })
    }

    /// One step: what the opening is after the input, and what it says. After want of memory nothing is said
    /// of the opening.
    pub fn take(&mut self, alloc: Global, input: In) -> Mem<List<Out>>
        ensures state { OnOk result (self.new ≡ (transition self.old input).state) }
        ensures outs { IfOk result (λ outs. outs ≡ (transition self.old input).outs) }
    {
        let mut outs = List::new(alloc);
        let stage = mem::replace(&mut self.stage, Stage::Over);
        self.stage = self.opening.take(alloc, &mut outs, stage, input)?;
        Ok(outs)
    }

    /// The horizon: nothing of the log with a lower number is needed. 1 until the Welcome after the last list.
    pub fn low(&self) -> u32
        ensures { result ≡ self.now.opening.low }
    {
        self.opening.low
    }
}
