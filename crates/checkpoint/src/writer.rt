//! The writer of checkpoints.
ghost use Rattle.std.specs.Prelude.{◌≡◌, ◌++◌, IfOk, OnOk};
ghost use Rattle.checkpoint.specs.Transition.{writer_start, part_at, answer, writer_finish, go_on, on_begin, on_settled, on_ack, transition};

use crate::input::In;
use crate::output::Out;
use crate::work::{Work, queue_of};
use std::alloc::Global;
use std::marker::Model;
use xfs_base::{Crosses, End, List, LogId, Mem, SegName, SegRef};

/// The writer of a manager's checkpoints into its own log (the 1996 paper, "Recovery and
/// Reconfiguration"), one after the other. Contracts see it as a record: the log, how many checkpoints
/// were begun, the one that is being written, and the epoch of the one whose answer is awaited.
pub struct Writer {
    log: LogId,
    number: u32,
    work: Option<Work>,
    asked: Option<u32>,
}

impl Drop for Writer {
    fn drop(self) {
        let Writer {
            log: _,
            number: _,
            work,
            asked: _,
        } = self;
        drop(work);
    }
}

impl Model for Writer {
    ghost use Rattle.checkpoint.specs.WriterState.{WriterState};

    ghost Value = { WriterState };

    ghost view = { λ w. record { log = w.log; number = w.number; work = w.work; asked = w.asked } };
}

impl Crosses for Writer {}

// The segment of a log at its end.
fn part_at(log: LogId, end: End) -> SegRef
    ensures { result ≡ part_at log end }
{
    let name = SegName {
        log,
        seq: end.seq,
        pass: end.pass,
    };
    SegRef {
        name,
        group: end.group,
    }
}

// What the registry's answer to a checkpoint of this epoch says.
fn answer(own: u32, epoch: u32) -> Out
    ensures { result ≡ answer own epoch }
{
    if epoch == own {
        Out::Kept
    } else {
        Out::Stale { epoch }
    }
}

impl Writer {
    /// A writer into this log, which has done nothing yet.
    pub fn start(_alloc: Global, log: LogId) -> Mem<Writer>
        ensures { IfOk result (λ writer. writer ≡ writer_start log) }
    {
        Ok(Writer {
            log,
            number: 0,
            work: None,
            asked: None,
        })
    }

    /// What the writer does on an input, and what its manager then does, in order.
    ///
    /// - A checkpoint is begun where none is being written and no answer is awaited, and its pages are
    ///   given out as Parts, a page in each, for one segment after the other; the next follow when the
    ///   segment before is settled. When all are, or where there is no page, the checkpoint is done: it
    ///   names the parts that it was handed, and then those segments.
    /// - The registry's answer to the checkpoint that was done last ends it, and is given out: `Kept` where
    ///   the registry still has this epoch of the slot, and `Stale` where it has a greater one.
    ///
    /// Anything else changes nothing and gives nothing, and so does the beginning of a checkpoint once
    /// 4,294,967,295 were begun. After want of memory nothing is said of the writer.
    pub fn take(&mut self, alloc: Global, input: In) -> Mem<List<Out>>
        ensures state { OnOk result (self.new ≡ (transition self.old input).state) }
        ensures outs { IfOk result (λ outs. outs ≡ (transition self.old input).outs) }
    {
        let mut outs = List::new(alloc);
        match input {
            In::Begin {
                slot,
                epoch,
                pages,
                parts,
                horizon,
            } => {
                let work = Work {
                    slot,
                    epoch,
                    left: queue_of(alloc, pages)?,
                    parts,
                    horizon,
                };
                self.on_begin(alloc, &mut outs, work)?
            }
            In::Settled { end } => self.on_settled(alloc, &mut outs, end)?,
            In::Ack { epoch, number } => self.on_ack(&mut outs, epoch, number)?,
        }
        Ok(outs)
    }

    fn on_begin(&mut self, alloc: Global, outs: &mut List<Out>, work: Work) -> Mem<()>
        ensures state { OnOk result (self.new ≡ (on_begin self.old work).state) }
        ensures outs { OnOk result (outs.new ≡ outs.old ++ (on_begin self.old work).outs) }
    {
        if self.work.is_some() || self.asked.is_some() || self.number == u32::MAX {
            return Ok(());
        }
        self.number += 1;
        self.go_on(alloc, outs, work)
    }

    fn on_settled(&mut self, alloc: Global, outs: &mut List<Out>, end: End) -> Mem<()>
        ensures state { OnOk result (self.new ≡ (on_settled self.old end).state) }
        ensures outs { OnOk result (outs.new ≡ outs.old ++ (on_settled self.old end).outs) }
    {
        match self.work.take() {
            None => Ok(()),
            Some(mut work) => {
                work.parts.push(part_at(self.log, end))?;
                self.go_on(alloc, outs, work)
            }
        }
    }

    // Gives out the next pages, or says that all are written.
    fn go_on(&mut self, alloc: Global, outs: &mut List<Out>, work: Work) -> Mem<()>
        ensures state { OnOk result (self.new ≡ (go_on self.old work).state) }
        ensures outs { OnOk result (outs.new ≡ outs.old ++ (go_on self.old work).outs) }
    {
        let mut work = work;
        if work.left.len() == 0 {
            return self.finish(outs, work);
        }
        let items = work.next_items(alloc)?;
        outs.push(Out::Parts { items })?;
        self.work = Some(work);
        Ok(())
    }

    fn finish(&mut self, outs: &mut List<Out>, work: Work) -> Mem<()>
        ensures state { OnOk result (self.new ≡ (writer_finish self.old work).state) }
        ensures outs { OnOk result (outs.new ≡ outs.old ++ (writer_finish self.old work).outs) }
    {
        self.work = None;
        self.asked = Some(work.epoch);
        outs.push(Out::Done {
            slot: work.slot,
            epoch: work.epoch,
            parts: work.parts,
            horizon: work.horizon,
        })
    }

    fn on_ack(&mut self, outs: &mut List<Out>, epoch: u32, number: u32) -> Mem<()>
        ensures state { OnOk result (self.new ≡ (on_ack self.old epoch number).state) }
        ensures outs { OnOk result (outs.new ≡ outs.old ++ (on_ack self.old epoch number).outs) }
    {
        match self.asked {
            Some(own) => {
                if number != self.number || epoch < own {
                    return Ok(());
                }
                self.asked = None;
                outs.push(answer(own, epoch))
            }
            None => Ok(()),
        }
    }
}
