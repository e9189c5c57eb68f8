//! Packets by which the owner of a log tells managers what its segments say, and by which a new manager
//! asks what clients hold.
ghost use Rattle.std.specs.Prelude.{◌≡◌, IfOk};

use std::alloc::Global;
use xfs_base::{BlockId, Copied, End, Entry, List, Mem, Mode};

/// The owner of a log tells a slot's manager what its segments in a range say of the slot's blocks.
pub struct Deltas {
    /// The slot, 0 to 7.
    pub slot: u8,
    /// The number of the first segment.
    pub first: u32,
    /// The number of the last.
    pub upto: u32,
    /// What they say, in rising order of segments.
    pub rows: List<(BlockId, Entry)>,
}

impl Drop for Deltas {
    fn drop(self) {
        let Deltas {
            slot: _,
            first: _,
            upto: _,
            rows,
        } = self;
        drop(rows);
    }
}

/// A manager has applied a log to the index of a slot.
#[derive(Clone, Copy)]
pub struct DeltaAck {
    /// The slot, 0 to 7.
    pub slot: u8,
    /// The slot's epoch.
    pub epoch: u32,
    /// The number of the last segment that it has applied.
    pub applied: u32,
}

/// A slot's new manager asks a client or the cleaner what it holds (the 1996 paper, "Recovery").
#[derive(Clone, Copy)]
pub struct Poll {
    /// The slot, 0 to 7.
    pub slot: u8,
    /// The slot's new epoch.
    pub epoch: u32,
}

/// The answer to a Poll.
pub struct Report {
    /// The slot, 0 to 7.
    pub slot: u8,
    /// The epoch of the Poll.
    pub epoch: u32,
    /// The blocks of the slot that it holds, with their modes, Copy or Own, by block.
    pub held: List<(BlockId, Mode)>,
    /// The end of its log.
    pub end: End,
}

impl Drop for Report {
    fn drop(self) {
        let Report {
            slot: _,
            epoch: _,
            held,
            end: _,
        } = self;
        drop(held);
    }
}

impl Deltas {
    /// A body equal to this one.
    pub fn copy(&self, alloc: Global) -> Mem<Deltas>
        ensures { IfOk result (λ copied. copied ≡ self.now) }
    {
        Ok(Deltas {
            slot: self.slot,
            first: self.first,
            upto: self.upto,
            rows: self.rows.copy(alloc)?,
        })
    }
}

impl Report {
    /// A body equal to this one.
    pub fn copy(&self, alloc: Global) -> Mem<Report>
        ensures { IfOk result (λ copied. copied ≡ self.now) }
    {
        Ok(Report {
            slot: self.slot,
            epoch: self.epoch,
            held: self.held.copy(alloc)?,
            end: self.end,
        })
    }
}

impl Copied for Deltas {
    fn copied(&self, alloc: Global) -> Mem<Deltas> {
        self.copy(alloc)
    }
}

impl Copied for Report {
    fn copied(&self, alloc: Global) -> Mem<Report> {
        self.copy(alloc)
    }
}
