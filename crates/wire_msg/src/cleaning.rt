//! Packets by which the cleaner asks managers which blocks of old segments are live (the 1996 paper, "LFS").
ghost use Rattle.std.specs.Prelude.{◌≡◌, IfOk};

use std::alloc::Global;
use xfs_base::{BlockId, Copied, Entry, List, Mem, Place, SegName};

/// The cleaner asks whether the newest version of a block lies at a place.
#[derive(Clone, Copy)]
pub struct Check {
    /// The block.
    pub block: BlockId,
    /// The place.
    pub place: Place,
    /// The cleaner's number of this question.
    pub ask: u32,
}

/// A manager answers a Check: it does.
#[derive(Clone, Copy)]
pub struct Live {
    /// The block.
    pub block: BlockId,
    /// The number of the question.
    pub ask: u32,
    /// The epoch of the block's slot.
    pub epoch: u32,
    /// What the index holds of the block.
    pub entry: Entry,
}

/// A manager answers a Check: it does not.
#[derive(Clone, Copy)]
pub struct Dead {
    /// The block.
    pub block: BlockId,
    /// The number of the question.
    pub ask: u32,
    /// The epoch of the block's slot.
    pub epoch: u32,
}

/// The cleaner asks how many live blocks of a slot each segment has.
#[derive(Clone, Copy)]
pub struct UsageAsk {
    /// The slot, 0 to 7.
    pub slot: u8,
    /// The cleaner's number of this question.
    pub ask: u32,
}

/// The answer to a UsageAsk.
pub struct Usage {
    /// The slot, 0 to 7.
    pub slot: u8,
    /// The number of the question.
    pub ask: u32,
    /// The epoch of the slot.
    pub epoch: u32,
    /// The counts above 0, by segment.
    pub counts: List<(SegName, u32)>,
}

impl Drop for Usage {
    fn drop(self) {
        let Usage {
            slot: _,
            ask: _,
            epoch: _,
            counts,
        } = self;
        drop(counts);
    }
}

impl Usage {
    /// A body equal to this one.
    pub fn copy(&self, alloc: Global) -> Mem<Usage>
        ensures { IfOk result (λ copied. copied ≡ self.now) }
    {
        Ok(Usage {
            slot: self.slot,
            ask: self.ask,
            epoch: self.epoch,
            counts: self.counts.copy(alloc)?,
        })
    }
}

impl Copied for Usage {
    fn copied(&self, alloc: Global) -> Mem<Usage> {
        self.copy(alloc)
    }
}
