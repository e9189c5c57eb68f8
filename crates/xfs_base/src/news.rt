//! What the registry tells of a slot.
ghost use Rattle.std.specs.Prelude.{◌≡◌, IfOk};

use crate::{Copied, List, Mem, SegRef};
use std::alloc::Global;

/// One slot of the manager map (the 1996 paper, "The Manager Map"), with its newest checkpoint.
pub struct SlotNews {
    /// The slot, 0 to 7.
    pub slot: u8,
    /// Its epoch, from 1.
    pub epoch: u32,
    /// The number of its manager.
    pub manager: u8,
    /// The segments of its newest checkpoint.
    pub parts: List<SegRef>,
    /// For each log 1 to 9 the first segment number that the checkpoint does not cover.
    pub horizon: List<u32>,
}

impl Drop for SlotNews {
    fn drop(self) {
        let SlotNews {
            slot: _,
            epoch: _,
            manager: _,
            parts,
            horizon,
        } = self;
        drop(parts);
        drop(horizon);
    }
}

impl SlotNews {
    /// News equal to these.
    pub fn copy(&self, alloc: Global) -> Mem<SlotNews>
        ensures { IfOk result (λ copied. copied ≡ self.now) }
    {
        Ok(SlotNews {
            slot: self.slot,
            epoch: self.epoch,
            manager: self.manager,
            parts: self.parts.copy(alloc)?,
            horizon: self.horizon.copy(alloc)?,
        })
    }
}

impl Copied for SlotNews {
    fn copied(&self, alloc: Global) -> Mem<SlotNews> {
        self.copy(alloc)
    }
}
