//! Packets to the registry and from it: the maps (the 1996 paper, "Metadata and Data Distribution") and
//! checkpoints.
ghost use Rattle.std.specs.Prelude.{◌≡◌, IfOk};

use group_map::GroupMap;
use std::alloc::Global;
use xfs_base::{Copied, Crosses, List, Mem, SegRef, SlotNews, copy_each};

/// The maps as the registry has them.
pub struct News {
    /// The version, which rises at each change.
    pub version: u32,
    /// The slots 0 to 7, in order.
    pub slots: List<SlotNews>,
    /// The stripe groups and the generations of the servers.
    pub groups: GroupMap,
}

impl Drop for News {
    fn drop(self) {
        let News {
            version: _,
            slots,
            groups,
        } = self;
        drop(slots);
        drop(groups);
    }
}

/// A node asks the registry for the maps, and tells it of a restart or a loss.
#[derive(Clone, Copy)]
pub struct Hello {
    /// The incarnation of the node; of a server its generation.
    pub inc: u32,
    /// The node's number of this question.
    pub ask: u32,
}

/// The answer to a Hello.
pub struct Welcome {
    /// The incarnation of the Hello.
    pub inc: u32,
    /// The number of the question.
    pub ask: u32,
    /// The maps.
    pub news: News,
}

impl Drop for Welcome {
    fn drop(self) {
        let Welcome {
            inc: _,
            ask: _,
            news,
        } = self;
        drop(news);
    }
}

/// A manager has written a checkpoint of a slot.
pub struct CkptDone {
    /// The slot, 0 to 7.
    pub slot: u8,
    /// The epoch of the slot.
    pub epoch: u32,
    /// The manager's number of this question.
    pub ask: u32,
    /// The segments of the checkpoint.
    pub parts: List<SegRef>,
    /// For each log 1 to 9 the first segment number that the checkpoint does not cover.
    pub horizon: List<u32>,
}

impl Drop for CkptDone {
    fn drop(self) {
        let CkptDone {
            slot: _,
            epoch: _,
            ask: _,
            parts,
            horizon,
        } = self;
        drop(parts);
        drop(horizon);
    }
}

/// The answer to a CkptDone.
#[derive(Clone, Copy)]
pub struct CkptAck {
    /// The slot, 0 to 7.
    pub slot: u8,
    /// The slot's epoch as the registry has it.
    pub epoch: u32,
    /// The number of the question.
    pub ask: u32,
}

impl News {
    /// News equal to these.
    pub fn copy(&self, alloc: Global) -> Mem<News>
        ensures { IfOk result (λ copied. copied ≡ self.now) }
    {
        Ok(News {
            version: self.version,
            slots: copy_each(alloc, &self.slots)?,
            groups: self.groups.copy(alloc)?,
        })
    }
}

impl Welcome {
    /// A body equal to this one.
    pub fn copy(&self, alloc: Global) -> Mem<Welcome>
        ensures { IfOk result (λ copied. copied ≡ self.now) }
    {
        Ok(Welcome {
            inc: self.inc,
            ask: self.ask,
            news: self.news.copy(alloc)?,
        })
    }
}

impl CkptDone {
    /// A body equal to this one.
    pub fn copy(&self, alloc: Global) -> Mem<CkptDone>
        ensures { IfOk result (λ copied. copied ≡ self.now) }
    {
        Ok(CkptDone {
            slot: self.slot,
            epoch: self.epoch,
            ask: self.ask,
            parts: self.parts.copy(alloc)?,
            horizon: self.horizon.copy(alloc)?,
        })
    }
}

impl Copied for News {
    fn copied(&self, alloc: Global) -> Mem<News> {
        self.copy(alloc)
    }
}

impl Copied for Welcome {
    fn copied(&self, alloc: Global) -> Mem<Welcome> {
        self.copy(alloc)
    }
}

impl Copied for CkptDone {
    fn copied(&self, alloc: Global) -> Mem<CkptDone> {
        self.copy(alloc)
    }
}

impl Crosses for News {}
