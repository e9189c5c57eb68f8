//! Packets by which clients and managers pass the tokens of blocks (the 1996 paper, "Cache Consistency").
ghost use Rattle.std.specs.Prelude.{◌≡◌, IfOk};

use std::alloc::Global;
use xfs_base::{BlockId, Copied, Entry, Mem, Mode, SegName, Stamp, Value};

/// A client asks the manager of a block for a mode.
#[derive(Clone, Copy)]
pub struct Want {
    /// The block.
    pub block: BlockId,
    /// The incarnation of the client.
    pub inc: u32,
    /// The client's number of this want, from 1.
    pub req: u32,
    /// How often it was said before.
    pub again: u32,
    /// The wanted mode, Copy or Own.
    pub mode: Mode,
    /// The end of the client's log, which the manager must have applied before it answers.
    pub end: u32,
}

/// A manager gives a client a mode.
#[derive(Clone, Copy)]
pub struct Grant {
    /// The block.
    pub block: BlockId,
    /// When it was granted.
    pub stamp: Stamp,
    /// The incarnation of the want.
    pub inc: u32,
    /// The number of the want.
    pub req: u32,
    /// The mode, Copy or Own.
    pub mode: Mode,
    /// What the index holds of the block.
    pub entry: Entry,
}

/// A manager asks a client that holds a block to supply it to another client.
#[derive(Clone, Copy)]
pub struct Forward {
    /// The block.
    pub block: BlockId,
    /// When it was said.
    pub stamp: Stamp,
    /// The number of the client that wants the block.
    pub to: u8,
    /// The incarnation of the want.
    pub inc: u32,
    /// The number of the want.
    pub req: u32,
    /// The version to supply.
    pub ver: u64,
}

/// A client gives another client a copy of a block out of its cache (the 1996 paper, "Reads and
/// Caching").
pub struct Supply {
    /// The block.
    pub block: BlockId,
    /// When the manager said so.
    pub stamp: Stamp,
    /// The incarnation of the want.
    pub inc: u32,
    /// The number of the want.
    pub req: u32,
    /// The version.
    pub ver: u64,
    /// Its value.
    pub value: Value,
}

impl Drop for Supply {
    fn drop(self) {
        let Supply {
            block: _,
            stamp: _,
            inc: _,
            req: _,
            ver: _,
            value,
        } = self;
        drop(value);
    }
}

/// A manager takes a block back from a client.
#[derive(Clone, Copy)]
pub struct Recall {
    /// The block.
    pub block: BlockId,
    /// When it was recalled.
    pub stamp: Stamp,
    /// Whether the client may keep a copy.
    pub keep: bool,
}

/// A client has given a block up.
#[derive(Clone, Copy)]
pub struct Gave {
    /// The block.
    pub block: BlockId,
    /// The stamp of the recall.
    pub stamp: Stamp,
    /// The end of the client's log, in which its changes are.
    pub end: u32,
}

/// A manager can't serve a block, since its slot's index can't be read.
#[derive(Clone, Copy)]
pub struct Gone {
    /// The block.
    pub block: BlockId,
    /// The epoch of the slot.
    pub epoch: u32,
    /// The incarnation of the want.
    pub inc: u32,
    /// The number of the want.
    pub req: u32,
    /// The segment that is lost.
    pub seg: SegName,
}

impl Supply {
    /// A body equal to this one.
    pub fn copy(&self, alloc: Global) -> Mem<Supply>
        ensures { IfOk result (λ copied. copied ≡ self.now) }
    {
        Ok(Supply {
            block: self.block,
            stamp: self.stamp,
            inc: self.inc,
            req: self.req,
            ver: self.ver,
            value: self.value.copy(alloc)?,
        })
    }
}

impl Copied for Supply {
    fn copied(&self, alloc: Global) -> Mem<Supply> {
        self.copy(alloc)
    }
}
