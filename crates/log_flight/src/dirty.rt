//! What waits to be written, in the order of the first change.
ghost use Rattle.std.specs.Prelude.{◌≡◌, [], take, drop, length, OnOk, IfOk};
ghost use Rattle.indexmap.specs.IndexMap.{insert_entry};
ghost use Rattle.xfs_base.specs.Blocks.{same_block};
ghost use Rattle.xfs_base.specs.Limits.{segment_blocks};

use indexmap::IndexMap;
use std::alloc::Global;
use std::marker::Model;
use std::mem;
use xfs_base::limits::SEGMENT_BLOCKS;
use xfs_base::{BlockId, Crosses, Entry, Mem, Value};

/// What is to be written of a block.
pub struct Change {
    /// The version, and how often the cleaner moved it.
    pub entry: Entry,
    /// The value of that version.
    pub value: Value,
}

impl Drop for Change {
    fn drop(self) {
        let Change { entry: _, value } = self;
        drop(value);
    }
}

/// The dirty blocks of a log. Contracts see the list of them with what is to be written of each.
pub struct Dirty {
    changes: IndexMap<BlockId, Change>,
}

impl Drop for Dirty {
    fn drop(self) {
        let Dirty { changes } = self;
        drop(changes);
    }
}

impl Model for Dirty {
    ghost use Rattle.std.specs.Prelude as prelude;
    ghost use Rattle.xfs_base.specs.declared.block.BlockId.{BlockId};
    ghost use Rattle.log_flight.specs.declared.dirty.Change.{Change};

    ghost Value = { prelude.List (BlockId × Change) };

    ghost view = { λ d. d.changes.entries };
}

impl Change {
    /// The value of that version.
    pub fn into_value(self) -> Value
        ensures { result ≡ self.value }
    {
        let Change { entry: _, value } = self;
        value
    }
}

impl Crosses for Change {}

impl Dirty {
    /// No block is dirty.
    pub fn new(alloc: Global) -> Dirty
        ensures { result ≡ [] }
    {
        Dirty {
            changes: IndexMap::new(alloc),
        }
    }

    /// How many blocks are dirty.
    pub fn len(&self) -> usize
        ensures { result ≡ length self.now }
    {
        self.changes.len()
    }

    /// How many blocks are dirty once this one is.
    pub fn len_with(&self, block: BlockId, change: &Change) -> usize
        ensures { result ≡ length (insert_entry same_block self.now block change.now) }
    {
        if self.changes.contains_key(&block) {
            self.changes.len()
        } else {
            self.changes.len() + 1
        }
    }

    /// A block keeps its place where it is dirty already, and else goes last.
    pub fn put(&mut self, block: BlockId, change: Change) -> Mem<()>
        ensures { OnOk result (self.new ≡ insert_entry same_block self.old block change) }
    {
        drop(self.changes.insert(block, change)?);
        Ok(())
    }

    /// The first blocks, as many as a segment takes, leave.
    pub fn take_first(&mut self) -> Mem<IndexMap<BlockId, Change>>
        ensures first { IfOk result (λ first. first.entries ≡ take segment_blocks self.old) }
        ensures rest { OnOk result (self.new ≡ drop segment_blocks self.old) }
    {
        let count = SEGMENT_BLOCKS.min(self.changes.len());
        let rest = self.changes.split_off(count)?;
        let first = mem::replace(&mut self.changes, rest);
        Ok(first)
    }
}
