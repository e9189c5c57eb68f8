//! Packets to storage servers and from them (the 1996 paper, "Zebra").
ghost use Rattle.std.specs.Prelude.{◌≡◌, IfOk};

use std::alloc::Global;
use xfs_base::{Copied, FragMeta, Fragment, List, LogId, Mem, Pass, SegName};

/// The writer of a log stores a fragment of a segment.
pub struct Store {
    /// The fragment.
    pub fragment: Fragment,
    /// The generation of the server for which it is meant; a server of another generation refuses it.
    pub generation: u32,
}

impl Drop for Store {
    fn drop(self) {
        let Store {
            fragment,
            generation: _,
        } = self;
        drop(fragment);
    }
}

/// A server holds a fragment.
#[derive(Clone, Copy)]
pub struct Stored {
    /// The segment.
    pub name: SegName,
    /// The number of the fragment in the stripe, from 0.
    pub index: u8,
    /// The generation of the server.
    pub generation: u32,
}

/// A node asks a server for its fragment of a segment.
#[derive(Clone, Copy)]
pub struct Fetch {
    /// The segment.
    pub name: SegName,
    /// The asker's number of this question.
    pub ask: u32,
}

/// A server answers a Fetch with its fragment.
pub struct Found {
    /// The number of the question.
    pub ask: u32,
    /// The generation of the server.
    pub generation: u32,
    /// The fragment.
    pub fragment: Fragment,
}

impl Drop for Found {
    fn drop(self) {
        let Found {
            ask: _,
            generation: _,
            fragment,
        } = self;
        drop(fragment);
    }
}

/// A server answers a Fetch: it holds no fragment of the segment.
#[derive(Clone, Copy)]
pub struct Missing {
    /// The segment.
    pub name: SegName,
    /// The number of the question.
    pub ask: u32,
    /// The generation of the server.
    pub generation: u32,
}

/// The owner of a log that reopens it bars what was sent in older passes.
#[derive(Clone, Copy)]
pub struct Fence {
    /// The log.
    pub log: LogId,
    /// The least pass that may still be stored.
    pub pass: Pass,
}

/// A server has fenced a log.
pub struct Fenced {
    /// The log.
    pub log: LogId,
    /// The pass of the Fence.
    pub pass: Pass,
    /// The generation of the server.
    pub generation: u32,
    /// What it holds of the log.
    pub held: List<FragMeta>,
}

impl Drop for Fenced {
    fn drop(self) {
        let Fenced {
            log: _,
            pass: _,
            generation: _,
            held,
        } = self;
        drop(held);
    }
}

/// A node asks a server for all that it holds.
#[derive(Clone, Copy)]
pub struct ListAsk {
    /// The asker's number of this question.
    pub ask: u32,
}

/// The answer to a List.
pub struct Listed {
    /// The number of the question.
    pub ask: u32,
    /// The generation of the server.
    pub generation: u32,
    /// What it holds.
    pub held: List<FragMeta>,
}

impl Drop for Listed {
    fn drop(self) {
        let Listed {
            ask: _,
            generation: _,
            held,
        } = self;
        drop(held);
    }
}

/// The cleaner deletes a segment with no live block.
#[derive(Clone, Copy)]
pub struct Delete {
    /// The segment.
    pub name: SegName,
}

/// A server has deleted a segment, and will not store it again.
#[derive(Clone, Copy)]
pub struct Deleted {
    /// The segment.
    pub name: SegName,
    /// The generation of the server.
    pub generation: u32,
}

impl Store {
    /// A body equal to this one.
    pub fn copy(&self, alloc: Global) -> Mem<Store>
        ensures { IfOk result (λ copied. copied ≡ self.now) }
    {
        Ok(Store {
            fragment: self.fragment.copy(alloc)?,
            generation: self.generation,
        })
    }
}

impl Found {
    /// A body equal to this one.
    pub fn copy(&self, alloc: Global) -> Mem<Found>
        ensures { IfOk result (λ copied. copied ≡ self.now) }
    {
        Ok(Found {
            ask: self.ask,
            generation: self.generation,
            fragment: self.fragment.copy(alloc)?,
        })
    }
}

impl Fenced {
    /// A body equal to this one.
    pub fn copy(&self, alloc: Global) -> Mem<Fenced>
        ensures { IfOk result (λ copied. copied ≡ self.now) }
    {
        Ok(Fenced {
            log: self.log,
            pass: self.pass,
            generation: self.generation,
            held: self.held.copy(alloc)?,
        })
    }
}

impl Listed {
    /// A body equal to this one.
    pub fn copy(&self, alloc: Global) -> Mem<Listed>
        ensures { IfOk result (λ copied. copied ≡ self.now) }
    {
        Ok(Listed {
            ask: self.ask,
            generation: self.generation,
            held: self.held.copy(alloc)?,
        })
    }
}

impl Copied for Store {
    fn copied(&self, alloc: Global) -> Mem<Store> {
        self.copy(alloc)
    }
}

impl Copied for Found {
    fn copied(&self, alloc: Global) -> Mem<Found> {
        self.copy(alloc)
    }
}

impl Copied for Fenced {
    fn copied(&self, alloc: Global) -> Mem<Fenced> {
        self.copy(alloc)
    }
}

impl Copied for Listed {
    fn copied(&self, alloc: Global) -> Mem<Listed> {
        self.copy(alloc)
    }
}
