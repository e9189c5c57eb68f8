//! The history of a block: the versions that were written, and which of them may never fall again.
ghost use Rattle.std.specs.Prelude.{◌≡◌, ◌↔◌, ◌<◌, OnOk, IsTrue, Some, length};
ghost use Rattle.version_model.specs.Effects.{append, pin, cut_to};
ghost use Rattle.version_model.specs.History.{unwritten, content_at, greatest_by, is_by_other};
ghost use Rattle.version_model.specs.Legal.{IsNewestBy, MayFall};

use crate::Fall;
use std::alloc::Global;
use xfs_base::{Crosses, List, Mem, Value};

/// One version of a block.
pub struct Version {
    /// What was written.
    pub content: Value,
    /// The client that wrote it.
    pub writer: u8,
}

impl Drop for Version {
    fn drop(self) {
        let Version { content, writer: _ } = self;
        drop(content);
    }
}

/// The versions of one block, the oldest first, and the pinned one: the newest that someone else read or
/// that was synced, 0 where there is none.
pub struct BlockHistory {
    /// The versions; the first has number 1.
    pub versions: List<Version>,
    /// The pinned version.
    pub pinned: u64,
}

impl Drop for BlockHistory {
    fn drop(self) {
        let BlockHistory {
            versions,
            pinned: _,
        } = self;
        drop(versions);
    }
}

/// What a crashed client may lose, told when it crashed.
pub struct FallTold {
    /// The number and the incarnation of the segment that was in flight, if one was.
    pub flight: Option<(u32, u32)>,
    /// The blocks that may fall.
    pub falls: List<Fall>,
}

impl Drop for FallTold {
    fn drop(self) {
        let FallTold { flight: _, falls } = self;
        drop(falls);
    }
}

impl BlockHistory {
    /// The history of a block that was never written. It takes no memory.
    pub fn unwritten(alloc: Global) -> BlockHistory
        ensures { result ≡ unwritten }
    {
        BlockHistory {
            versions: List::new(alloc),
            pinned: 0,
        }
    }

    /// Appends a version.
    pub(crate) fn append(&mut self, alloc: Global, content: &Value, writer: u8) -> Mem<()>
        ensures { OnOk result (self.new ≡ append (record { content = content.now; writer = writer }) self.old) }
    {
        let content = content.copy(alloc)?;
        self.versions.push(Version { content, writer })
    }

    /// Pins a version, where no later one is pinned.
    pub(crate) fn pin(&mut self, ver: u64)
        ensures { self.new ≡ pin ver self.old }
    {
        self.pinned = u64::max(ver, self.pinned);
    }

    /// The versions above this one are gone, and it is pinned.
    pub(crate) fn cut_to(self, ver: u64) -> BlockHistory
        ensures { result ≡ cut_to ver self }
    {
        let BlockHistory {
            versions,
            pinned: _,
        } = self;
        let mut versions = versions.into_vec();
        let count = usize::try_from(ver).unwrap_or(usize::MAX);
        versions.truncate(count);
        BlockHistory {
            versions: List::from_vec(versions),
            pinned: ver,
        }
    }

    /// The number of the newest version, 0 where there is none.
    pub(crate) fn newest(&self) -> u64
        ensures { result ≡ length self.now.versions }
    {
        self.versions.len() as u64
    }

    /// Whether a version holds this value.
    pub(crate) fn holds(&self, ver: u64, value: &Value) -> bool
        ensures { IsTrue result ↔ (content_at ver self.now.versions ≡ Some value.now) }
    {
        if ver == 0 {
            return value.bytes().is_none();
        }
        match self.versions.get((ver - 1) as usize) {
            Some(version) => version.content.equals(value),
            None => false,
        }
    }

    /// Whether another client wrote a version.
    pub(crate) fn is_by_other(&self, client: u8, ver: u64) -> bool
        ensures { result ≡ is_by_other client ver self.now.versions }
    {
        if ver == 0 {
            return false;
        }
        match self.versions.get((ver - 1) as usize) {
            Some(version) => version.writer != client,
            None => false,
        }
    }

    /// The greatest version by a client, 0 where there is none.
    pub(crate) fn greatest_by(&self, client: u8) -> u64
        ensures { result ≡ greatest_by client 1 self.now.versions }
    {
        let versions = self.versions.as_slice();
        let mut greatest = 0u64;
        for place in 0..versions.len() {
            if versions[place].writer == client {
                greatest = place as u64 + 1;
            }
        }
        greatest
    }

    /// Whether the newest version is by a client.
    pub(crate) fn is_newest_by(&self, client: u8) -> bool
        ensures { IsTrue result ↔ IsNewestBy client self.now.versions }
    {
        match self.versions.as_slice().last() {
            Some(version) => version.writer == client,
            None => false,
        }
    }

    /// Whether a client may lose the block as far as told.
    pub(crate) fn may_fall(&self, client: u8, fall: Fall) -> bool
        ensures { IsTrue result ↔ MayFall client self.now fall }
    {
        self.is_newest_by(client)
            && self.pinned <= fall.low
            && fall.low <= fall.high
            && fall.high <= self.newest()
    }
}

impl Crosses for Version {}

impl Crosses for BlockHistory {}

impl Crosses for FallTold {}
