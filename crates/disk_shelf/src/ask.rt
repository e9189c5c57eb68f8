//! Changes of a shelf on a disk, one after the other.
ghost use Rattle.std.specs.Prelude.{◌≡◌, ◌≢◌, ◌⊎◌, ◌↔◌, ◌<◌, ◌≤◌, ◌+◌, ◌^◌, List, ℕ, length, take, true, false, IfOk, OnOk, IsErrOf, IsTrue, IsFalse, All};
ghost use Rattle.disk_shelf.specs.declared.disk_error.DiskError.TheVariants.{Fault};
ghost use Rattle.disk_shelf.specs.Asks.{after_ask, after_asks, record_of, IsSmall, StandsForSome};
ghost use Rattle.disk_shelf.specs.Disk.{LeavesOnly};
ghost use Rattle.disk_shelf.specs.Kept.{LeavesEither};
ghost use Rattle.disk_shelf.specs.Records.{StandsFor, Leaves};
ghost use Rattle.disk_shelf.specs.Steps.{TookRecord};

use crate::{Disk, DiskError, DiskShelf};
use std::alloc::Global;
use xfs_base::{Fragment, LogId, Pass, SegName};

/// A change of a shelf that is asked for.
#[derive(Drop)]
pub enum Ask {
    /// A fragment for a generation is to be kept.
    Store(Fragment, u32),
    /// A log is to be fenced.
    Fence(LogId, Pass),
    /// A name is to be deleted.
    Delete(SegName),
    /// A fragment that was made anew is to be kept.
    Fill(Fragment),
    /// The disk is lost.
    Lose,
    /// The Welcome of a generation was had.
    Welcome(u32),
}

/// The most that a disk has before a change is made.
const LIMIT: u64 = 1 << 63;

impl<D: Disk> DiskShelf<D> {
    /// Makes a change, as the call of its kind does.
    pub fn make(&mut self, alloc: Global, ask: Ask) -> Result<(), DiskError>
        requires small { IsSmall ask }
        requires below { length (D.seen self.old.disk) ≤ 2 ^ 63 }
        ensures ok { OnOk result (self.new.state ≡ after_ask self.old.state ask) }
        ensures lasts { OnOk result (Leaves D.may_leave self.new.disk (StandsFor self.new.state)) }
        ensures any_moment { LeavesEither D.moment D.left_since self.old self.new (after_ask self.old.state ask) }
        ensures same { (e : _) → e ≢ Fault → IsErrOf result e → self.new.state ≡ self.old.state }
        ensures closes { IsTrue self.new.closed ↔ (IsTrue self.old.closed ⊎ IsErrOf result Fault) }
        ensures exact { OnOk result ((self.new ≡ self.old) ⊎ TookRecord D.seen D.may_leave D.by_room D.by_write D.by_sync self.old.disk self.old.state (after_ask self.old.state ask) (record_of self.old.state.shelf ask) true self.new.disk) }
        ensures cut { IsErrOf result Fault → TookRecord D.seen D.may_leave D.by_room D.by_write D.by_sync self.old.disk self.old.state (after_ask self.old.state ask) (record_of self.old.state.shelf ask) false self.new.disk }
    {
        match ask {
            Ask::Store(fragment, generation) => self.store(alloc, fragment, generation),
            Ask::Fence(log, pass) => match self.fence(alloc, log, pass) {
                Ok(_) => Ok(()),
                Err(error) => Err(error),
            },
            Ask::Delete(name) => self.delete(alloc, name),
            Ask::Fill(fragment) => match self.fill(alloc, fragment) {
                Ok(_) => Ok(()),
                Err(error) => Err(error),
            },
            Ask::Lose => self.lose(alloc),
            Ask::Welcome(generation) => self.welcomed(alloc, generation),
        }
    }

    /// Makes changes in their order, up to the first that does not answer `Ok` or for which there is no room, and
    /// answers how many it made. From an open shelf on, a crash at any moment leaves the shelf after some of them, none
    /// skipped and none in part.
    pub fn make_all(&mut self, alloc: Global, asks: Vec<Ask>) -> usize
        requires open { IsFalse self.old.closed }
        requires small { All IsSmall asks.items }
        ensures made { result ≤ length asks.items }
        ensures state { IsFalse self.new.closed → self.new.state ≡ after_asks self.old.state (take result asks.items) }
        ensures any_moment { LeavesOnly D.moment D.left_since self.old.disk self.new.disk (StandsForSome self.old.state asks.items (result + 1)) }
    {
        self.rests();
        let mut left = asks;
        let mut made = 0;
        while !left.is_empty() {
            if self.len() > LIMIT {
                return made;
            }
            let ask = left.remove(0);
            match self.make(alloc, ask) {
                Ok(()) => made += 1,
                Err(_) => return made,
            }
        }
        made
    }
}
