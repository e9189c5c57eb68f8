//! A disk in memory, which can be stopped.
ghost use Rattle.std.specs.Prelude.{◌≡◌, ◌⊎◌, ◌↔◌, ◌<◌, ◌≤◌, ◌+◌, ◌-◌, ◌/◌, ◌^◌, [], ◌∷◌, ◌++◌, List, ℕ, length, take, drop, min, refl, true, not, is_ok, OnOk, OnErr, IfOk, IsErr, IsTrue, IsFalse, if◌then◌else◌};
ghost use Rattle.std.specs.Vec.{vec_capacity};
ghost use Rattle.std.proofs.Common.{inl, sym, subst};
ghost use Rattle.std.proofs.Math.Nat.{le_refl};
ghost use Rattle.std.proofs.lemmas.List.{take_all};
ghost use Rattle.xfs_base.specs.Causes.{CountsFaults};
ghost use Rattle.disk_shelf.specs.Disk.{Writes, Torn, Follows, NoOther, Only, Uses};
ghost use Rattle.disk_shelf.specs.Deeds.{Deed, Goes, IsImage, WasImage, images};
ghost use Rattle.disk_shelf.specs.Deeds.Deed.{Write, Sync};
ghost use Rattle.disk_shelf.specs.MemDisk.{MemState, new_drive, disk_bytes, is_due, failed, passed, acted, set_to_stop, started};

use crate::Disk;
use crate::images::{append, refresh, write_both};
use crate::logged::Logged;
use std::alloc::{AllocError, Global};
use std::marker::Model;
use xfs_base::{Crosses, Failed, Mem};

/// A disk in memory. At a stop it keeps, of each write since the last sync, the first half, rounded up; a write
/// within which it stops counts as one. It keeps all its writes and syncs. Memory is taken by `room` alone.
pub struct MemDisk {
    bytes: Vec<u8>,
    kept: Vec<u8>,
    // so many bytes at the front of both are alike
    alike: usize,
    deeds: Vec<Logged>,
    written: Vec<u8>,
    passes: Option<u32>,
    stopped: bool,
    faults: u64,
}

impl Drop for MemDisk {
    fn drop(self) {
        let MemDisk {
            bytes,
            kept,
            alike: _,
            deeds,
            written,
            passes: _,
            stopped: _,
            faults: _,
        } = self;
        drop(bytes);
        drop(kept);
        drop(deeds);
        drop(written);
    }
}

impl Model for MemDisk {
    ghost use Rattle.std.specs.Prelude.{◌-◌, min, length};
    ghost use Rattle.std.specs.Vec.{vec_capacity};
    ghost use Rattle.disk_shelf.specs.MemDisk.{MemState, IsKept, told};

    ghost Value = { MemState };

    ghost view = { λ m. record {
      drive = record { deeds = told m.written.items m.deeds.items; passes = m.passes; stopped = m.stopped; faults = m.faults };
      calls_left = vec_capacity m.deeds - length m.deeds.items;
      bytes_left = min (vec_capacity m.written - length m.written.items) (min (vec_capacity m.bytes) (vec_capacity m.kept) - length m.bytes.items);
    } };

    ghost invariant = { λ m. IsKept m.deeds.items m.written.items m.bytes.items m.kept.items m.alike (vec_capacity m.bytes) (vec_capacity m.kept) };
}

impl Crosses for MemDisk {}

impl MemDisk {
    /// An empty disk, for which no stop waits. It keeps the allocator and takes no memory.
    pub fn new(alloc: Global) -> MemDisk
        ensures { result.drive ≡ new_drive }
    {
        MemDisk {
            bytes: Vec::new(alloc),
            kept: Vec::new(alloc),
            alike: 0,
            deeds: Vec::new(alloc),
            written: Vec::new(alloc),
            passes: None,
            stopped: false,
            faults: 0,
        }
    }

    /// What it reads.
    pub fn bytes(&self) -> &[u8]
        ensures { result.now ≡ disk_bytes self.now }
    {
        &self.bytes
    }

    /// Lets so many more writes and syncs pass; the next one stops it, and fails, as each call that reads,
    /// writes or syncs does from then on until it is started. Of two stops that wait the newer counts. Takes
    /// no memory.
    pub fn stop_after(&mut self, passes: u32)
        ensures { self.new ≡ record self.old { drive = set_to_stop self.old.drive passes } }
    {
        self.passes = Some(passes);
    }

    /// Starts it, and ends a stop that still waits. Takes no memory.
    pub fn start(&mut self)
        ensures { self.new ≡ record self.old { drive = started self.old.drive } }
    {
        self.passes = None;
        self.stopped = false;
    }

    /// How many writes and syncs a stop that waits still lets pass; none where none waits. Takes no memory.
    pub fn passes_left(&self) -> Option<u32>
        ensures { result ≡ self.now.drive.passes }
    {
        self.passes
    }

    // A call of a stopped disk fails.
    fn refuse(&mut self) -> Failed
        ensures { self.new ≡ record self.old { drive = failed self.old.drive } }
    {
        self.faults = self.faults.saturating_add(1);
        Failed
    }

    // After a write or sync: where a stop was due, the disk has stopped within it, and else one pass less is left.
    fn pass(&mut self, stops: bool) -> Result<(), Failed>
        ensures drive { self.new ≡ record self.old { drive = passed stops self.old.drive } }
        ensures ok { OnOk result (IsFalse stops) }
        ensures answered { IsFalse self.old.drive.stopped → is_ok result ≡ not self.new.drive.stopped }
    {
        if stops {
            self.stopped = true;
            return Err(self.refuse());
        }
        self.passes = match self.passes {
            Some(passes) => Some(passes.saturating_sub(1)),
            None => None,
        };
        Ok(())
    }

    // Whether the next write or sync is the one within which it stops.
    fn is_due(&self) -> bool
        ensures { result ≡ is_due self.now.drive.passes }
    {
        match self.passes {
            Some(passes) => passes == 0,
            None => false,
        }
    }
}

impl Disk for MemDisk {
    ghost seen = { λ m. (images m.drive.deeds).read };

    ghost may_leave = { λ m c. IsImage (images m.drive.deeds) c };

    ghost moment = { λ m. length m.drive.deeds };

    ghost left_since = { λ m t c. WasImage m.drive.deeds t c };

    ghost faults = { λ m. m.drive.faults };

    ghost calls_left = { λ m. m.calls_left };

    ghost bytes_left = { λ m. m.bytes_left };

    ghost by_room = { λ m n. n.drive ≡ m.drive };

    ghost by_read = { λ m ok n. (n.drive ≡ (if m.drive.stopped then failed m.drive else m.drive)) × (ok ≡ not m.drive.stopped) };

    ghost by_write = { λ m at piece ok n. (n.drive ≡ acted m.drive (Write at piece)) × (ok ≡ not n.drive.stopped) };

    ghost by_sync = { λ m ok n. (n.drive ≡ acted m.drive Sync) × (ok ≡ not n.drive.stopped) };

    ghost reads_an_image = { λ m. inl refl };

    ghost counts_now = { λ m t c le now. record {
      count = length m.drive.deeds;
      late = le;
      done = le_refl (length m.drive.deeds);
      left = subst (λ (ds : List Deed). IsImage (images ds) c) (sym (take_all (length m.drive.deeds) m.drive.deeds (le_refl (length m.drive.deeds)))) now;
    } };

    ghost only_now = { λ m c was. subst (λ (ds : List Deed). IsImage (images ds) c) (take_all was.count m.drive.deeds was.late) was.left };

    fn len(&self) -> u64 {
        self.bytes.len() as u64
    }

    fn read(&mut self, at: u64, into: &mut [u8]) -> Result<usize, Failed>
        ensures count { IfOk result (λ n. n ≡ min (length into.new) (length (disk_bytes self.old) - at)) }
        ensures bytes { IfOk result (λ n. take n into.new ≡ take n (drop at (disk_bytes self.old))) }
        ensures seen { OnOk result (disk_bytes self.new ≡ disk_bytes self.old) }
        ensures crash { NoOther (IsImage (images self.old.drive.deeds)) (IsImage (images self.new.drive.deeds)) }
        ensures time { Goes self.old.drive.deeds self.new.drive.deeds }
        ensures spare { Uses 0 0 self.old.calls_left self.old.bytes_left self.new.calls_left self.new.bytes_left }
        ensures cause { CountsFaults self.old.drive.faults self.new.drive.faults result }
        // It fails exactly where the disk is stopped, and does nothing else.
        ensures exact { (self.new.drive ≡ (if self.old.drive.stopped then failed self.old.drive else self.old.drive)) × (is_ok result ≡ not self.old.drive.stopped) }
    {
        if self.stopped {
            return Err(self.refuse());
        }
        let from = if at < self.bytes.len() as u64 {
            at as usize
        } else {
            self.bytes.len()
        };
        let found = &self.bytes[from..];
        let count = into.len().min(found.len());
        into[..count].copy_from_slice(&found[..count]);
        Ok(count)
    }

    fn room(&mut self, _alloc: Global, calls: u32, bytes: u64) -> Mem<()>
        ensures made { OnOk result ((calls ≤ self.new.calls_left) × (bytes ≤ self.new.bytes_left)) }
        ensures seen { disk_bytes self.new ≡ disk_bytes self.old }
        ensures crash { NoOther (IsImage (images self.old.drive.deeds)) (IsImage (images self.new.drive.deeds)) }
        ensures time { Goes self.old.drive.deeds self.new.drive.deeds }
        ensures faults { self.new.drive.faults ≡ self.old.drive.faults }
        ensures exact { self.new.drive ≡ self.old.drive }
    {
        let bytes = bytes as usize;
        let longer = match (self.bytes.len() - self.kept.len()).checked_add(bytes) {
            Some(longer) => longer,
            None => return Err(AllocError),
        };
        self.deeds.reserve(calls as usize)?;
        self.written.reserve(bytes)?;
        self.bytes.reserve(bytes)?;
        self.kept.reserve(longer)?;
        Ok(())
    }

    fn write_at(&mut self, at: u64, piece: &[u8]) -> Result<(), Failed>
        requires inside { at ≤ length (disk_bytes self.old) }
        requires below { at + length piece.now < 2 ^ 64 }
        requires calls { 1 ≤ self.old.calls_left }
        requires bytes { length piece.now ≤ self.old.bytes_left }
        ensures written { OnOk result (Writes (disk_bytes self.old) at piece.now (disk_bytes self.new)) }
        ensures crash { Follows (Torn at (length piece.now)) (IsImage (images self.old.drive.deeds)) (IsImage (images self.new.drive.deeds)) }
        ensures time { Goes self.old.drive.deeds self.new.drive.deeds }
        ensures spare { Uses 1 (length piece.now) self.old.calls_left self.old.bytes_left self.new.calls_left self.new.bytes_left }
        ensures cause { CountsFaults self.old.drive.faults self.new.drive.faults result }
        // What it does, and that it fails exactly where it is stopped then.
        ensures exact { (self.new.drive ≡ acted self.old.drive (Write at piece.now)) × (is_ok result ≡ not self.new.drive.stopped) }
    {
        if self.stopped {
            return Err(self.refuse());
        }
        let stops = self.is_due();
        let at = at as usize;
        self.deeds
            .push_reserved(Logged::Write(at, piece.len(), stops));
        append(&mut self.written, piece);
        self.alike = self.alike.min(at);
        write_both(&mut self.bytes, &mut self.kept, at, piece, stops);
        self.pass(stops)
    }

    fn sync(&mut self) -> Result<(), Failed>
        requires calls { 1 ≤ self.old.calls_left }
        ensures durable { OnOk result (Only (disk_bytes self.old) (IsImage (images self.new.drive.deeds))) }
        ensures seen { OnOk result (disk_bytes self.new ≡ disk_bytes self.old) }
        ensures crash { NoOther (IsImage (images self.old.drive.deeds)) (IsImage (images self.new.drive.deeds)) }
        ensures time { Goes self.old.drive.deeds self.new.drive.deeds }
        ensures spare { Uses 1 0 self.old.calls_left self.old.bytes_left self.new.calls_left self.new.bytes_left }
        ensures cause { CountsFaults self.old.drive.faults self.new.drive.faults result }
        // What it does, and that it fails exactly where it is stopped then.
        ensures exact { (self.new.drive ≡ acted self.old.drive Sync) × (is_ok result ≡ not self.new.drive.stopped) }
    {
        if self.stopped {
            return Err(self.refuse());
        }
        let stops = self.is_due();
        self.deeds.push_reserved(Logged::Sync(stops));
        refresh(&mut self.bytes, &mut self.kept, self.alike, stops);
        self.alike = self.kept.len();
        self.pass(stops)
    }
}
