//! A shelf that is kept on a disk.
ghost use Rattle.std.specs.Prelude.{◌≡◌, ◌≢◌, ◌⊎◌, ◌↔◌, ◌<◌, ◌≤◌, ◌+◌, ◌^◌, ◌||◌, List, ℕ, length, not, true, false, IfOk, IfErr, OnOk, OnErr, IsErrOf, IsTrue, IsFalse, Some, None, MatchResult};
ghost use Rattle.xfs_base.specs.Causes.{Rose};
ghost use Rattle.xfs_base.specs.Segments.{pass_cmp};
ghost use Rattle.xfs_base.specs.Stamps.{is_greater};
ghost use Rattle.fragment_store.specs.Calls.{refusal, shelf_store, on_fence, on_list, on_delete, on_fill, on_lose, barred};
ghost use Rattle.fragment_store.specs.ShelfState.{held_at, is_held, is_marked, fence_of};
ghost use Rattle.disk_shelf.specs.declared.disk_error.DiskError.TheVariants.{Memory, Closed, Fault};
ghost use Rattle.disk_shelf.specs.Disk.{LeavesOnly};
ghost use Rattle.disk_shelf.specs.Records.{DiskState, body, text, after_record, StandsFor, Leaves};
ghost use Rattle.disk_shelf.specs.Kept.{Kept, LeavesEither, in_disk};
ghost use Rattle.disk_shelf.specs.MemDisk.{disk_bytes, set_to_stop, started};
ghost use Rattle.disk_shelf.specs.Opening.{disk_of, HasCause};
ghost use Rattle.disk_shelf.specs.Reading.{StandsAs};
ghost use Rattle.disk_shelf.specs.Drives.{reopened};
ghost use Rattle.disk_shelf.specs.Steps.{OpenedBy, TookRecord};

use crate::applied::apply;
use crate::durable::append;
use crate::opening::{ReplayError, replay};
use crate::record::encode;
use crate::settling::{Trouble, settled};
use crate::{Disk, DiskError, MemDisk, OpenError, Record};
use fragment_store::{Missing, Shelf, StoreError};
use std::alloc::Global;
use std::marker::Model;
use std::mem;
use xfs_base::{Crosses, FragMeta, Fragment, List, LogId, Mem, Pass, SegName};

/// A shelf that is kept on a disk. Whatever a crash leaves of the disk during a call stands for the shelf before
/// the call, or after it; once a call has answered `Ok`, for the one after it.
pub struct DiskShelf<D: Disk> {
    disk: D,
    gate: u64,
    shelf: Shelf,
    welcomed: u32,
    closed: bool,
}

impl<D: Disk + Drop> Drop for DiskShelf<D> {
    fn drop(self) {
        let DiskShelf {
            disk,
            gate: _,
            shelf,
            welcomed: _,
            closed: _,
        } = self;
        drop(disk);
        drop(shelf);
    }
}

impl<D: Disk> Model for DiskShelf<D> {
    ghost use Rattle.std.specs.Prelude.{IsFalse};
    ghost use Rattle.disk_shelf.specs.Kept.{Kept};
    ghost use Rattle.disk_shelf.specs.Records.{IsAtRest};

    ghost Value = { Kept D };

    ghost view = { λ s. record { disk = s.disk; state = record { shelf = s.shelf; welcomed = s.welcomed }; closed = s.closed } };

    ghost invariant = { λ s. IsFalse s.closed → IsAtRest D.seen D.may_leave s.disk s.gate (record { shelf = s.shelf; welcomed = s.welcomed }) };
}

impl<D: Disk + Crosses> Crosses for DiskShelf<D> {}

impl<D: Disk> DiskShelf<D> {
    // Makes one change, and writes its record.
    fn change(&mut self, alloc: Global, change: Record) -> Result<(), DiskError>
        requires open { IsFalse self.old.closed }
        requires small { length (body change) < 2 ^ 32 }
        requires below { length (D.seen self.old.disk) + length (text change) + 1 < 2 ^ 64 }
        ensures ok { OnOk result (self.new.state ≡ after_record self.old.state change) }
        ensures either { (self.new.state ≡ self.old.state) ⊎ (self.new.state ≡ after_record self.old.state change) }
        ensures lasts { OnOk result (Leaves D.may_leave self.new.disk (StandsFor self.new.state)) }
        ensures any_moment { LeavesEither D.moment D.left_since self.old self.new (after_record self.old.state change) }
        ensures memory { IsErrOf result Memory → (self.new.state ≡ self.old.state) × (D.seen self.new.disk ≡ D.seen self.old.disk) }
        ensures fault { IsErrOf result Fault → Rose (D.faults self.old.disk) (D.faults self.new.disk) }
        ensures no_other { (e : _) → IsErrOf result e → (e ≡ Memory) ⊎ (e ≡ Fault) }
        ensures closed { IsTrue self.new.closed ↔ IsErrOf result Fault }
        ensures exact { OnOk result (TookRecord D.seen D.may_leave D.by_room D.by_write D.by_sync self.old.disk self.old.state (after_record self.old.state change) change true self.new.disk) }
        ensures cut { IsErrOf result Fault → TookRecord D.seen D.may_leave D.by_room D.by_write D.by_sync self.old.disk self.old.state (after_record self.old.state change) change false self.new.disk }
    {
        let gate = self.gate;
        let behind = encode(alloc, &change)?;
        let len = behind.len() as u64;
        self.disk.room(alloc, 4, len + 1)?;
        apply(alloc, &mut self.shelf, &mut self.welcomed, change)?;
        match append(&mut self.disk, gate, behind.as_slice()) {
            Ok(()) => {
                self.gate = gate + len;
                Ok(())
            }
            Err(_) => {
                self.closed = true;
                Err(DiskError::Fault)
            }
        }
    }

    // Nothing is written: what a crash leaves stands for the state as it is.
    pub(crate) fn rests(&self)
        requires { IsFalse self.now.closed }
        ensures lasts { Leaves D.may_leave self.now.disk (StandsFor self.now.state) }
        ensures any_moment { (t : DiskState) → LeavesOnly D.moment D.left_since self.now.disk self.now.disk (λ c. StandsFor self.now.state c ⊎ StandsFor t c) }
    {
        let _gate = self.gate;
    }

    /// Bars from now on a store of what is of this log and below this pass, as `Shelf::fence` does: of the pass and
    /// the log's fence the greater is kept and answered. Nothing is written where the pass is not above the fence.
    /// Of the errors the first that holds comes: `Closed` where a fault closed the shelf, `Memory`, `Fault` where
    /// the disk failed. None of them but `Fault` changes anything. A fault closes the shelf, which then tells what it
    /// was before the call, or after it.
    pub fn fence(&mut self, alloc: Global, log: LogId, pass: Pass) -> Result<Pass, DiskError>
        requires { length (D.seen self.old.disk) + 15 < 2 ^ 64 }
        ensures ok { OnOk result (self.new.state ≡ after_record self.old.state (Record.Fence log pass)) }
        ensures either { (self.new.state ≡ self.old.state) ⊎ (self.new.state ≡ after_record self.old.state (Record.Fence log pass)) }
        ensures idle { IsFalse (is_greater (pass_cmp pass (fence_of self.old.state.shelf.fences log))) → self.new ≡ self.old }
        ensures kept { IfOk result (λ fence. fence ≡ fence_of self.new.state.shelf.fences log) }
        ensures lasts { OnOk result (Leaves D.may_leave self.new.disk (StandsFor self.new.state)) }
        ensures any_moment { LeavesEither D.moment D.left_since self.old self.new (after_record self.old.state (Record.Fence log pass)) }
        ensures closed { IsErrOf result Closed ↔ IsTrue self.old.closed }
        ensures same { (e : _) → e ≢ Fault → IsErrOf result e → (self.new.state ≡ self.old.state) × (D.seen self.new.disk ≡ D.seen self.old.disk) }
        ensures fault { IsErrOf result Fault → Rose (D.faults self.old.disk) (D.faults self.new.disk) }
        ensures closes { IsTrue self.new.closed ↔ (IsTrue self.old.closed ⊎ IsErrOf result Fault) }
        ensures exact { OnOk result ((self.new ≡ self.old) ⊎ TookRecord D.seen D.may_leave D.by_room D.by_write D.by_sync self.old.disk self.old.state (after_record self.old.state (Record.Fence log pass)) (Record.Fence log pass) true self.new.disk) }
        ensures cut { IsErrOf result Fault → TookRecord D.seen D.may_leave D.by_room D.by_write D.by_sync self.old.disk self.old.state (after_record self.old.state (Record.Fence log pass)) (Record.Fence log pass) false self.new.disk }
    {
        if self.closed {
            return Err(DiskError::Closed);
        }
        let fence = self.shelf.fence_of(log);
        if !pass.order(fence).is_gt() {
            self.rests();
            return Ok(fence);
        }
        self.change(alloc, Record::Fence(log, pass))?;
        Ok(self.shelf.fence_of(log))
    }

    /// Keeps that the server had the Welcome of this generation. Nothing is written where that is kept. Errors come
    /// as those of `fence`.
    pub fn welcomed(&mut self, alloc: Global, generation: u32) -> Result<(), DiskError>
        requires { length (D.seen self.old.disk) + 10 < 2 ^ 64 }
        ensures ok { OnOk result (self.new.state ≡ after_record self.old.state (Record.Welcome generation)) }
        ensures either { (self.new.state ≡ self.old.state) ⊎ (self.new.state ≡ after_record self.old.state (Record.Welcome generation)) }
        ensures idle { self.old.state.welcomed ≡ generation → self.new ≡ self.old }
        ensures lasts { OnOk result (Leaves D.may_leave self.new.disk (StandsFor self.new.state)) }
        ensures any_moment { LeavesEither D.moment D.left_since self.old self.new (after_record self.old.state (Record.Welcome generation)) }
        ensures closed { IsErrOf result Closed ↔ IsTrue self.old.closed }
        ensures same { (e : _) → e ≢ Fault → IsErrOf result e → (self.new.state ≡ self.old.state) × (D.seen self.new.disk ≡ D.seen self.old.disk) }
        ensures fault { IsErrOf result Fault → Rose (D.faults self.old.disk) (D.faults self.new.disk) }
        ensures closes { IsTrue self.new.closed ↔ (IsTrue self.old.closed ⊎ IsErrOf result Fault) }
        ensures exact { OnOk result ((self.new ≡ self.old) ⊎ TookRecord D.seen D.may_leave D.by_room D.by_write D.by_sync self.old.disk self.old.state (after_record self.old.state (Record.Welcome generation)) (Record.Welcome generation) true self.new.disk) }
        ensures cut { IsErrOf result Fault → TookRecord D.seen D.may_leave D.by_room D.by_write D.by_sync self.old.disk self.old.state (after_record self.old.state (Record.Welcome generation)) (Record.Welcome generation) false self.new.disk }
    {
        if self.closed {
            return Err(DiskError::Closed);
        }
        if self.welcomed == generation {
            self.rests();
            return Ok(());
        }
        self.change(alloc, Record::Welcome(generation))
    }

    /// Nothing is held from now on, and the next generation begins, as `Shelf::lose` says. A record is written
    /// each time. Errors come as those of `fence`.
    pub fn lose(&mut self, alloc: Global) -> Result<(), DiskError>
        requires { length (D.seen self.old.disk) + 10 < 2 ^ 64 }
        ensures ok { OnOk result (self.new.state ≡ record self.old.state { shelf = on_lose self.old.state.shelf }) }
        ensures either { (self.new.state ≡ self.old.state) ⊎ (self.new.state ≡ record self.old.state { shelf = on_lose self.old.state.shelf }) }
        ensures lasts { OnOk result (Leaves D.may_leave self.new.disk (StandsFor self.new.state)) }
        ensures any_moment { LeavesEither D.moment D.left_since self.old self.new (record self.old.state { shelf = on_lose self.old.state.shelf }) }
        ensures closed { IsErrOf result Closed ↔ IsTrue self.old.closed }
        ensures same { (e : _) → e ≢ Fault → IsErrOf result e → (self.new.state ≡ self.old.state) × (D.seen self.new.disk ≡ D.seen self.old.disk) }
        ensures fault { IsErrOf result Fault → Rose (D.faults self.old.disk) (D.faults self.new.disk) }
        ensures closes { IsTrue self.new.closed ↔ (IsTrue self.old.closed ⊎ IsErrOf result Fault) }
        ensures exact { OnOk result (TookRecord D.seen D.may_leave D.by_room D.by_write D.by_sync self.old.disk self.old.state (record self.old.state { shelf = on_lose self.old.state.shelf }) (Record.Began (on_lose self.old.state.shelf).generation) true self.new.disk) }
        ensures cut { IsErrOf result Fault → TookRecord D.seen D.may_leave D.by_room D.by_write D.by_sync self.old.disk self.old.state (record self.old.state { shelf = on_lose self.old.state.shelf }) (Record.Began (on_lose self.old.state.shelf).generation) false self.new.disk }
    {
        if self.closed {
            return Err(DiskError::Closed);
        }
        let next = self.shelf.generation().saturating_add(1);
        self.change(alloc, Record::Began(next))
    }

    /// Removes what is held of a segment, and marks its name, as `Shelf::delete` does. Nothing is written where the
    /// name is marked. Errors come as those of `fence`.
    pub fn delete(&mut self, alloc: Global, name: SegName) -> Result<(), DiskError>
        requires { length (D.seen self.old.disk) + 19 < 2 ^ 64 }
        ensures ok { OnOk result (self.new.state ≡ record self.old.state { shelf = on_delete self.old.state.shelf name }) }
        ensures either { (self.new.state ≡ self.old.state) ⊎ (self.new.state ≡ record self.old.state { shelf = on_delete self.old.state.shelf name }) }
        ensures idle { IsTrue (is_marked self.old.state.shelf.marks name) → self.new ≡ self.old }
        ensures lasts { OnOk result (Leaves D.may_leave self.new.disk (StandsFor self.new.state)) }
        ensures any_moment { LeavesEither D.moment D.left_since self.old self.new (record self.old.state { shelf = on_delete self.old.state.shelf name }) }
        ensures closed { IsErrOf result Closed ↔ IsTrue self.old.closed }
        ensures same { (e : _) → e ≢ Fault → IsErrOf result e → (self.new.state ≡ self.old.state) × (D.seen self.new.disk ≡ D.seen self.old.disk) }
        ensures fault { IsErrOf result Fault → Rose (D.faults self.old.disk) (D.faults self.new.disk) }
        ensures closes { IsTrue self.new.closed ↔ (IsTrue self.old.closed ⊎ IsErrOf result Fault) }
        ensures exact { OnOk result ((self.new ≡ self.old) ⊎ TookRecord D.seen D.may_leave D.by_room D.by_write D.by_sync self.old.disk self.old.state (record self.old.state { shelf = on_delete self.old.state.shelf name }) (Record.Deleted name) true self.new.disk) }
        ensures cut { IsErrOf result Fault → TookRecord D.seen D.may_leave D.by_room D.by_write D.by_sync self.old.disk self.old.state (record self.old.state { shelf = on_delete self.old.state.shelf name }) (Record.Deleted name) false self.new.disk }
    {
        if self.closed {
            return Err(DiskError::Closed);
        }
        if self.shelf.is_marked(name) {
            self.rests();
            return Ok(());
        }
        self.change(alloc, Record::Deleted(name))
    }

    /// Keeps a fragment that was made anew, as `Shelf::fill` does. Nothing is written where it answers false, as its
    /// name is marked or held. Errors come as those of `fence`.
    pub fn fill(&mut self, alloc: Global, fragment: Fragment) -> Result<bool, DiskError>
        requires small { length fragment.bytes ≤ 4294967261 }
        requires below { length (D.seen self.old.disk) + length fragment.bytes + 40 < 2 ^ 64 }
        ensures filled { IfOk result (λ filled. filled ≡ not (is_marked self.old.state.shelf.marks fragment.meta.name || is_held self.old.state.shelf fragment.meta.name)) }
        ensures ok { OnOk result (self.new.state ≡ record self.old.state { shelf = on_fill self.old.state.shelf fragment }) }
        ensures either { (self.new.state ≡ self.old.state) ⊎ (self.new.state ≡ record self.old.state { shelf = on_fill self.old.state.shelf fragment }) }
        ensures idle { IsTrue (is_marked self.old.state.shelf.marks fragment.meta.name || is_held self.old.state.shelf fragment.meta.name) → self.new ≡ self.old }
        ensures lasts { OnOk result (Leaves D.may_leave self.new.disk (StandsFor self.new.state)) }
        ensures any_moment { LeavesEither D.moment D.left_since self.old self.new (record self.old.state { shelf = on_fill self.old.state.shelf fragment }) }
        ensures closed { IsErrOf result Closed ↔ IsTrue self.old.closed }
        ensures same { (e : _) → e ≢ Fault → IsErrOf result e → (self.new.state ≡ self.old.state) × (D.seen self.new.disk ≡ D.seen self.old.disk) }
        ensures fault { IsErrOf result Fault → Rose (D.faults self.old.disk) (D.faults self.new.disk) }
        ensures closes { IsTrue self.new.closed ↔ (IsTrue self.old.closed ⊎ IsErrOf result Fault) }
        ensures exact { OnOk result ((self.new ≡ self.old) ⊎ TookRecord D.seen D.may_leave D.by_room D.by_write D.by_sync self.old.disk self.old.state (record self.old.state { shelf = on_fill self.old.state.shelf fragment }) (Record.Held fragment) true self.new.disk) }
        ensures cut { IsErrOf result Fault → TookRecord D.seen D.may_leave D.by_room D.by_write D.by_sync self.old.disk self.old.state (record self.old.state { shelf = on_fill self.old.state.shelf fragment }) (Record.Held fragment) false self.new.disk }
    {
        if self.closed {
            return Err(DiskError::Closed);
        }
        let name = fragment.meta.name;
        if self.shelf.is_marked(name) || self.shelf.fetch(name).is_ok() {
            self.rests();
            return Ok(false);
        }
        self.change(alloc, Record::Held(fragment))?;
        Ok(true)
    }

    /// Keeps the fragment, or refuses it, as `Shelf::store` does: after `Closed` come `WrongGeneration`, `Marked` and
    /// `Fenced`, and the others as those of `fence`. Nothing is written where it is refused, or one of its name is
    /// held.
    pub fn store(
        &mut self,
        alloc: Global,
        fragment: Fragment,
        generation: u32,
    ) -> Result<(), DiskError>
        requires small { length fragment.bytes ≤ 4294967261 }
        requires below { length (D.seen self.old.disk) + length fragment.bytes + 40 < 2 ^ 64 }
        ensures ok { OnOk result (self.new.state ≡ record self.old.state { shelf = shelf_store self.old.state.shelf fragment }) }
        ensures either { (self.new.state ≡ self.old.state) ⊎ (self.new.state ≡ record self.old.state { shelf = shelf_store self.old.state.shelf fragment }) }
        ensures idle { IsTrue (is_held self.old.state.shelf fragment.meta.name) → self.new ≡ self.old }
        ensures taken { OnOk result (refusal self.old.state.shelf fragment.meta.name generation ≡ None) }
        ensures refused { (e : _) → IsFalse self.old.closed → refusal self.old.state.shelf fragment.meta.name generation ≡ Some e → IsErrOf result (in_disk e) }
        ensures lasts { OnOk result (Leaves D.may_leave self.new.disk (StandsFor self.new.state)) }
        ensures any_moment { LeavesEither D.moment D.left_since self.old self.new (record self.old.state { shelf = shelf_store self.old.state.shelf fragment }) }
        ensures closed { IsErrOf result Closed ↔ IsTrue self.old.closed }
        ensures same { (e : _) → e ≢ Fault → IsErrOf result e → (self.new.state ≡ self.old.state) × (D.seen self.new.disk ≡ D.seen self.old.disk) }
        ensures fault { IsErrOf result Fault → Rose (D.faults self.old.disk) (D.faults self.new.disk) }
        ensures closes { IsTrue self.new.closed ↔ (IsTrue self.old.closed ⊎ IsErrOf result Fault) }
        ensures exact { OnOk result ((self.new ≡ self.old) ⊎ TookRecord D.seen D.may_leave D.by_room D.by_write D.by_sync self.old.disk self.old.state (record self.old.state { shelf = shelf_store self.old.state.shelf fragment }) (Record.Held fragment) true self.new.disk) }
        ensures cut { IsErrOf result Fault → TookRecord D.seen D.may_leave D.by_room D.by_write D.by_sync self.old.disk self.old.state (record self.old.state { shelf = shelf_store self.old.state.shelf fragment }) (Record.Held fragment) false self.new.disk }
    {
        if self.closed {
            return Err(DiskError::Closed);
        }
        let name = fragment.meta.name;
        if let Some(refusal) = self.shelf.refusal(name, generation) {
            self.rests();
            return Err(in_disk(refusal));
        }
        if self.shelf.fetch(name).is_ok() {
            self.rests();
            return Ok(());
        }
        self.change(alloc, Record::Held(fragment))
    }

    /// The fragment that is held of a segment. `Missing` exactly where none is. Takes no memory.
    pub fn fetch(&self, name: SegName) -> Result<&Fragment, Missing>
        ensures { MatchResult result (λ fragment. held_at self.now.state.shelf.held name ≡ Some fragment.now) (λ _. held_at self.now.state.shelf.held name ≡ None) }
    {
        self.shelf.fetch(name)
    }

    /// What is said of all fragments that are held, by log, number and pass.
    pub fn list(&self, alloc: Global) -> Mem<List<FragMeta>>
        ensures { IfOk result (λ metas. metas ≡ on_list self.now.state.shelf) }
    {
        self.shelf.list(alloc)
    }

    /// The names that are held or marked, by log, number and pass.
    pub fn barred(&self, alloc: Global) -> Mem<List<SegName>>
        ensures { IfOk result (λ names. names ≡ barred self.now.state.shelf) }
    {
        self.shelf.barred(alloc)
    }

    /// The shelf, as it is in memory. Takes no memory.
    pub fn shelf(&self) -> &Shelf
        ensures { result.now ≡ self.now.state.shelf }
    {
        &self.shelf
    }

    /// How often the disk was lost, and one. Takes no memory.
    pub fn generation(&self) -> u32
        ensures { result ≡ self.now.state.shelf.generation }
    {
        self.shelf.generation()
    }

    /// The generation for which the server had its Welcome last; 0 for none. Takes no memory.
    pub fn last_welcome(&self) -> u32
        ensures { result ≡ self.now.state.welcomed }
    {
        self.welcomed
    }

    /// How many bytes the disk has.
    pub fn len(&self) -> u64
        ensures { result ≡ length (D.seen self.now.disk) }
    {
        self.disk.len()
    }

    /// The disk. Takes no memory.
    pub fn close(self) -> D
        ensures disk { result ≡ self.disk }
        ensures stands { IsFalse self.closed → StandsFor self.state (D.seen result) }
    {
        let DiskShelf {
            disk,
            gate: _,
            shelf,
            welcomed: _,
            closed: _,
        } = self;
        drop(shelf);
        disk
    }
}

impl DiskShelf<MemDisk> {
    /// Lets so many more writes and syncs of the disk pass, as `MemDisk::stop_after` does. Takes no memory.
    pub fn stop_after(&mut self, passes: u32)
        ensures { self.new ≡ record self.old { disk = record self.old.disk { drive = set_to_stop self.old.disk.drive passes } } }
    {
        self.disk.stop_after(passes);
    }

    /// Starts the disk, and ends a stop that still waits, as `MemDisk::start` does: a shelf that a fault closed
    /// stays closed. Takes no memory.
    pub fn start(&mut self)
        ensures { self.new ≡ record self.old { disk = record self.old.disk { drive = started self.old.disk.drive } } }
    {
        self.disk.start();
    }

    /// Starts the disk, whatever stopped it, and opens it again, as `open` does: the shelf is then the one for which the disk
    /// stands. Where that can't be done the shelf stays closed, with an empty disk, and the error gives the disk back.
    pub fn reopen(&mut self, alloc: Global) -> Result<(), OpenError<MemDisk>>
        ensures stands { OnOk result (StandsFor self.new.state (disk_bytes self.old.disk)) }
        ensures open { OnOk result (IsFalse self.new.closed) }
        ensures runs { OnOk result (IsFalse self.new.disk.drive.stopped × (self.new.disk.drive.passes ≡ None)) }
        ensures exact { OnOk result (self.new.disk.drive ≡ reopened self.old.disk.drive) }
    {
        self.closed = true;
        let mut disk = mem::replace(&mut self.disk, MemDisk::new(alloc));
        disk.start();
        match open(alloc, disk) {
            Ok(opened) => {
                drop(mem::replace(self, opened));
                self.start();
                Ok(())
            }
            Err(error) => Err(error),
        }
    }

    /// How many writes and syncs of the disk a stop that waits still lets pass; none where none waits. Takes
    /// no memory.
    pub fn passes_left(&self) -> Option<u32>
        ensures { result ≡ self.now.disk.drive.passes }
    {
        self.disk.passes_left()
    }
}

/// Opens a disk, whatever a crash made of it: the shelf is the one for which it stands. It may crash too, at any
/// moment: then it leaves an image that the disk had before, or one that stands for what it read. Each error gives
/// the disk back: `Damaged` only where what the disk reads stands for no shelf, `Fault` only where it failed,
/// `Memory` where memory was wanting.
pub fn open<D: Disk>(alloc: Global, disk: D) -> Result<DiskShelf<D>, OpenError<D>>
    ensures ok { IfOk result (λ s. IsFalse s.closed × StandsFor s.state (D.seen disk)) }
    ensures lasts { IfOk result (λ s. Leaves D.may_leave s.disk (StandsFor s.state)) }
    ensures any_moment { IfOk result (λ s. LeavesOnly D.moment D.left_since disk s.disk (λ c. D.may_leave disk c ⊎ StandsAs (D.seen disk) c)) }
    ensures any_moment_err { IfErr result (λ e. LeavesOnly D.moment D.left_since disk (disk_of e) (λ c. D.may_leave disk c ⊎ StandsAs (D.seen disk) c)) }
    ensures cause { IfErr result (HasCause D.seen D.faults disk) }
    ensures exact { IfOk result (λ s. OpenedBy D.seen D.by_room D.by_read D.by_write D.by_sync disk s.disk) }
{
    let mut disk = disk;
    let bytes = match settled(alloc, &mut disk) {
        Ok(bytes) => bytes,
        Err(Trouble::Memory) => return Err(OpenError::Memory(disk)),
        Err(Trouble::Fault) => return Err(OpenError::Fault(disk)),
    };
    match replay(alloc, &bytes) {
        Ok(found) => Ok(DiskShelf {
            disk,
            gate: found.gate as u64,
            shelf: found.shelf,
            welcomed: found.welcomed,
            closed: false,
        }),
        Err(ReplayError::Memory) => Err(OpenError::Memory(disk)),
        Err(ReplayError::Damaged(at)) => Err(OpenError::Damaged(disk, at as u64)),
    }
}

// The refusal of a shelf, as that of a shelf on a disk.
fn in_disk(refusal: StoreError) -> DiskError
    ensures { result ≡ in_disk refusal }
{
    match refusal {
        StoreError::WrongGeneration(present) => DiskError::WrongGeneration(present),
        StoreError::Marked => DiskError::Marked,
        StoreError::Fenced(fence) => DiskError::Fenced(fence),
        StoreError::Memory => DiskError::Memory,
    }
}
