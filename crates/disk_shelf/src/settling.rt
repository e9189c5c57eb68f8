//! The disk before its records are read: synced, and with a gate.
ghost use Rattle.std.specs.Prelude.{◌≡◌, ◌⊎◌, ◌<◌, ◌≤◌, ◌∷◌, [], List, ℕ, length, true, IfOk, OnOk, IsErrOf};
ghost use Rattle.xfs_base.specs.Causes.{Rose};
ghost use Rattle.disk_shelf.specs.declared.settling.Trouble.TheVariants.{Memory, Fault};
ghost use Rattle.disk_shelf.specs.Disk.{Only, NoOther, LeavesOnly, Elapses};
ghost use Rattle.disk_shelf.specs.Reading.{StandsAs};
ghost use Rattle.disk_shelf.specs.Steps.{OpenedBy, SettledBy};

use crate::Disk;
use crate::durable::put;
use std::alloc::{AllocError, Global};

/// Why a disk could not be read.
#[derive(Clone, Copy, Debug, PartialEq, Eq)]
pub enum Trouble {
    /// Want of memory.
    Memory,
    /// The disk failed.
    Fault,
}

impl From<AllocError> for Trouble {
    ghost from_gives = { λ _ e. e ≡ Memory };

    fn from(_: AllocError) -> Self {
        Trouble::Memory
    }
}

// Syncs, and writes the first gate on a disk of one byte at most.
fn settle<D: Disk>(alloc: Global, disk: &mut D) -> Result<(), Trouble>
    ensures durable { OnOk result (Only (D.seen disk.new) (D.may_leave disk.new)) }
    ensures same { OnOk result ((1 < length (D.seen disk.old)) × (D.seen disk.new ≡ D.seen disk.old) ⊎ (length (D.seen disk.old) ≤ 1) × (D.seen disk.new ≡ 0 ∷ [])) }
    ensures any_moment { LeavesOnly D.moment D.left_since disk.old disk.new (λ c. D.may_leave disk.old c ⊎ StandsAs (D.seen disk.old) c) }
    ensures later { D.faults disk.old ≤ D.faults disk.new }
    ensures fault { IsErrOf result Fault → Rose (D.faults disk.old) (D.faults disk.new) }
    ensures exact { OnOk result (SettledBy D.seen D.by_room D.by_write D.by_sync disk.old disk.new) }
{
    disk.room(alloc, 3, 1)?;
    match disk.sync() {
        Ok(()) => {}
        Err(_) => return Err(Trouble::Fault),
    }
    if disk.len() > 1 {
        return Ok(());
    }
    match put(disk, 0, &[0]) {
        Ok(()) => Ok(()),
        Err(_) => Err(Trouble::Fault),
    }
}

// All that the disk reads.
fn load<D: Disk>(alloc: Global, disk: &mut D) -> Result<Vec<u8>, Trouble>
    ensures bytes { IfOk result (λ bytes. bytes.items ≡ D.seen disk.old) }
    ensures seen { OnOk result (D.seen disk.new ≡ D.seen disk.old) }
    ensures crash { NoOther (D.may_leave disk.old) (D.may_leave disk.new) }
    ensures any_moment { LeavesOnly D.moment D.left_since disk.old disk.new (D.may_leave disk.old) }
    ensures fault { IsErrOf result Fault → Rose (D.faults disk.old) (D.faults disk.new) }
    ensures exact { OnOk result (D.by_read disk.old true disk.new) }
{
    let len = disk.len() as usize;
    let mut bytes = vec![in alloc; 0u8; len]?;
    match disk.read(0, &mut bytes) {
        Ok(_) => Ok(bytes),
        Err(_) => Err(Trouble::Fault),
    }
}

/// Syncs, writes the first gate on a disk of one byte at most, and reads all.
pub fn settled<D: Disk>(alloc: Global, disk: &mut D) -> Result<Vec<u8>, Trouble>
    ensures bytes { IfOk result (λ bytes. bytes.items ≡ D.seen disk.new) }
    ensures durable { OnOk result (Only (D.seen disk.new) (D.may_leave disk.new)) }
    ensures same { OnOk result ((1 < length (D.seen disk.old)) × (D.seen disk.new ≡ D.seen disk.old) ⊎ (length (D.seen disk.old) ≤ 1) × (D.seen disk.new ≡ 0 ∷ [])) }
    ensures any_moment { LeavesOnly D.moment D.left_since disk.old disk.new (λ c. D.may_leave disk.old c ⊎ StandsAs (D.seen disk.old) c) }
    ensures fault { IsErrOf result Fault → Rose (D.faults disk.old) (D.faults disk.new) }
    ensures exact { OnOk result (OpenedBy D.seen D.by_room D.by_read D.by_write D.by_sync disk.old disk.new) }
{
    settle(alloc, disk)?;
    load(alloc, disk)
}
