//! Writes that are on the disk when they are answered.
ghost use Rattle.std.specs.Prelude.{◌≡◌, ◌≢◌, ◌⊎◌, ◌≤◌, ◌<◌, ◌+◌, ◌^◌, ◌++◌, ◌∷◌, [], List, ℕ, length, take, is_ok, OnOk};
ghost use Rattle.xfs_base.specs.Causes.{CountsFaults};
ghost use Rattle.disk_shelf.specs.Disk.{Only, Torn, Writes, LeavesOnly, Uses};
ghost use Rattle.disk_shelf.specs.Gates.{HasClosed, HasOpen};
ghost use Rattle.disk_shelf.specs.Steps.{PutBy, AppendedBy};

use crate::Disk;
use xfs_base::Failed;

/// Writes a piece, and syncs. A crash at any moment leaves what was there, torn in the range alone.
pub fn put<D: Disk>(disk: &mut D, at: u64, piece: &[u8]) -> Result<(), Failed>
    requires durable { Only (D.seen disk.old) (D.may_leave disk.old) }
    requires inside { at ≤ length (D.seen disk.old) }
    requires below { at + length piece.now < 2 ^ 64 }
    requires calls { 2 ≤ D.calls_left disk.old }
    requires bytes { length piece.now ≤ D.bytes_left disk.old }
    ensures written { OnOk result (Writes (D.seen disk.old) at piece.now (D.seen disk.new)) }
    ensures durable { OnOk result (Only (D.seen disk.new) (D.may_leave disk.new)) }
    ensures any_moment { LeavesOnly D.moment D.left_since disk.old disk.new (Torn at (length piece.now) (D.seen disk.old)) }
    ensures spare { Uses 2 (length piece.now) (D.calls_left disk.old) (D.bytes_left disk.old) (D.calls_left disk.new) (D.bytes_left disk.new) }
    ensures cause { CountsFaults (D.faults disk.old) (D.faults disk.new) result }
    ensures exact { PutBy D.by_write D.by_sync disk.old at piece.now (is_ok result) disk.new }
{
    disk.write_at(at, piece)?;
    disk.sync()
}

/// Writes a record behind the closed gate at `gate`, and then opens that gate. A crash at any moment leaves the
/// gate closed, or the record whole behind the open gate.
pub fn append<D: Disk>(disk: &mut D, gate: u64, behind: &[u8]) -> Result<(), Failed>
    requires durable { Only (D.seen disk.old) (D.may_leave disk.old) }
    requires closed { HasClosed gate (take gate (D.seen disk.old)) (D.seen disk.old) }
    requires below { length (D.seen disk.old) + length behind.now < 2 ^ 64 }
    requires calls { 4 ≤ D.calls_left disk.old }
    requires bytes { length behind.now + 1 ≤ D.bytes_left disk.old }
    ensures open { OnOk result (HasOpen (take gate (D.seen disk.old)) behind.now (D.seen disk.new)) }
    ensures durable { OnOk result (Only (D.seen disk.new) (D.may_leave disk.new)) }
    ensures any_moment { LeavesOnly D.moment D.left_since disk.old disk.new
        (λ c. HasClosed gate (take gate (D.seen disk.old)) c ⊎ HasOpen (take gate (D.seen disk.old)) behind.now c) }
    ensures cause { CountsFaults (D.faults disk.old) (D.faults disk.new) result }
    ensures exact { AppendedBy D.by_write D.by_sync disk.old gate behind.now (is_ok result) disk.new }
{
    put(disk, gate + 1, behind)?;
    put(disk, gate, &[1])
}
