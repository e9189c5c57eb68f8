//! One change of a shelf on a disk in memory, under a stop.
ghost use Rattle.std.specs.Prelude.{◌≡◌, ◌≢◌, ◌<◌, ◌&&◌, ◌==◌, nat_lt, All, IfOk, IfSome, IsTrue, OnOk, Some, length, slice_get};
ghost use Rattle.disk_play.specs.Disks.{changed, on_disk, welcome_of, welcomed, welcomed_by};
ghost use Rattle.disk_shelf.specs.Asks.{IsSmall, after_ask};
ghost use Rattle.disk_shelf.specs.Drives.{reopened};
ghost use Rattle.disk_shelf.specs.Kept.{Kept};
ghost use Rattle.disk_shelf.specs.MemDisk.{MemState, disk_bytes};
ghost use Rattle.disk_shelf.specs.Records.{StandsFor};
ghost use Rattle.shelf_changes.specs.Changes.{shelf_after};
ghost use Rattle.disk_play.specs.Standing.{ChangesAt, IsNew, Runs, Took, arm};

use crate::Stop;
use crate::course::Seat;
use disk_shelf::{
    Ask, DiskError, DiskShelf, MemDisk, a_change_ends_by_the_passes_of_a_stop,
    an_image_stands_for_one_state, an_opened_disk_has_a_gate, open,
};
use std::alloc::{AllocError, Global};
use wire_msg::{Body, Do};
use xfs_base::Mem;

/// The most bytes that a disk has before a change is made.
const LIMIT: u64 = 1 << 63;

/// The most bytes of a fragment that a disk keeps.
const MOST: usize = 4_294_967_261;

/// An empty shelf on an empty disk.
fn empty_shelf(alloc: Global) -> Mem<DiskShelf<MemDisk>>
    ensures { IfOk result IsNew }
{
    an_image_stands_for_one_state();
    an_opened_disk_has_a_gate();
    match open(alloc, MemDisk::new(alloc)) {
        Ok(shelf) => {
            let mut shelf = shelf;
            shelf.start();
            Ok(shelf)
        }
        Err(_) => Err(AllocError),
    }
}

/// So many empty shelves, each on an empty disk.
pub fn empty_shelves(alloc: Global, count: u8) -> Mem<Vec<DiskShelf<MemDisk>>>
    ensures count { IfOk result (λ shelves. length shelves.items ≡ count) }
    ensures each { IfOk result (λ shelves. All IsNew shelves.items) }
{
    let mut shelves = Vec::new(alloc);
    for _ in 0..count {
        let shelf = empty_shelf(alloc)?;
        shelves.push(shelf)?;
    }
    Ok(shelves)
}

/// Whether the fragment of a change, if it has one, has a length that a record says.
fn is_small(ask: &Ask) -> bool
    ensures { IsTrue result → IsSmall ask.now }
{
    match ask {
        Ask::Store(fragment, _) => fragment.bytes.len() <= MOST,
        Ask::Fill(fragment) => fragment.bytes.len() <= MOST,
        _ => true,
    }
}

/// A stop that waits is set, where one does.
fn arm(shelf: &mut DiskShelf<MemDisk>, passes: Option<u32>)
    requires { Runs shelf.old }
    ensures { shelf.new ≡ arm shelf.old passes }
{
    if let Some(count) = passes {
        shelf.stop_after(count);
    }
}

/// Opens a disk again that stopped, and lets it run.
fn open_again(alloc: Global, shelf: &mut DiskShelf<MemDisk>) -> Mem<()>
    ensures stands { OnOk result (StandsFor shelf.new.state (disk_bytes shelf.old.disk)) }
    ensures drive { OnOk result (shelf.new.disk.drive ≡ reopened shelf.old.disk.drive) }
    ensures runs { OnOk result (Runs shelf.new) }
{
    match shelf.reopen(alloc) {
        Ok(()) => Ok(()),
        Err(_) => Err(AllocError),
    }
}

/// Makes a change on a disk under a stop that lets so many writes and syncs pass, where one waits. One that is
/// not answered is there or it isn't, by how many passed, and the disk is opened again at once. A fragment or a disk that is too long for
/// a record is want of memory.
fn make(alloc: Global, shelf: &mut DiskShelf<MemDisk>, ask: Ask, passes: Option<u32>) -> Mem<()>
    requires runs { Runs shelf.old }
    requires changes { after_ask shelf.old.state ask ≢ shelf.old.state }
    ensures disk { OnOk result (on_disk shelf.new ≡ changed passes ask (on_disk shelf.old)) }
    ensures runs { OnOk result (Runs shelf.new) }
{
    a_change_ends_by_the_passes_of_a_stop();
    an_image_stands_for_one_state();
    if !is_small(&ask) || shelf.len() > LIMIT {
        return Err(AllocError);
    }
    arm(shelf, passes);
    match shelf.make(alloc, ask) {
        Ok(()) => {
            shelf.start();
            Ok(())
        }
        Err(DiskError::Fault) => open_again(alloc, shelf),
        Err(_) => Err(AllocError),
    }
}

/// Keeps on a disk that the server had the Welcome of a generation, which no stop cuts.
fn welcome(alloc: Global, shelf: &mut DiskShelf<MemDisk>, generation: u32) -> Mem<()>
    requires { Runs shelf.old }
    ensures disk { OnOk result (on_disk shelf.new ≡ welcomed generation (on_disk shelf.old)) }
    ensures runs { OnOk result (Runs shelf.new) }
{
    a_change_ends_by_the_passes_of_a_stop();
    if shelf.len() > LIMIT {
        return Err(AllocError);
    }
    match shelf.welcomed(alloc, generation) {
        Ok(()) => {
            shelf.start();
            Ok(())
        }
        Err(_) => Err(AllocError),
    }
}

/// The generation of the Welcome that came; none where none did.
fn welcome_of(what: &Do) -> Option<u32>
    ensures { result ≡ welcome_of what.now }
{
    match what {
        Do::Deliver(packet) => match &packet.as_packet().body {
            Body::Welcome(welcome) => Some(welcome.inc),
            _ => None,
        },
        _ => None,
    }
}

/// Whether the Welcome of a generation is kept: that of the shelf, where it began with the loss of the disk.
fn is_kept(shelf: &DiskShelf<MemDisk>, generation: u32) -> bool
    ensures { result ≡ nat_lt 1 generation && (generation == shelf.now.state.shelf.generation) }
{
    generation > 1 && generation == shelf.generation()
}

/// Where the Welcome came of a generation that began with the loss of the disk, the disk keeps that.
fn keep_welcome(alloc: Global, shelf: &mut DiskShelf<MemDisk>, what: &Do) -> Mem<()>
    requires { Runs shelf.old }
    ensures disk { OnOk result (on_disk shelf.new ≡ welcomed_by (welcome_of what.now) (on_disk shelf.old)) }
    ensures runs { OnOk result (Runs shelf.new) }
{
    match welcome_of(what) {
        None => Ok(()),
        Some(generation) => {
            if is_kept(shelf, generation) {
                return welcome(alloc, shelf, generation);
            }
            Ok(())
        }
    }
}

/// Makes the change of an event on the disk of a server, under its stop, and keeps a Welcome that came.
fn take(
    alloc: Global,
    shelf: &mut DiskShelf<MemDisk>,
    stop: Stop,
    what: &Do,
    call: Option<Ask>,
) -> Mem<()>
    requires runs { Runs shelf.old }
    requires changes { IfSome call (λ call. shelf_after shelf.old.state.shelf call ≢ shelf.old.state.shelf) }
    ensures { OnOk result (Took stop what.now call shelf.old shelf.new) }
{
    match call {
        None => keep_welcome(alloc, shelf, what),
        Some(call) => {
            let passes = stop.passes_for(&call);
            make(alloc, shelf, call, passes)
        }
    }
}

/// The same for the shelf at a place.
pub fn take_at(
    alloc: Global,
    shelves: &mut Vec<DiskShelf<MemDisk>>,
    seat: Seat,
    what: &Do,
    call: Option<Ask>,
) -> Mem<()>
    requires within { seat.place < length shelves.old.items }
    requires runs { (shelf : Kept MemState) → slice_get shelves.old.items seat.place ≡ Some shelf → Runs shelf }
    requires changes { (shelf : Kept MemState) → slice_get shelves.old.items seat.place ≡ Some shelf → IfSome call (λ call. shelf_after shelf.state.shelf call ≢ shelf.state.shelf) }
    ensures { OnOk result (ChangesAt shelves.old.items shelves.new.items seat.place (Took seat.stop what.now call)) }
{
    take(alloc, &mut shelves[seat.place], seat.stop, what, call)
}
