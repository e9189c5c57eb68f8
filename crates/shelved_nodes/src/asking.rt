//! Which call of a shelf an event made, seen from the shelf before and the one after.
ghost use Rattle.std.specs.Prelude.{◌≡◌, ◌&&◌, IfOk, OnOk, find, not};
ghost use Rattle.fragment_store.specs.ShelfState.{fence_of, held_at, is_held, is_marked};
ghost use Rattle.shelf_changes.specs.Changes.{ChangesByOne, shelf_after_one};
ghost use Rattle.shelved_nodes.specs.Asking.{StaysBy, StaysDeleted, asked, asked_by, fill_in, fill_of};
ghost use Rattle.wire_msg.specs.declared.body.Body.TheVariants as body;
ghost use Rattle.wire_msg.specs.declared.packet.Do.TheVariants.{Begin};
ghost use Rattle.xfs_base.specs.Segments.{pass_cmp};
ghost use Rattle.xfs_base.specs.Stamps.{is_greater};

use disk_shelf::Ask;
use fragment_store::Shelf;
use std::alloc::Global;
use wire_msg::{Body, Delete, Do, Fence, Store};
use xfs_base::{FragMeta, LogId, Mem, SegName};

/// Whether a shelf holds a fragment of this name.
fn holds(shelf: &Shelf, name: SegName) -> bool
    ensures { result ≡ is_held shelf.now name }
{
    shelf.fetch(name).is_ok()
}

/// Whether the later shelf holds a fragment of this name, and the earlier one none.
fn is_new(old: &Shelf, new: &Shelf, name: SegName) -> bool
    ensures { result ≡ is_held new.now name && not (is_held old.now name) }
{
    holds(new, name) && !holds(old, name)
}

/// Whether the later shelf has a higher fence of this log.
fn is_fenced(old: &Shelf, new: &Shelf, log: LogId) -> bool
    ensures { result ≡ is_greater (pass_cmp (fence_of new.now.fences log) (fence_of old.now.fences log)) }
{
    new.fence_of(log).order(old.fence_of(log)).is_gt()
}

/// The first that is listed and that a shelf does not hold.
fn first_new(old: &Shelf, metas: &[FragMeta]) -> Option<FragMeta>
    ensures { result ≡ find (λ m. not (is_held old.now m.name)) metas.now }
{
    for meta in metas {
        if !holds(old, meta.name) {
            return Some(*meta);
        }
    }
    None
}

/// The fragment that the later shelf holds, and the earlier one doesn't.
fn fill_in(alloc: Global, old: &Shelf, new: &Shelf) -> Mem<Option<Ask>>
    ensures { IfOk result (λ ask. ask ≡ fill_in old.now new.now) }
{
    let listed = new.list(alloc)?;
    match first_new(old, listed.as_slice()) {
        None => Ok(None),
        Some(meta) => fill_of(alloc, new, meta.name),
    }
}

/// A fragment that a shelf holds, to be filled in.
fn fill_of(alloc: Global, shelf: &Shelf, name: SegName) -> Mem<Option<Ask>>
    ensures { IfOk result (λ ask. ask ≡ fill_of (held_at shelf.now.held name)) }
{
    match shelf.fetch(name) {
        Ok(fragment) => Ok(Some(Ask::Fill(fragment.copy(alloc)?))),
        Err(_) => Ok(None),
    }
}

/// The store of a fragment that came, where it is held and was not.
fn asked_store(alloc: Global, store: &Store, old: &Shelf, new: &Shelf) -> Mem<Option<Ask>>
    ensures { IfOk result (λ ask. ask ≡ asked_by (body.Store store.now) old.now new.now) }
{
    if is_new(old, new, store.fragment.meta.name) {
        let fragment = store.fragment.copy(alloc)?;
        Ok(Some(Ask::Store(fragment, store.generation)))
    } else {
        Ok(None)
    }
}

/// The fence that came, where it is above the one that was.
fn asked_fence(fence: Fence, old: &Shelf, new: &Shelf) -> Option<Ask>
    ensures { result ≡ asked_by (body.Fence fence) old.now new.now }
{
    if is_fenced(old, new, fence.log) {
        Some(Ask::Fence(fence.log, fence.pass))
    } else {
        None
    }
}

/// The deletion that came, where the name is marked and was not.
fn asked_delete(delete: Delete, old: &Shelf, new: &Shelf) -> Option<Ask>
    ensures exact { result ≡ asked_by (body.Delete delete) old.now new.now }
    ensures stays { StaysBy (body.Delete delete) old.now }
{
    let was = old.is_marked(delete.name);
    if new.is_marked(delete.name) && !was {
        Some(Ask::Delete(delete.name))
    } else {
        None
    }
}

/// The call that what came asked for.
fn asked_by(alloc: Global, said: &Body, old: &Shelf, new: &Shelf) -> Mem<Option<Ask>>
    ensures exact { IfOk result (λ ask. ask ≡ asked_by said.now old.now new.now) }
    ensures stays { OnOk result (StaysBy said.now old.now) }
{
    match said {
        Body::Store(store) => asked_store(alloc, store, old, new),
        Body::Fence(fence) => Ok(asked_fence(*fence, old, new)),
        Body::Delete(delete) => Ok(asked_delete(*delete, old, new)),
        Body::Fragment(_) => fill_in(alloc, old, new),
        Body::Missing(_) => fill_in(alloc, old, new),
        _ => Ok(None),
    }
}

/// The loss of the disk, where the generation is another.
fn asked_loss(old: &Shelf, new: &Shelf) -> Option<Ask>
    ensures { result ≡ asked Begin old.now new.now }
{
    if old.generation() == new.generation() {
        None
    } else {
        Some(Ask::Lose)
    }
}

/// The call that an event asked for.
fn asked_at(alloc: Global, what: &Do, old: &Shelf, new: &Shelf) -> Mem<Option<Ask>>
    ensures exact { IfOk result (λ ask. ask ≡ asked what.now old.now new.now) }
    ensures stays { OnOk result (StaysDeleted what.now old.now) }
{
    match what {
        Do::Begin => Ok(asked_loss(old, new)),
        Do::Deliver(packet) => asked_by(alloc, &packet.as_packet().body, old, new),
        Do::Tick => Ok(None),
    }
}

/// The call of a shelf by which this event made the later of the earlier; none where it changed nothing.
pub fn asked(alloc: Global, what: &Do, old: &Shelf, new: &Shelf) -> Mem<Option<Ask>>
    ensures exact { IfOk result (λ ask. ask ≡ asked what.now old.now new.now) }
    ensures gives { IfOk result (λ ask. ChangesByOne what.now old.now new.now → new.now ≡ shelf_after_one old.now ask) }
{
    let ask = asked_at(alloc, what, old, new)?;
    Ok(ask)
}
