//! The table of blocks: what is found in it, and what leaves it.
ghost use Rattle.std.specs.Prelude.{◌≡◌, [], option_copied, unwrap_or, IfOk, OnErr, OnOk};
ghost use Rattle.std.specs.Map.{lookup, remove_entry, values_of};
ghost use Rattle.std.specs.List.{list_any};
ghost use Rattle.std.specs.BTreeMap.{is_at, insert_entry};
ghost use Rattle.xfs_base.specs.Blocks.{block_cmp};
ghost use Rattle.token_client.specs.Held.{held_new, is_answer, may_write, is_settled_by, may_end_fetch, may_evict, is_asking};
ghost use Rattle.token_client.specs.Marks.{marks_new, note};
ghost use Rattle.token_client.specs.State.{held_of, held_in, dirty_in};
ghost use Rattle.token_client.specs.Repetitions.{repetition};
ghost use Rattle.token_client.specs.Transition.{fetched_blocks, wanted_blocks, drop_all_in, drop_in, is_spent, copy_next, grant_next};

use crate::held::{Held, Wanted};
use crate::marks::Marks;
use crate::output::Out;
use std::alloc::Global;
use std::collections::BTreeMap;
use std::marker::Model;
use xfs_base::{BlockId, Crosses, List, Mem, Mode, Place, Stamp};

/// What is known of each block, and which of them are marked. Contracts see it as the list of blocks, in order,
/// each with what is known of it.
pub(crate) struct Table {
    blocks: BTreeMap<BlockId, Held>,
    marks: Marks,
}

impl Drop for Table {
    fn drop(self) {
        let Table { blocks, marks } = self;
        drop(blocks);
        drop(marks);
    }
}

impl Model for Table {
    ghost use Rattle.std.specs.Prelude.{List as Seq};
    ghost use Rattle.xfs_base.specs.declared.block.BlockId.{BlockId as Block};
    ghost use Rattle.token_client.specs.declared.held.Held.{Held as Known};
    ghost use Rattle.token_client.specs.Marks.{IsTable};

    ghost Value = { Seq (Block × Known) };

    ghost view = { λ t. t.blocks.entries };

    ghost invariant = { λ t. IsTable t.blocks.entries t.marks };
}

impl Crosses for Table {}

impl Table {
    /// Nothing is known of any block. It keeps the allocator and takes no memory.
    pub(crate) fn new(alloc: Global) -> Table
        ensures { result ≡ [] }
    {
        Table {
            blocks: BTreeMap::new(alloc),
            marks: Marks::new(alloc),
        }
    }

    /// What is known of a block; none where nothing is.
    pub(crate) fn get(&self, block: BlockId) -> Option<&Held>
        ensures { option_copied result ≡ lookup (is_at (block_cmp block)) self.now }
    {
        self.blocks.get(&block)
    }

    /// What is known of a block leaves the table.
    pub(crate) fn take(&mut self, block: BlockId) -> Held
        ensures held { result ≡ held_of self.old block }
        ensures rest { self.new ≡ remove_entry (is_at (block_cmp block)) self.old }
    {
        self.marks.forget(block);
        or_unknown(self.blocks.remove(&block))
    }

    /// What is known of a block enters the table. Where memory is wanting the table is given up.
    pub(crate) fn put(&mut self, block: BlockId, held: Held) -> Mem<()>
        ensures { OnOk result (self.new ≡ insert_entry block_cmp self.old block held) }
    {
        put_marked(&mut self.blocks, &mut self.marks, block, held)
    }

    /// Drops what a promise of a slot ends.
    pub(crate) fn drop_all_in(&mut self, slot: u8)
        ensures { self.new ≡ drop_all_in slot self.old }
    {
        drop_all_in(slot, &mut self.blocks);
    }

    /// The blocks of a slot that are being fetched, in order.
    pub(crate) fn fetched(&self, alloc: Global, slot: u8) -> Mem<List<BlockId>>
        ensures { IfOk result (λ found. found ≡ fetched_blocks slot self.now) }
    {
        fetched_blocks(alloc, &self.blocks, slot)
    }

    /// The blocks of a slot that are held, in order, each with its mode.
    pub(crate) fn held(&self, alloc: Global, slot: u8) -> Mem<List<(BlockId, Mode)>>
        ensures { IfOk result (λ found. found ≡ held_in slot self.now) }
    {
        held_blocks(alloc, &self.blocks, slot)
    }

    /// The blocks that have a want, in order.
    pub(crate) fn wanted(&self, alloc: Global) -> Mem<List<BlockId>>
        ensures { IfOk result (λ found. found ≡ wanted_blocks self.now) }
    {
        self.marks.wanted(alloc)
    }

    /// The blocks whose newest version isn't settled, in order.
    pub(crate) fn dirty(&self, alloc: Global) -> Mem<List<BlockId>>
        ensures { IfOk result (λ found. found ≡ dirty_in self.now) }
    {
        self.marks.unsettled(alloc)
    }

    /// Whether some want can't be counted once more.
    pub(crate) fn has_spent(&self) -> bool
        ensures { result ≡ list_any (λ h. is_spent h.want) (values_of self.now) }
    {
        self.marks.has_spent()
    }
}

// What is known of a block, where it is in no table.
fn or_unknown(found: Option<Held>) -> Held
    ensures { result ≡ unwrap_or found held_new }
{
    match found {
        Some(held) => held,
        None => Held::new(),
    }
}

// What is known of a block enters a table and is marked. Where memory is wanting nothing is known any longer.
fn put_marked(
    blocks: &mut BTreeMap<BlockId, Held>,
    marks: &mut Marks,
    block: BlockId,
    held: Held,
) -> Mem<()>
    ensures blocks { OnOk result (blocks.new.entries ≡ insert_entry block_cmp blocks.old.entries block held) }
    ensures marks { OnOk result (marks.new ≡ note marks.old block held) }
    ensures none { OnErr result ((blocks.new.entries ≡ []) × (marks.new ≡ marks_new)) }
{
    match note_and_put(blocks, marks, block, held) {
        Ok(()) => Ok(()),
        Err(error) => {
            blocks.clear();
            marks.clear();
            Err(error)
        }
    }
}

fn note_and_put(
    blocks: &mut BTreeMap<BlockId, Held>,
    marks: &mut Marks,
    block: BlockId,
    held: Held,
) -> Mem<()>
    ensures blocks { OnOk result (blocks.new.entries ≡ insert_entry block_cmp blocks.old.entries block held) }
    ensures marks { OnOk result (marks.new ≡ note marks.old block held) }
{
    marks.note(block, &held)?;
    blocks.insert(block, held)?;
    Ok(())
}

// The blocks of a slot that are being fetched, in order.
fn fetched_blocks(alloc: Global, blocks: &BTreeMap<BlockId, Held>, slot: u8) -> Mem<List<BlockId>>
    ensures { IfOk result (λ found. found ≡ fetched_blocks slot blocks.now.entries) }
{
    let mut found = List::new(alloc);
    for (block, held) in blocks {
        if block.ino.slot() == slot && held.fetch.is_some() {
            found.push(*block)?;
        }
    }
    Ok(found)
}

// The blocks of a slot that are held, in order, each with its mode.
fn held_blocks(
    alloc: Global,
    blocks: &BTreeMap<BlockId, Held>,
    slot: u8,
) -> Mem<List<(BlockId, Mode)>>
    ensures { IfOk result (λ found. found ≡ held_in slot blocks.now.entries) }
{
    let mut found = List::new(alloc);
    for (block, held) in blocks {
        if block.ino.slot() == slot && held.mode.is_held() {
            found.push((*block, held.mode))?;
        }
    }
    Ok(found)
}

/// How often a want was sent again; 0 where there is none.
pub(crate) fn repetition(want: Option<Wanted>) -> u32
    ensures { result ≡ repetition want }
{
    match want {
        Some(want) => want.again,
        None => 0,
    }
}

// Drops what a promise of a slot ends, if the block is of the slot.
fn drop_in(slot: u8, block: BlockId, held: &mut Held)
    ensures { held.new ≡ drop_in slot block held.old }
{
    if block.ino.slot() == slot {
        held.drop_promised();
    }
}

// Drops what a promise of a slot ends.
fn drop_all_in(slot: u8, blocks: &mut BTreeMap<BlockId, Held>)
    ensures { blocks.new.entries ≡ drop_all_in slot blocks.old.entries }
{
    blocks.retain(|block, held| {
        drop_in(slot, *block, held);
        true
    });
}

/// What is next after a granted copy.
pub(crate) fn copy_next(block: BlockId, place: Option<Place>) -> Out
    ensures { result ≡ copy_next block place }
{
    match place {
        None => Out::Ready { block },
        Some(place) => Out::Read { block, place },
    }
}

/// What is next after a grant.
pub(crate) fn grant_next(block: BlockId, mode: Mode, place: Option<Place>) -> Out
    ensures { result ≡ grant_next block mode place }
{
    if mode.is_own() {
        Out::Ready { block }
    } else {
        copy_next(block, place)
    }
}

/// Whether what came with this stamp answers the open want of a block.
pub(crate) fn is_answer(blocks: &Table, block: BlockId, stamp: Stamp, req: u32, mode: Mode) -> bool
    ensures { result ≡ is_answer (held_of blocks.now block) stamp req mode }
{
    match blocks.get(block) {
        Some(held) => held.is_answer(stamp, req, mode),
        None => false,
    }
}

/// Whether a block may be written.
pub(crate) fn may_write(blocks: &Table, block: BlockId) -> bool
    ensures { result ≡ may_write (held_of blocks.now block) }
{
    match blocks.get(block) {
        Some(held) => held.may_write(),
        None => false,
    }
}

/// Whether it is news that a version of a block is settled.
pub(crate) fn is_settled_by(blocks: &Table, block: BlockId, ver: u64) -> bool
    ensures { result ≡ is_settled_by (held_of blocks.now block) ver }
{
    match blocks.get(block) {
        Some(held) => held.is_settled_by(ver),
        None => Held::new().is_settled_by(ver),
    }
}

/// Whether what was read of a block ends its fetch.
pub(crate) fn may_end_fetch(blocks: &Table, block: BlockId) -> bool
    ensures { result ≡ may_end_fetch (held_of blocks.now block) }
{
    match blocks.get(block) {
        Some(held) => held.may_end_fetch(),
        None => false,
    }
}

/// Whether a block may leave the cache.
pub(crate) fn may_evict(blocks: &Table, block: BlockId) -> bool
    ensures { result ≡ may_evict (held_of blocks.now block) }
{
    match blocks.get(block) {
        Some(held) => held.may_evict(),
        None => false,
    }
}

/// Whether a block has a want or a fetch.
pub(crate) fn is_asking(blocks: &Table, block: BlockId) -> bool
    ensures { result ≡ is_asking (held_of blocks.now block) }
{
    match blocks.get(block) {
        Some(held) => held.is_asking(),
        None => false,
    }
}

/// The want of a block.
pub(crate) fn want_of(blocks: &Table, block: BlockId) -> Option<Wanted>
    ensures { result ≡ (held_of blocks.now block).want }
{
    match blocks.get(block) {
        Some(held) => held.want,
        None => None,
    }
}
