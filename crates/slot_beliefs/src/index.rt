//! Where the blocks of a slot lie, in pages, and how many of them live in each segment. All that a slot does
//! with its index is here.
ghost use Rattle.std.specs.Prelude.{◌≡◌, ◌<◌, OnOk, IfOk, length};
ghost use Rattle.std.specs.Option.{ForSome};
ghost use Rattle.xfs_base.specs.Limits.{u32_end};
ghost use Rattle.usage_table.specs.Counts.{count_of};
ghost use Rattle.delta_index.specs.Index.{entry_of};
ghost use Rattle.slot_beliefs.specs.Index.{Indexed, block_index_new, pages_of, block_index_clean, segment_of, block_index_merge, merge_all, can_rise, has_room, Fits, IsCounted};

use index_pages::Pages;
use std::alloc::Global;
use std::marker::Model;
use std::mem;
use usage_table::Usage;
use xfs_base::{BlockId, Crosses, Entry, List, Mem, SegName};

/// What is held of each block, and the live blocks of each segment. The counts are those that a count from
/// scratch over the places gives.
pub struct BlockIndex {
    pages: Pages,
    usage: Usage,
}

impl Drop for BlockIndex {
    fn drop(self) {
        let BlockIndex { pages, usage } = self;
        drop(pages);
        drop(usage);
    }
}

impl Model for BlockIndex {
    ghost use Rattle.slot_beliefs.specs.Index.{Indexed, IsCounted};

    ghost Value = { Indexed };

    ghost view = { λ i. record { rows = i.pages.rows; usage = i.usage; numbers = i.pages.numbers; pages = i.pages.pages } };

    ghost invariant = { λ i. IsCounted (record { rows = i.pages.rows; usage = i.usage; numbers = i.pages.numbers; pages = i.pages.pages }) };
}

impl Crosses for BlockIndex {}

// The segment in which an entry's version lies.
fn segment_of(entry: Entry) -> Option<SegName>
    ensures { result ≡ segment_of entry }
{
    match entry.place {
        Some(place) => Some(place.seg.name),
        None => None,
    }
}

fn can_rise(more: usize, usage: &Usage, seg: Option<SegName>) -> bool
    ensures { result ≡ can_rise more usage.now seg }
{
    match seg {
        Some(seg) => more <= (u32::MAX - usage.count(seg)) as usize,
        None => true,
    }
}

impl BlockIndex {
    /// An index of nothing. It keeps the allocator and takes no memory.
    pub fn new(alloc: Global) -> BlockIndex
        ensures { result ≡ block_index_new }
    {
        BlockIndex {
            pages: Pages::new(alloc),
            usage: Usage::new(alloc),
        }
    }

    /// What is held of a block: version 0, hop 0 and no place where nothing is.
    pub fn get(&self, block: BlockId) -> Entry
        ensures { result ≡ entry_of self.now.rows block }
    {
        self.pages.get(block)
    }

    /// The index in pages.
    pub fn pages(&self) -> &Pages
        ensures { result.now ≡ pages_of self.now }
    {
        &self.pages
    }

    /// From here on no page of the index has changed.
    pub fn clean(&mut self)
        ensures { self.new ≡ block_index_clean self.old }
    {
        self.pages.clean();
    }

    /// The live blocks of each segment that has one, by segment.
    pub fn counts(&self, alloc: Global) -> Mem<List<(SegName, u32)>>
        ensures { IfOk result (λ counts. counts ≡ self.now.usage) }
    {
        self.usage.counts(alloc)
    }

    /// Whether each segment of these rows can get as many live blocks more as there are rows. It is asked
    /// before anything changes, so it counts each row, also one that will not be taken.
    pub fn has_room(&self, rows: &[(BlockId, Entry)]) -> bool
        ensures { result ≡ has_room (length rows.now) self.now.usage rows.now }
    {
        for row in rows {
            if !can_rise(rows.len(), &self.usage, segment_of(row.1)) {
                return false;
            }
        }
        true
    }

    // One entry is merged, and the counts follow. Where memory is wanting in between, both are given up.
    #[tactic(auto, unfolding(crate::specs::Index::block_index_merge))]
    fn merge(&mut self, alloc: Global, row: (BlockId, Entry)) -> Mem<()>
        requires { ForSome (segment_of row.1) (λ seg. count_of self.old.usage seg < u32_end) }
        ensures ok { OnOk result (self.new ≡ block_index_merge self.old row) }
        ensures counted { OnOk result (IsCounted self.old × IsCounted self.new) }
    {
        let (block, entry) = row;
        let held = self.pages.get(block);
        if !self.pages.merge(alloc, block, entry)? {
            return Ok(());
        }
        let shifted = self.usage.shift(alloc, segment_of(held), segment_of(entry));
        if let Err(err) = shifted {
            drop(mem::replace(&mut self.pages, Pages::new(alloc)));
            drop(mem::replace(&mut self.usage, Usage::new(alloc)));
            return Err(err);
        }
        Ok(())
    }

    /// Merges these rows in their order. It may be asked only where each segment can get a live block more
    /// for each row that lies in it. An index that would need more than 4,294,967,295 pages is in want of
    /// memory. After want of memory nothing is said of the index.
    pub fn merge_all(&mut self, alloc: Global, rows: &[(BlockId, Entry)]) -> Mem<()>
        requires { Fits self.old.usage rows.now }
        ensures { OnOk result (self.new ≡ merge_all self.old rows.now) }
    {
        for row in rows {
            self.merge(alloc, *row)?;
        }
        Ok(())
    }
}
