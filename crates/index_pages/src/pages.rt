//! The index in pages.
ghost use Rattle.std.specs.Prelude.{◌≡◌, ◌<◌, length, IfOk, OnOk, OnErr, IsTrue, None};
ghost use Rattle.xfs_base.specs.Limits.{u32_end};
ghost use Rattle.delta_index.specs.Entries.{is_newer};
ghost use Rattle.delta_index.specs.Index.{entry_of};
ghost use Rattle.index_pages.specs.Layout.{first_block};
ghost use Rattle.index_pages.specs.Pages.{pages_new, page_of, put_on, begin_page, put_anew, put, pages_merge, has_room, pages_clean, changed_from, held, rows_on, all_rows, changed_rows, first_of, pages_rows};

use crate::layout::{Page, blocks_on, first_block};
use std::alloc::{AllocError, Global};
use std::collections::BTreeMap;
use std::marker::Model;
use xfs_base::{BlockId, Crosses, Entry, Ino, List, Mem};

/// For each block the entry that was put last, and of each page whether something was put on it since
/// `clean`. Pages are numbered from 0 in order of their first put. Contracts see the rows by block, the
/// number of each page by its first block, and the pages in order of number.
pub struct Pages {
    rows: BTreeMap<BlockId, Entry>,
    numbers: BTreeMap<BlockId, u32>,
    pages: Vec<Page>,
}

impl Drop for Pages {
    fn drop(self) {
        let Pages {
            rows,
            numbers,
            pages,
        } = self;
        drop(rows);
        drop(numbers);
        drop(pages);
    }
}

impl Model for Pages {
    ghost use Rattle.std.specs.Prelude.{◌≤◌, length};
    ghost use Rattle.xfs_base.specs.Limits.{u32_end};
    ghost use Rattle.index_pages.specs.Pages.{PagesState};

    ghost Value = { PagesState };

    ghost view = { λ p. record { rows = p.rows.entries; numbers = p.numbers.entries; pages = p.pages.items } };

    ghost invariant = { λ p. length p.pages.items ≤ u32_end };
}

impl Crosses for Pages {}

fn is_newer_entry(entry: Entry, held: Entry) -> bool
    ensures { result ≡ is_newer entry held }
{
    entry.ver > held.ver || entry.ver == held.ver && entry.hop > held.hop
}

// What a table holds of these blocks, in their order.
fn held(
    alloc: Global,
    table: &BTreeMap<BlockId, Entry>,
    blocks: &[BlockId],
) -> Mem<List<(BlockId, Entry)>>
    ensures { IfOk result (λ rows. rows ≡ held table.now.entries blocks.now) }
{
    let mut rows = List::new(alloc);
    for block in blocks {
        if let Some(entry) = table.get(block) {
            rows.push((*block, *entry))?;
        }
    }
    Ok(rows)
}

// The first block of the page at a place.
fn first_of(pages: &[Page], page: u32) -> BlockId
    ensures { result ≡ first_of pages.now page }
{
    match pages.get(page as usize) {
        Some(page) => page.first,
        None => BlockId {
            ino: Ino(0),
            blk: 0,
        },
    }
}

impl Pages {
    /// An index of nothing. It keeps the allocator and takes no memory.
    pub fn new(alloc: Global) -> Pages
        ensures { result ≡ pages_new }
    {
        Pages {
            rows: BTreeMap::new(alloc),
            numbers: BTreeMap::new(alloc),
            pages: Vec::new(alloc),
        }
    }

    /// What was put last at a block: version 0, hop 0 and no place where nothing was. Takes no memory,
    /// and the time is logarithmic in what was put.
    pub fn get(&self, block: BlockId) -> Entry
        ensures { result ≡ entry_of self.now.rows block }
    {
        match self.rows.get(&block) {
            Some(entry) => *entry,
            None => Entry {
                ver: 0,
                hop: 0,
                place: None,
            },
        }
    }

    /// How many pages there are. Takes no memory.
    pub fn count(&self) -> u32
        ensures { result ≡ length self.now.pages }
    {
        self.pages.len() as u32
    }

    /// The number of a block's page; none exactly where nothing of that page was put. Takes no memory.
    pub fn page_of(&self, block: BlockId) -> Option<u32>
        ensures { result ≡ page_of self.now block }
    {
        self.numbers.get(&first_block(block)).copied()
    }

    /// Puts an entry at a block in place of what was there, and notes that its page changed. It may be
    /// asked only where the block's page is there or there are fewer than 4,294,967,295 pages. Where
    /// memory is wanting nothing changes. The time is logarithmic in what was put.
    #[tactic(auto, unfolding(crate::specs::Pages::put))]
    pub fn put(&mut self, _alloc: Global, block: BlockId, entry: Entry) -> Mem<()>
        requires { page_of self.old block ≡ None → length self.old.pages < u32_end }
        ensures ok { OnOk result (self.new ≡ put self.old block entry) }
        ensures err { OnErr result (self.new ≡ self.old) }
    {
        match self.page_of(block) {
            Some(page) => self.put_on(page, block, entry),
            None => self.put_anew(block, entry),
        }
    }

    // Puts an entry on a page that is there.
    fn put_on(&mut self, page: u32, block: BlockId, entry: Entry) -> Mem<()>
        ensures ok { OnOk result (self.new ≡ put_on self.old page block entry) }
        ensures err { OnErr result (self.new ≡ self.old) }
    {
        self.rows.insert(block, entry)?;
        if let Some(held) = self.pages.get_mut(page as usize) {
            *held = Page {
                first: first_block(block),
                changed: true,
            };
        }
        Ok(())
    }

    // Begins the page of a block.
    fn begin_page(&mut self, block: BlockId) -> Mem<()>
        requires room { length self.old.pages < u32_end }
        ensures ok { OnOk result (self.new ≡ begin_page self.old block) }
        ensures err { OnErr result (self.new ≡ self.old) }
    {
        let number = self.pages.len() as u32;
        let first = first_block(block);
        self.pages.push(Page {
            first,
            changed: true,
        })?;
        if self.numbers.insert(first, number).is_err() {
            self.pages.pop();
            return Err(AllocError);
        }
        Ok(())
    }

    // Puts the first entry of a page.
    fn put_anew(&mut self, block: BlockId, entry: Entry) -> Mem<()>
        requires absent { page_of self.old block ≡ None }
        requires room { length self.old.pages < u32_end }
        ensures ok { OnOk result (self.new ≡ put_anew self.old block entry) }
        ensures err { OnErr result (self.new ≡ self.old) }
    {
        self.begin_page(block)?;
        match self.rows.insert(block, entry) {
            Ok(_) => Ok(()),
            Err(_) => {
                self.numbers.remove(&first_block(block));
                self.pages.pop();
                Err(AllocError)
            }
        }
    }

    // Whether the page of a block is there, or can be begun.
    fn has_room(&self, block: BlockId) -> bool
        ensures { result ≡ has_room self.now block }
    {
        match self.page_of(block) {
            Some(_) => true,
            None => self.count() < u32::MAX,
        }
    }

    /// Puts an entry at a block where its version, or at one version its hop, is greater than that of
    /// what `get` gives, and answers whether it did: of equal ones the earlier stays. Only a block whose
    /// page is there, or can be begun, is put; where a page more than 4,294,967,295 would be needed, that is
    /// want of memory. Where memory is wanting nothing changes.
    #[tactic(auto, unfolding(crate::specs::Pages::pages_merge))]
    pub fn merge(&mut self, alloc: Global, block: BlockId, entry: Entry) -> Mem<bool>
        ensures taken { IfOk result (λ taken. taken ≡ is_newer entry (entry_of self.old.rows block)) }
        ensures room { IfOk result (λ taken. IsTrue taken → IsTrue (has_room self.old block)) }
        ensures ok { OnOk result (self.new ≡ pages_merge self.old block entry) }
        ensures err { OnErr result (self.new ≡ self.old) }
    {
        if !is_newer_entry(entry, self.get(block)) {
            return Ok(false);
        }
        if !self.has_room(block) {
            return Err(AllocError);
        }
        self.put(alloc, block, entry)?;
        Ok(true)
    }

    /// The numbers of the pages on which something was put since `clean`, rising.
    pub fn changed(&self, alloc: Global) -> Mem<List<u32>>
        ensures { IfOk result (λ pages. pages ≡ changed_from 0 self.now.pages) }
    {
        let mut numbers = List::new(alloc);
        for (number, page) in self.pages.iter().enumerate() {
            if page.changed {
                numbers.push(number as u32)?;
            }
        }
        Ok(numbers)
    }

    /// From here on no page has changed. Takes no memory.
    #[tactic(auto, unfolding(crate::specs::Pages::pages_clean))]
    pub fn clean(&mut self)
        ensures { self.new ≡ pages_clean self.old }
    {
        for page in self.pages.iter_mut() {
            *page = Page {
                first: page.first,
                changed: false,
            };
        }
    }

    /// What was put on a page, by block; at most 64 rows. The page must be there.
    #[tactic(auto, unfolding(crate::specs::Pages::pages_rows))]
    pub fn rows(&self, alloc: Global, page: u32) -> Mem<List<(BlockId, Entry)>>
        requires { page < length self.now.pages }
        ensures { IfOk result (λ rows. rows ≡ pages_rows self.now page) }
    {
        let blocks = blocks_on(alloc, first_of(&self.pages, page))?;
        held(alloc, &self.rows, blocks.as_slice())
    }

    /// What was put on each page, by number of the page, and on each by block.
    pub fn all_rows(&self, alloc: Global) -> Mem<List<List<(BlockId, Entry)>>>
        ensures { IfOk result (λ pages. pages ≡ all_rows self.now) }
    {
        let mut pages = List::new(alloc);
        for page in self.pages.iter() {
            pages.push(self.rows_on(alloc, *page)?)?;
        }
        Ok(pages)
    }

    /// What was put on each page on which something was put since `clean`, by number of the page, and on
    /// each by block.
    pub fn changed_rows(&self, alloc: Global) -> Mem<List<List<(BlockId, Entry)>>>
        ensures { IfOk result (λ pages. pages ≡ changed_rows self.now) }
    {
        let mut pages = List::new(alloc);
        for page in self.pages.iter() {
            if page.changed {
                pages.push(self.rows_on(alloc, *page)?)?;
            }
        }
        Ok(pages)
    }

    fn rows_on(&self, alloc: Global, page: Page) -> Mem<List<(BlockId, Entry)>>
        ensures { IfOk result (λ rows. rows ≡ rows_on self.now.rows page) }
    {
        let blocks = blocks_on(alloc, page.first)?;
        held(alloc, &self.rows, blocks.as_slice())
    }
}
