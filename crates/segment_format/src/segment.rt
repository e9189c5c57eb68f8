//! A segment and its items.
ghost use Rattle.std.specs.Prelude.{◌≡◌, IfOk};
ghost use Rattle.std.specs.List.{list_any};
ghost use Rattle.segment_format.specs.Text.{is_long, version_of};

use crate::format::{FIRST_VERSION, SECOND_VERSION, SHORT_LIMIT};
use std::alloc::Global;
use xfs_base::{BlockId, Copied, Entry, List, Mem, Prior, SegName, Value, copy_each};

/// One item of a segment.
#[derive(Drop)]
pub enum Item {
    /// The bytes of a block. Its Delta is the next item.
    Block {
        /// The block.
        block: BlockId,
        /// Its value, which is not Absent.
        value: Value,
    },
    /// What changed of a block (the 1996 paper, "Writes").
    Delta {
        /// The block.
        block: BlockId,
        /// The version.
        ver: u64,
        /// How often the cleaner moved it.
        hop: u32,
        /// The number in this segment of the Block before it, from 0; 65,535 where the version is
        /// Absent.
        item: u16,
    },
    /// A part of a checkpoint of a slot's index (the 1996 paper, "Recovery and Reconfiguration": the
    /// checkpoint of the imap).
    Part {
        /// The slot, 0 to 7.
        slot: u8,
        /// What the index holds, 1 to 128 rows.
        rows: List<(BlockId, Entry)>,
    },
}

impl Item {
    /// Whether this is a Block that has more bytes than format 1 allows.
    fn is_long(&self) -> bool
        ensures { result ≡ is_long self.now }
    {
        match self {
            Item::Block { block: _, value } => match value.bytes() {
                None => false,
                Some(bytes) => usize::from(SHORT_LIMIT) < bytes.len(),
            },
            _ => false,
        }
    }

    /// An item equal to this one.
    pub fn copy(&self, alloc: Global) -> Mem<Item>
        ensures { IfOk result (λ copied. copied ≡ self.now) }
    {
        match self {
            Item::Block { block, value } => Ok(Item::Block {
                block: *block,
                value: value.copy(alloc)?,
            }),
            Item::Delta {
                block,
                ver,
                hop,
                item,
            } => Ok(Item::Delta {
                block: *block,
                ver: *ver,
                hop: *hop,
                item: *item,
            }),
            Item::Part { slot, rows } => Ok(Item::Part {
                slot: *slot,
                rows: rows.copy(alloc)?,
            }),
        }
    }
}

/// Whether one of these items is a Block that has more bytes than format 1 allows.
fn has_long(items: &[Item]) -> bool
    ensures { result ≡ list_any is_long items.now }
{
    items.iter().any(|item| item.is_long())
}

/// The version of the format that these items need.
pub(crate) fn version_of(items: &[Item]) -> u8
    ensures { result ≡ version_of items.now }
{
    if has_long(items) {
        SECOND_VERSION
    } else {
        FIRST_VERSION
    }
}

impl Copied for Item {
    fn copied(&self, alloc: Global) -> Mem<Item> {
        self.copy(alloc)
    }
}

/// A segment of a log (the 1996 paper, "Zebra"): what is written to a stripe at once.
pub struct Segment {
    /// Its name.
    pub name: SegName,
    /// The segment before it in its log.
    pub prior: Prior,
    /// The id of its stripe group.
    pub group: u32,
    /// Its items; at most 24 are Block or Part, and at most 24 are Delta.
    pub items: List<Item>,
}

impl Drop for Segment {
    fn drop(self) {
        let Segment {
            name: _,
            prior: _,
            group: _,
            items,
        } = self;
        drop(items);
    }
}

impl Segment {
    /// Its items.
    pub fn into_items(self) -> List<Item>
        ensures { result ≡ self.items }
    {
        let Segment {
            name: _,
            prior: _,
            group: _,
            items,
        } = self;
        items
    }

    /// A segment equal to this one.
    pub fn copy(&self, alloc: Global) -> Mem<Segment>
        ensures { IfOk result (λ copied. copied ≡ self.now) }
    {
        Ok(Segment {
            name: self.name,
            prior: self.prior,
            group: self.group,
            items: copy_each(alloc, &self.items)?,
        })
    }
}

impl Copied for Segment {
    fn copied(&self, alloc: Global) -> Mem<Segment> {
        self.copy(alloc)
    }
}
