//! What a reader looks for.
ghost use Rattle.std.specs.Prelude.{◌≡◌, slice_get};
ghost use Rattle.segment_reading.specs.Reading.{is_met_by, is_known, is_block};

use group_map::GroupMap;
use segment_format::{Item, Segment};
use xfs_base::{BlockId, Prior, SegName, SegRef};

/// An item of a segment that is to be a Block of one block.
#[derive(Clone, Copy)]
pub struct BlockAt {
    /// The number of the item in the segment, from 0.
    pub item: u16,
    /// The block.
    pub block: BlockId,
}

/// What a reader looks for.
#[derive(Clone, Copy)]
pub struct Target {
    /// The segment, and the group over which it lies.
    pub seg: SegRef,
    /// For a client's read the item that it is after; none for a reader of the whole segment.
    pub block: Option<BlockAt>,
}

impl Target {
    /// Whether the segment is the one that is looked for: it has the name, its prior, where it has one, is
    /// in a group that is known, and the item, where one is looked for, is a Block of the block.
    pub fn is_met_by(&self, segment: &Segment, groups: &GroupMap) -> bool
        ensures { result ≡ is_met_by self.now groups.now segment.now }
    {
        let Some(wanted) = self.block else {
            return self.seg.name.is_same(segment.name) && is_known(segment.prior, groups);
        };
        self.seg.name.is_same(segment.name)
            && is_known(segment.prior, groups)
            && is_block(segment, wanted)
    }
}

/// Whether there is no prior, or one in a group that is known.
fn is_known(prior: Prior, groups: &GroupMap) -> bool
    ensures { result ≡ is_known groups.now prior }
{
    prior.names_none() || groups.lookup(prior.group).is_ok()
}

fn is_block(segment: &Segment, wanted: BlockAt) -> bool
    ensures { result ≡ is_block wanted.block (slice_get segment.now.items wanted.item) }
{
    match segment.items.get(usize::from(wanted.item)) {
        Some(Item::Block { block, value: _ }) => *block == wanted.block,
        _ => false,
    }
}
