//! What the items before a place say of the next.
ghost use Rattle.std.specs.Prelude.{◌≡◌, ◌+◌, ◌<◌};
ghost use Rattle.segment_format.specs.Rule.{nothing_seen, seen_after, is_kind, has_room, may_come, answers, follows};

use crate::Item;
use crate::format::{MOST, NO_ITEM};
use xfs_base::BlockId;

/// A Delta that has to come at once: of this block, and with this item.
#[derive(Clone, Copy)]
pub(crate) struct Awaited {
    /// The block of the Block before it.
    pub block: BlockId,
    /// The number of that Block in the segment.
    pub item: u16,
}

/// What the items before a place say of the next.
#[derive(Clone, Copy)]
pub(crate) struct Seen {
    /// How many are Block or Part.
    pub others: u16,
    /// How many are Delta.
    pub deltas: u16,
    /// The Delta that has to come, where the last is a Block.
    pub awaited: Option<Awaited>,
}

/// Whether a number is the kind of an item.
pub(crate) fn is_kind(kind: u8) -> bool
    ensures { result ≡ is_kind kind }
{
    1 <= kind && kind <= 3
}

impl Seen {
    /// Nothing yet.
    pub fn nothing() -> Seen
        ensures { result ≡ nothing_seen }
    {
        Seen {
            others: 0,
            deltas: 0,
            awaited: None,
        }
    }

    /// What is seen behind this item.
    pub fn with_item(self, item: &Item) -> Seen
        requires { self.others + self.deltas < 65535 }
        ensures { result ≡ seen_after item.now self }
    {
        match item {
            Item::Block { block, value: _ } => Seen {
                others: self.others + 1,
                deltas: self.deltas,
                awaited: Some(Awaited {
                    block: *block,
                    item: self.others + self.deltas,
                }),
            },
            Item::Delta { .. } => Seen {
                others: self.others,
                deltas: self.deltas + 1,
                awaited: None,
            },
            Item::Part { .. } => Seen {
                others: self.others + 1,
                deltas: self.deltas,
                awaited: None,
            },
        }
    }

    /// Whether the limits leave room for one more item of this kind.
    pub fn has_room(self, kind: u8) -> bool
        ensures { result ≡ has_room self kind }
    {
        if kind == 2 {
            self.deltas < MOST
        } else {
            self.others < MOST
        }
    }

    /// Whether an item of this kind may come here.
    pub fn may_come(self, kind: u8) -> bool
        ensures { result ≡ may_come self kind }
    {
        kind == 2 || self.awaited.is_none()
    }

    /// Whether a Delta of this block with this item is the one that has to come, or of an Absent
    /// version where none has to.
    pub fn answers(self, block: BlockId, item: u16) -> bool
        ensures { result ≡ answers self.awaited block item }
    {
        match self.awaited {
            None => item == NO_ITEM,
            Some(awaited) => block.is_same(awaited.block) && item == awaited.item,
        }
    }

    /// Whether this item may come here.
    pub fn follows(self, item: &Item) -> bool
        ensures { result ≡ follows self.awaited item.now }
    {
        match item {
            Item::Delta { block, item, .. } => self.answers(*block, *item),
            _ => true,
        }
    }
}
