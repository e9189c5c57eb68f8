//! What a slot has its manager send.
ghost use Rattle.std.specs.Prelude.{◌≡◌, Some};
ghost use Rattle.token_manager.specs.Transition.{is_place, found};

use xfs_base::{BlockId, Crosses, Entry, LogId, Mode, Place, Stamp};

/// What a slot has its manager send. `client` is the number of the client to which it goes.
#[derive(Clone, Copy)]
pub enum Out {
    /// A client gets a block.
    Grant {
        /// The client.
        client: u8,
        /// The block.
        block: BlockId,
        /// When it is granted.
        stamp: Stamp,
        /// The incarnation of the want.
        inc: u32,
        /// The number of the want.
        req: u32,
        /// The mode.
        mode: Mode,
        /// What the index holds of the block.
        entry: Entry,
    },
    /// A client is to supply a block to another client.
    Forward {
        /// The client.
        client: u8,
        /// The block.
        block: BlockId,
        /// When it is said.
        stamp: Stamp,
        /// The number of the client that wants the block.
        to: u8,
        /// The incarnation of the want.
        inc: u32,
        /// The number of the want.
        req: u32,
        /// The version to supply.
        ver: u64,
    },
    /// A client is to give a block up.
    Recall {
        /// The client.
        client: u8,
        /// The block.
        block: BlockId,
        /// When it is recalled.
        stamp: Stamp,
        /// Whether the client may keep a copy.
        keep: bool,
    },
    /// A log is applied.
    Applied {
        /// The log.
        log: LogId,
        /// The number of the last segment that is applied.
        applied: u32,
    },
    /// The newest version of the block lies at the place.
    Live {
        /// What the index holds of the block.
        entry: Entry,
    },
    /// It does not.
    Dead,
}

impl Crosses for Out {}

// What the cleaner is told of an entry that it may have found at a place.
pub(crate) fn found(entry: Entry, place: Place) -> Out
    ensures { result ≡ found entry place }
{
    if is_place(entry.place, place) {
        Out::Live { entry }
    } else {
        Out::Dead
    }
}

// Whether a place is this one.
fn is_place(known: Option<Place>, place: Place) -> bool
    ensures { result ≡ is_place known place }
{
    match known {
        Some(known) => is_at(known, place),
        None => false,
    }
}

fn is_at(known: Place, place: Place) -> bool
    ensures { result ≡ is_place (Some known) place }
{
    known.seg.is_same(place.seg) && known.item == place.item
}
