//! What the writer of checkpoints gives.
use segment_format::Item;
use xfs_base::{Crosses, List, SegRef};

/// What the writer of checkpoints gives.
#[derive(Drop)]
pub enum Out {
    /// These are to be written as the next segment of the log.
    Parts {
        /// 1 to 24 Parts, one for each page.
        items: List<Item>,
    },
    /// The checkpoint is written, and the registry is to be told.
    Done {
        /// The slot.
        slot: u8,
        /// Its epoch when the checkpoint was begun.
        epoch: u32,
        /// The segments of the checkpoint, the older first.
        parts: List<SegRef>,
        /// The horizon as it was when the checkpoint was begun.
        horizon: List<u32>,
    },
    /// The registry still has this epoch of the slot.
    Kept,
    /// The registry has a greater epoch of the slot.
    Stale {
        /// The epoch that it has.
        epoch: u32,
    },
}

impl Crosses for Out {}
