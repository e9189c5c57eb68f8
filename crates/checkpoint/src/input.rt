//! What the writer of checkpoints takes.
use xfs_base::{BlockId, Crosses, End, Entry, List, SegRef};

/// What the writer of checkpoints takes.
#[derive(Drop)]
pub enum In {
    /// A checkpoint of a slot is to be written, by a plan that was made at this moment.
    Begin {
        /// The slot, 0 to 7.
        slot: u8,
        /// The epoch of the slot.
        epoch: u32,
        /// The rows of each page that is to be written: 1 to 128 of each, as many as a Part has.
        pages: List<List<(BlockId, Entry)>>,
        /// The segments of the checkpoint before that are named again.
        parts: List<SegRef>,
        /// For each log 1 to 9 the first segment number that the checkpoint does not cover.
        horizon: List<u32>,
    },
    /// The segment of the parts that were given last is settled.
    Settled {
        /// The end of the log: that segment.
        end: End,
    },
    /// The registry's answer to a checkpoint.
    Ack {
        /// The epoch of the slot that the registry has.
        epoch: u32,
        /// The number of the checkpoint, counted from 1 over all that were done.
        number: u32,
    },
}

impl Crosses for In {}
