//! What a feed gives.
use xfs_base::{BlockId, Crosses, Entry, List};

/// What a feed gives.
#[derive(Drop)]
pub enum Out {
    /// For the manager of a slot: what a range of segments says of the slot's blocks.
    Range {
        /// The slot.
        slot: u8,
        /// The number of the first segment.
        first: u32,
        /// The number of the last.
        upto: u32,
        /// What they say, in rising order of segments.
        rows: List<(BlockId, Entry)>,
    },
}

impl Crosses for Out {}
