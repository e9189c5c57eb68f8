//! What a slot takes.
use slot_beliefs::Wanted;
use xfs_base::{BlockId, Crosses, Entry, List, LogId, Place, Stamp};

/// What a slot takes.
#[derive(Drop)]
pub enum In {
    /// A client wants a block.
    Want {
        /// What it wants.
        want: Wanted,
        /// The end of the client's log, which must be applied before the want is answered.
        end: u32,
    },
    /// A client has given a block up.
    Gave {
        /// The number of the client.
        client: u8,
        /// The block.
        block: BlockId,
        /// The stamp of the recall.
        stamp: Stamp,
        /// The end of the client's log, in which its changes are.
        end: u32,
    },
    /// A log tells what its segments in a range say of the slot's blocks.
    Deltas {
        /// The log.
        log: LogId,
        /// The number of the first segment.
        first: u32,
        /// The number of the last.
        upto: u32,
        /// Where blocks lie, in rising order of segments.
        rows: List<(BlockId, Entry)>,
    },
    /// The cleaner asks whether the newest version of a block lies at a place.
    Check {
        /// The block.
        block: BlockId,
        /// The place.
        place: Place,
    },
    /// Time passes: what is unanswered is sent again.
    Tick,
}

impl Crosses for In {}
