//! What a feed takes.
use xfs_base::{BlockId, Crosses, Entry, List};

/// What a feed takes. Slots are 0 to 7; an input that names a greater one changes nothing and gives
/// nothing.
#[derive(Drop)]
pub enum In {
    /// A segment is settled. One whose number is not above the base and above all that the feed took
    /// before changes nothing.
    Settled {
        /// The number of the segment in its log.
        seq: u32,
        /// What it says of blocks, in its order.
        rows: List<(BlockId, Entry)>,
    },
    /// The manager of a slot has applied the log.
    Ack {
        /// The slot.
        slot: u8,
        /// The number of the last segment that it has applied.
        applied: u32,
    },
    /// A slot has a new manager, that may know no more than the base.
    NewEpoch {
        /// The slot.
        slot: u8,
    },
    /// Tell a slot what it has not acknowledged, if there is anything.
    Push {
        /// The slot.
        slot: u8,
    },
    /// Tell each slot, in order, what it has not acknowledged.
    Tick,
}

impl Crosses for In {}
