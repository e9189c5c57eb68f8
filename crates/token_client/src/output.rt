//! What the tokens of a client have the node do next.
use xfs_base::{BlockId, Crosses, Mode, Place, Stamp, Value};

/// What the tokens of a client have the node do next.
#[derive(Drop)]
pub enum Out {
    /// Send a want. Before one that was never sent go the deltas that the slot hasn't acknowledged.
    Want {
        /// The block.
        block: BlockId,
        /// The number of the want.
        req: u32,
        /// How often it was sent before.
        again: u32,
        /// The wanted mode.
        mode: Mode,
    },
    /// Tell the manager that a recall is done.
    Gave {
        /// The block.
        block: BlockId,
        /// The stamp of the recall.
        stamp: Stamp,
    },
    /// Supply a block to the client that the forward names.
    Supply {
        /// The block.
        block: BlockId,
        /// The version.
        ver: u64,
        /// Its value.
        value: Value,
    },
    /// Seal, because a block is recalled and dirty.
    Flush {
        /// The block.
        block: BlockId,
    },
    /// Read a block from a log.
    Read {
        /// The block.
        block: BlockId,
        /// Where it lies.
        place: Place,
    },
    /// Run on the call that waits for a block.
    Ready {
        /// The block.
        block: BlockId,
    },
}

impl Crosses for Out {}
