//! What the tokens of a client take.
use xfs_base::{BlockId, Crosses, Entry, Mode, Stamp, Value};

/// What the tokens of a client take. `inc` and `req` are the incarnation of the client that asked, and the
/// number of its want.
#[derive(Drop)]
pub enum In {
    /// A call needs a block in a mode.
    Need {
        /// The block.
        block: BlockId,
        /// The mode.
        mode: Mode,
    },
    /// A manager grants a block.
    Granted {
        /// The block.
        block: BlockId,
        /// When it was granted.
        stamp: Stamp,
        /// The incarnation of the want.
        inc: u32,
        /// The number of the want.
        req: u32,
        /// The mode.
        mode: Mode,
        /// What the manager's index holds of the block.
        entry: Entry,
    },
    /// Another client supplies a block.
    Supplied {
        /// The block.
        block: BlockId,
        /// When the manager said so.
        stamp: Stamp,
        /// The incarnation of the want.
        inc: u32,
        /// The number of the want.
        req: u32,
        /// The version.
        ver: u64,
        /// Its value.
        value: Value,
    },
    /// A manager has a block supplied to another client.
    Forwarded {
        /// The block.
        block: BlockId,
        /// When the manager said so.
        stamp: Stamp,
        /// The version to supply.
        ver: u64,
    },
    /// A manager takes a block back.
    Recalled {
        /// The block.
        block: BlockId,
        /// When it was recalled.
        stamp: Stamp,
        /// Whether a copy may stay.
        keep: bool,
    },
    /// The call writes a block.
    Wrote {
        /// The block.
        block: BlockId,
        /// The value of its next version.
        value: Value,
    },
    /// A version of a block is settled.
    Settled {
        /// The block.
        block: BlockId,
        /// The version.
        ver: u64,
    },
    /// A block was read from the log.
    Fetched {
        /// The block.
        block: BlockId,
        /// What was read.
        value: Value,
    },
    /// A block leaves the cache.
    Evict {
        /// The block.
        block: BlockId,
    },
    /// A round of reading a block failed, and its place is asked for again.
    Reask {
        /// The block.
        block: BlockId,
    },
    /// The call that waits for a block answers that it is lost.
    Quit {
        /// The block.
        block: BlockId,
    },
    /// A slot has this epoch.
    Promise {
        /// The slot, 0 to 7.
        slot: u8,
        /// The epoch.
        epoch: u32,
    },
    /// Time passes.
    Tick,
}

impl Crosses for In {}
