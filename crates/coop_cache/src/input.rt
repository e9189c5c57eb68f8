//! What a cache takes.
use xfs_base::{BlockId, Crosses};

/// What a cache takes.
#[derive(Clone, Copy)]
pub enum In {
    /// The block is cached and clean. It counts as used now.
    Clean(BlockId),
    /// The block is used. Where it is not among the clean blocks, nothing changes.
    Touch(BlockId),
    /// The block is changed: a dirty block does not count and is no victim.
    Dirty(BlockId),
    /// The block is no longer cached.
    Gone(BlockId),
}

impl Crosses for In {}
