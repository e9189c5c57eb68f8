//! What a cache gives.
use xfs_base::{BlockId, Crosses};

/// What a cache gives.
#[derive(Clone, Copy, PartialEq, Eq)]
pub enum Out {
    /// The block has left to make room: its value is to be dropped.
    Victim(BlockId),
}

impl Crosses for Out {}
