//! Why there is no map, or no group.
use thiserror::Error;
use xfs_base::Crosses;

/// Why groups of servers make no map.
#[derive(Debug, Drop, Error)]
pub enum GroupError {
    /// The first size of a group that has fewer servers than two more than its parity, or more than 8.
    #[error("a stripe group has two servers more than its parity, or up to 8, and not {0}")]
    BadSize(usize),
    /// Want of memory.
    #[error("out of memory")]
    Memory,
}

/// No group has this id.
#[derive(Clone, Copy, PartialEq, Eq)]
pub struct NoGroup(pub u32);

impl Crosses for GroupError {}

impl Crosses for NoGroup {}
