//! What the registry gives.
use xfs_base::Crosses;

/// What the registry gives.
#[derive(Clone, Copy, PartialEq, Eq)]
pub enum Out {
    /// The maps have changed: they go to all nodes.
    Changed,
    /// The answer to a reassignment: the new epoch of the slot.
    Epoch {
        /// The epoch.
        epoch: u32,
    },
    /// The answer to a checkpoint: the epoch of its slot as it is kept.
    Kept {
        /// The epoch.
        epoch: u32,
    },
}

impl Crosses for Out {}
