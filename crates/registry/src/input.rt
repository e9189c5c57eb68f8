//! What the registry takes.
use xfs_base::{Crosses, List, NodeId, SegRef};

/// What the registry takes. The nodes are those of the setup.
#[derive(Drop)]
pub enum In {
    /// A node asks for the maps, and tells of a restart or a loss. Only that of a manager or a server
    /// changes anything.
    Hello {
        /// The node.
        node: NodeId,
        /// Its incarnation; of a server its generation.
        inc: u32,
    },
    /// A slot is to be given to a manager.
    Reassign {
        /// The slot, 0 to 7.
        slot: u8,
        /// The number of the manager.
        manager: u8,
    },
    /// A manager has written a checkpoint of a slot.
    Done {
        /// The slot, 0 to 7.
        slot: u8,
        /// The epoch of the slot.
        epoch: u32,
        /// The segments of the checkpoint.
        parts: List<SegRef>,
        /// For each log 1 to 9 the first segment number that the checkpoint does not cover.
        horizon: List<u32>,
    },
}

impl Crosses for In {}
