//! What a takeover says.
use xfs_base::{BlockId, Crosses, Entry, List, Mode, NodeId, SegName};

/// What a takeover says.
#[derive(Drop)]
pub enum Out {
    /// Ask this node for its report.
    Poll {
        /// The node.
        to: NodeId,
    },
    /// Ask this server for its fragment of a segment.
    Fetch {
        /// The server.
        server: u8,
        /// The segment.
        name: SegName,
        /// The number of the question.
        ask: u32,
    },
    /// The slot is active: all that its manager needs to go on. Nothing comes after it.
    Active {
        /// The epoch of the slot.
        epoch: u32,
        /// What is known of each block, by block: at most 4,294,967,295 rows.
        index: List<(BlockId, Entry)>,
        /// Which client holds what.
        beliefs: List<(BlockId, u8, Mode)>,
        /// Nine numbers: up to which segment each log, from log 1 to 9, is in the index.
        applied: List<u32>,
    },
    /// The slot is broken, since this segment is lost. Nothing comes after it.
    Lost {
        /// The segment.
        name: SegName,
    },
}

impl Crosses for Out {}
