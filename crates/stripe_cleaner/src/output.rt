//! What a job of the cleaner has the node do next.
use xfs_base::{BlockId, Crosses, Entry, List, Place, SegName, SegRef, Value};

/// What a job of the cleaner has the node do next. At a Tick it is a repetition, by the same question, but
/// for the first Hello, and for a Check of what was moved, which is a new question.
#[derive(Drop)]
pub enum Out {
    /// Ask the registry for the maps.
    Hello,
    /// Ask this server for what it holds.
    List {
        /// The server.
        server: u8,
    },
    /// Ask the manager of this slot how many live blocks each segment has.
    UsageAsk {
        /// The slot.
        slot: u8,
    },
    /// Read this segment.
    Fetch(SegRef),
    /// Ask the manager of the block whether its newest version lies here.
    Check {
        /// The block.
        block: BlockId,
        /// The place.
        place: Place,
    },
    /// Write these to the cleaner's log: of each block its value, at the version that it has, as moved once
    /// more. They are at most as many as a segment has blocks.
    Move(List<(BlockId, Entry, Value)>),
    /// Have this server delete a segment. The first of a segment is where it is dropped.
    Delete {
        /// The server.
        server: u8,
        /// The segment.
        name: SegName,
    },
    /// The job is over: so many segments were deleted.
    Finished(u32),
}

impl Crosses for Out {}
