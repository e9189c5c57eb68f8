//! What a log takes.
use group_map::GroupMap;
use segment_format::Item;
use xfs_base::{BlockId, Crosses, Entry, List, SegName, Value};

/// What a log takes. An input that would raise a number of a segment or of an attempt past the end of its
/// type changes nothing and gives nothing.
#[derive(Drop)]
pub enum In {
    /// This version of the block waits to be written; of the entry the place is not looked at. Where it
    /// makes 24 blocks wait and no segment is in flight, the log is sealed.
    Put {
        /// The block.
        block: BlockId,
        /// The version, and how often the cleaner moved it.
        entry: Entry,
        /// The value.
        value: Value,
    },
    /// Write a segment of just these items. Nothing happens where a segment is in flight, or where no
    /// segment may have such items.
    Parts(List<Item>),
    /// Write what waits: its first 24 blocks, where something waits and no segment is in flight.
    Seal,
    /// A server, at this generation, holds the fragment of this segment at this place.
    Acked {
        /// The segment.
        name: SegName,
        /// The number of the fragment in the stripe.
        index: u8,
        /// The generation of the server.
        generation: u32,
    },
    /// The stripe groups as the node has them now.
    Maps(GroupMap),
    /// Time passes.
    Tick,
}

impl Crosses for In {}
