//! What an opening says.
use segment_format::Segment;
use xfs_base::{Crosses, End, List, Prior, SegName};

/// What an opening has its node do next.
#[derive(Drop)]
pub enum Out {
    /// Ask the registry for the maps, by the question of this number.
    Hello {
        /// The number of the question.
        ask: u32,
    },
    /// Ask this server to take nothing more of earlier incarnations, and for what it holds of the log.
    Fence {
        /// The server.
        server: u8,
    },
    /// Ask this server for its fragment of a segment.
    Fetch {
        /// The server.
        server: u8,
        /// The segment.
        name: SegName,
        /// The number of the question.
        ask: u32,
    },
    /// All is read: the log goes on behind these segments.
    Chain {
        /// The segments that were read back, in rising order of their numbers.
        segments: List<Segment>,
        /// Where the log goes on: its next segment has the number after this one's. Pass and group are
        /// those of the newest segment that is kept, all zero where none is.
        end: End,
        /// The same pass and group, as the next segment names its prior.
        prior: Prior,
    },
    /// A segment of the chain is lost, and with it the log.
    Lost {
        /// The segment.
        name: SegName,
    },
}

impl Crosses for Out {}
