//! What a log gives.
use group_map::Member;
use xfs_base::{BlockId, Crosses, End, Entry, Fragment, List};

/// What a log has the node do next.
#[derive(Drop)]
pub enum Out {
    /// Send the fragment to the member's server, to be stored at the member's generation.
    Send {
        /// The fragment.
        fragment: Fragment,
        /// The member of the segment's group that is to hold it.
        member: Member,
    },
    /// A segment is settled.
    Settled {
        /// The segment, as the newest of its log.
        end: End,
        /// What it says of blocks.
        rows: List<(BlockId, Entry)>,
    },
}

impl Crosses for Out {}
