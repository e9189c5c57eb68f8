//! What a takeover is told.
use group_map::GroupMap;
use xfs_base::{BlockId, Crosses, End, Fragment, List, Mode, NodeId};

/// What a takeover is told.
#[derive(Drop)]
pub enum In {
    /// A client or the cleaner reports.
    Report {
        /// The node.
        from: NodeId,
        /// What it holds of the slot's blocks, where it is a client.
        held: List<(BlockId, Mode)>,
        /// The newest settled segment of its log; number 0 where nothing is settled.
        end: End,
    },
    /// A fragment, in answer to a question.
    Got {
        /// The number of the question.
        ask: u32,
        /// The server.
        server: u8,
        /// Its generation.
        generation: u32,
        /// The fragment.
        fragment: Fragment,
    },
    /// In answer to a question, that the server holds no fragment of the name.
    Missing {
        /// The number of the question.
        ask: u32,
        /// The server.
        server: u8,
        /// Its generation.
        generation: u32,
    },
    /// The groups as they are now: those that were, and maybe more.
    Maps(GroupMap),
    /// Time has passed: what is unanswered is asked again, and at first all nodes for their reports.
    Tick,
}

impl Crosses for In {}
