//! What a rebuild is told.
use group_map::GroupMap;
use xfs_base::{Crosses, FragMeta, Fragment, List, SegName};

/// What a rebuild is told.
#[derive(Drop)]
pub enum In {
    /// What a server lists, and the names that the rebuilt shelf holds or has marked at this moment.
    Listed {
        /// The server.
        server: u8,
        /// What is said of each fragment that it holds.
        metas: List<FragMeta>,
        /// The names that are held or marked here.
        barred: List<SegName>,
    },
    /// A fragment, in answer to a question.
    Got {
        /// The number of the question.
        ask: u32,
        /// The server.
        server: u8,
        /// Its generation.
        generation: u32,
        /// The fragment.
        fragment: Fragment,
    },
    /// In answer to a question, that the server holds no fragment of the name.
    Missing {
        /// The number of the question.
        ask: u32,
        /// The server.
        server: u8,
        /// Its generation.
        generation: u32,
    },
    /// The groups as they are now: those that were, and maybe more.
    Maps(GroupMap),
    /// Time has passed: what is unanswered is asked again, and at first all servers for their lists.
    Tick,
}

impl Crosses for In {}
