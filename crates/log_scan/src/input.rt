//! What an opening is told.
use group_map::GroupMap;
use xfs_base::{Crosses, FragMeta, Fragment, List, SlotNews};

/// What an opening is told. Where the numbers of its questions are used up no answer has an effect.
#[derive(Drop)]
pub enum In {
    /// The registry's answer to a question: the maps as they are now.
    Welcome {
        /// The number of the question.
        ask: u32,
        /// The slots. Their least horizon of the log is the first number that may still be needed.
        news: List<SlotNews>,
        /// The stripe groups: those that were known, and maybe more.
        groups: GroupMap,
    },
    /// A server takes nothing more of earlier incarnations of the log's owner. Of each server the first
    /// answer counts.
    Fenced {
        /// The server.
        server: u8,
        /// Its generation.
        generation: u32,
        /// What is said of each fragment of the log that it holds.
        held: List<FragMeta>,
    },
    /// A fragment, in answer to a question.
    Got {
        /// The number of the question.
        ask: u32,
        /// The server.
        server: u8,
        /// Its generation.
        generation: u32,
        /// The fragment.
        fragment: Fragment,
    },
    /// In answer to a question, that the server holds no fragment of the segment.
    Missing {
        /// The number of the question.
        ask: u32,
        /// The server.
        server: u8,
        /// Its generation.
        generation: u32,
    },
    /// The stripe groups as they are now: those that were known, and maybe more.
    Maps(GroupMap),
    /// Time has passed: what is unanswered is asked again, and at first the registry.
    Tick,
}

impl Crosses for In {}
