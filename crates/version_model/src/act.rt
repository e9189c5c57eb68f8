//! What a node did.
ghost use Rattle.std.specs.Prelude.{◌≡◌, IfOk};

use crate::Answer;
use std::alloc::Global;
use xfs_base::{BlockId, Copied, Crosses, List, Mem, NodeId, SegName, Value};

/// What a crashed client may lose of one block.
#[derive(Clone, Copy, PartialEq, Eq)]
pub struct Fall {
    /// The block.
    pub block: BlockId,
    /// The version to which it falls where the segment in flight is lost.
    pub low: u64,
    /// The version to which it falls where the segment in flight is adopted.
    pub high: u64,
}

/// One thing that a node did, as its journal has it. `docs/PROMISES.md` says when a list of acts is
/// legal; clients count from 1.
pub enum Act {
    /// A client wrote a new version of a block.
    Wrote {
        /// The client.
        client: u8,
        /// The block.
        block: BlockId,
        /// The new version's value.
        value: Value,
    },
    /// A client read a version of a block.
    Read {
        /// The client.
        client: u8,
        /// The block.
        block: BlockId,
        /// The version, 0 for a block that was never written.
        ver: u64,
        /// The value that was read.
        value: Value,
    },
    /// All that a client changed is settled on the storage servers.
    Synced {
        /// The client.
        client: u8,
    },
    /// A client crashed with blocks that were not settled.
    Fell {
        /// The client.
        client: u8,
        /// The number and the incarnation of the segment in flight, if one was.
        flight: Option<(u32, u32)>,
        /// The blocks that may fall.
        falls: List<Fall>,
    },
    /// A client has reopened its log and serves again.
    Back {
        /// The client.
        client: u8,
        /// The segments that it found, in rising order.
        chain: List<SegName>,
    },
    /// A node refused a segment as lost.
    Lost {
        /// The node.
        node: NodeId,
        /// The segment.
        seg: SegName,
    },
    /// A segment is settled.
    Filed {
        /// The segment.
        seg: SegName,
    },
    /// The cleaner gave up a segment with no live block.
    Dropped {
        /// The segment.
        seg: SegName,
    },
    /// A node answered an item of its list.
    Answered {
        /// The node.
        node: NodeId,
        /// The number of the item in the node's list, from 1.
        item: u32,
        /// The answer.
        answer: Answer,
    },
}

impl Drop for Act {
    fn drop(self) {
        match self {
            Act::Wrote {
                client: _,
                block: _,
                value,
            } => drop(value),
            Act::Read {
                client: _,
                block: _,
                ver: _,
                value,
            } => drop(value),
            Act::Synced { client: _ } => {}
            Act::Fell {
                client: _,
                flight: _,
                falls,
            } => drop(falls),
            Act::Back { client: _, chain } => drop(chain),
            Act::Lost { node: _, seg: _ } => {}
            Act::Filed { seg: _ } => {}
            Act::Dropped { seg: _ } => {}
            Act::Answered {
                node: _,
                item: _,
                answer,
            } => drop(answer),
        }
    }
}

impl Act {
    /// An act equal to this one.
    pub fn copy(&self, alloc: Global) -> Mem<Act>
        ensures { IfOk result (λ copied. copied ≡ self.now) }
    {
        match self {
            Act::Wrote {
                client,
                block,
                value,
            } => Ok(Act::Wrote {
                client: *client,
                block: *block,
                value: value.copy(alloc)?,
            }),
            Act::Read {
                client,
                block,
                ver,
                value,
            } => Ok(Act::Read {
                client: *client,
                block: *block,
                ver: *ver,
                value: value.copy(alloc)?,
            }),
            Act::Synced { client } => Ok(Act::Synced { client: *client }),
            Act::Fell {
                client,
                flight,
                falls,
            } => Ok(Act::Fell {
                client: *client,
                flight: *flight,
                falls: falls.copy(alloc)?,
            }),
            Act::Back { client, chain } => Ok(Act::Back {
                client: *client,
                chain: chain.copy(alloc)?,
            }),
            Act::Lost { node, seg } => Ok(Act::Lost {
                node: *node,
                seg: *seg,
            }),
            Act::Filed { seg } => Ok(Act::Filed { seg: *seg }),
            Act::Dropped { seg } => Ok(Act::Dropped { seg: *seg }),
            Act::Answered { node, item, answer } => Ok(Act::Answered {
                node: *node,
                item: *item,
                answer: answer.copy(alloc)?,
            }),
        }
    }
}

impl Copied for Act {
    fn copied(&self, alloc: Global) -> Mem<Act> {
        self.copy(alloc)
    }
}

impl Crosses for Fall {}

impl Crosses for Act {}
