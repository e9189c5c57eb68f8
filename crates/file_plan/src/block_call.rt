//! What a plan asks of the client that it runs on, and what it is answered.
use version_model::Answer;
use xfs_base::{BlockId, Crosses, Value};

/// A call on blocks, which the client answers by its tokens and its log (the 1996 paper, "Cache
/// Consistency").
pub enum BlockCall {
    /// Reads a block.
    Get(BlockId),
    /// Writes a block.
    Put(BlockId, Value),
    /// Writes a block where its version is still this one.
    PutAt(BlockId, u64, Value),
    /// Waits until all that the client changed is settled.
    Sync,
}

impl Drop for BlockCall {
    fn drop(self) {
        match self {
            BlockCall::Get(_) => {}
            BlockCall::Put(_, part) => drop(part),
            BlockCall::PutAt(_, _, part) => drop(part),
            BlockCall::Sync => {}
        }
    }
}

/// The answer to a call on blocks.
#[derive(Drop)]
pub enum BlockAnswer {
    /// A block was read: its version and its value.
    Got(u64, Value),
    /// A block was written, and this is its version.
    Put(u64),
    /// The version isn't the named one any more, and nothing was written.
    Changed,
    /// All that the client changed is settled.
    Synced,
}

/// What a call on files does next.
#[derive(Drop)]
pub enum Next {
    /// It makes this call on blocks.
    Step(BlockCall),
    /// It is done, and this is its answer.
    Reply(Answer),
}

impl Crosses for BlockCall {}

impl Crosses for BlockAnswer {}

impl Crosses for Next {}
