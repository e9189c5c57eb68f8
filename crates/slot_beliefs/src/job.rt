//! What a slot keeps of its clients: who may hold which block, and what waits for recalls.
use xfs_base::{BlockId, Crosses, List, Mode, Stamp};

/// A client that may hold a block. The order is by block, then by client.
#[derive(Clone, Copy, PartialEq, Eq, PartialOrd, Ord)]
pub struct Holder {
    /// The block.
    pub block: BlockId,
    /// The number of the client.
    pub client: u8,
}

/// What a client wants.
#[derive(Clone, Copy)]
pub struct Wanted {
    /// The number of the client.
    pub client: u8,
    /// The block.
    pub block: BlockId,
    /// The incarnation of the client.
    pub inc: u32,
    /// The client's number of this want.
    pub req: u32,
    /// How often it was said before; a want that was said before is answered from the log alone.
    pub again: u32,
    /// The wanted mode.
    pub mode: Mode,
}

/// A recall that was sent.
#[derive(Clone, Copy)]
pub struct Awaited {
    /// The client from which the block is recalled.
    pub client: u8,
    /// The stamp of the recall.
    pub stamp: Stamp,
    /// Whether the client may keep a copy.
    pub keep: bool,
    /// The end of its log that the client named when it gave the block up; none until then.
    pub end: Option<u32>,
}

/// A want that waits until others have given the block up, and until what they wrote is applied.
pub struct Job {
    /// What is wanted.
    pub want: Wanted,
    /// The recalls for it, in order of clients.
    pub awaited: List<Awaited>,
}

impl Drop for Job {
    fn drop(self) {
        let Job { want, awaited } = self;
        drop(want);
        drop(awaited);
    }
}

impl Crosses for Holder {}

impl Crosses for Wanted {}

impl Crosses for Awaited {}

impl Crosses for Job {}
