//! What a run with applications leaves.
ghost use Rattle.std.specs.Prelude.{◌≡◌};

use crate::Reply;
use world_base::Estate;
use xfs_base::List;

/// A run with applications, what each called, and what it was replied, in order of clients.
pub struct Mounted<N> {
    /// Whether all items of all nodes are answered; else the run was given up.
    pub full: bool,
    /// The run.
    pub estate: Estate<N>,
    /// For each client the items that were called, in that order.
    pub calls: List<List<u32>>,
    /// For each client the replies, in that order.
    pub replies: List<List<Reply>>,
}

impl<N: Drop> Drop for Mounted<N> {
    fn drop(self) {
        let (estate, calls, replies) = self.into_parts();
        drop(estate);
        drop(calls);
        drop(replies);
    }
}

impl<N> Mounted<N> {
    /// The run, the calls, and the replies. It takes no memory.
    pub fn into_parts(self) -> (Estate<N>, List<List<u32>>, List<List<Reply>>)
        ensures { result ≡ (self.estate, self.calls, self.replies) }
    {
        let Mounted {
            full: _,
            estate,
            calls,
            replies,
        } = self;
        (estate, calls, replies)
    }
}
