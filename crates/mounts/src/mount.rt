//! An application's ends of the rings that join it to its client.
ghost use Rattle.std.specs.Prelude.{◌≡◌, ◌<◌, ◌+◌, ◌∷◌, ◌++◌, [], length, MatchOption};
ghost use Rattle.rtrb.specs.Ring.{SameConsumer, SameProducer, known_free, known_items, producer_capacity, received, sent};

use crate::Reply;
use crate::bell::Bell;
use rtrb::{Consumer, Producer};
use std::alloc::Global;
use std::sync::Arc;
use xfs_base::Mem;

/// The end of a pair of rings by which an application calls the items of a client and takes what that replies.
#[derive(Drop)]
pub struct Mount {
    /// Where it calls.
    pub(crate) calls: Producer<u32>,
    /// Where it is replied.
    pub(crate) replies: Consumer<Reply>,
    bell: Arc<Bell, Global>,
    ghost room: { known_free calls + length (sent calls) ≡ producer_capacity calls },
}

impl Mount {
    /// The end of rings through which nothing passed yet.
    pub(crate) fn start(
        calls: Producer<u32>,
        replies: Consumer<Reply>,
        bell: Arc<Bell, Global>,
    ) -> Mount
        requires empty { sent calls ≡ [] }
        requires room { known_free calls ≡ producer_capacity calls }
        ensures { (result.calls ≡ calls) × (result.replies ≡ replies) }
    {
        Mount {
            calls,
            replies,
            bell,
        }
    }

    /// What rings when it is replied.
    pub(crate) fn bell(&self) -> Mem<Arc<Bell, Global>> {
        let bell = self.bell.clone()?;
        Ok(bell)
    }

    /// Calls an item. It can't be refused, since there is a slot for each call that may be made, and takes no memory.
    pub fn call(&mut self, item: u32)
        requires { length (sent self.old.calls) < producer_capacity self.old.calls }
        ensures ring { SameProducer self.old.calls self.new.calls }
        ensures sent { sent self.new.calls ≡ sent self.old.calls ++ item ∷ [] }
        ensures replies { self.new.replies ≡ self.old.replies }
    {
        self.calls.push_reserved(item);
        self.bell.call();
    }

    /// Takes the oldest reply; none where its end knows of none. It takes no memory.
    pub fn reply(&mut self) -> Option<Reply>
        ensures ring { SameConsumer self.old.replies self.new.replies }
        ensures taken { MatchOption result ((received self.new.replies ≡ received self.old.replies) × (known_items self.new.replies ≡ []))
            (λ reply. received self.new.replies ≡ received self.old.replies ++ reply ∷ []) }
        ensures calls { self.new.calls ≡ self.old.calls }
    {
        match self.replies.pop() {
            Ok(reply) => Some(reply),
            Err(_) => None,
        }
    }

    /// Its two ends. It takes no memory.
    pub(crate) fn into_ends(self) -> (Producer<u32>, Consumer<Reply>)
        ensures { (result.0 ≡ self.calls) × (result.1 ≡ self.replies) }
    {
        (self.calls, self.replies)
    }
}
