//! A client's ends of the rings that join it to its application.
ghost use Rattle.std.specs.Prelude.{◌≡◌, ◌<◌, ◌+◌, ◌↔◌, ◌∷◌, ◌++◌, [], length, MatchOption, IsTrue};
ghost use Rattle.rtrb.specs.Ring.{SameConsumer, SameProducer, known_free, known_items, producer_capacity, received, sent};

use crate::Reply;
use crate::bell::Bell;
use rtrb::{Consumer, Producer};
use std::alloc::Global;
use std::sync::Arc;

/// The end of a pair of rings by which a client is called, and replies.
#[derive(Drop)]
pub struct Port {
    /// Where it is called.
    pub(crate) calls: Consumer<u32>,
    /// Where it replies.
    pub(crate) replies: Producer<Reply>,
    given: u32,
    slots: u32,
    bell: Arc<Bell, Global>,
    ghost room: { known_free replies + length (sent replies) ≡ producer_capacity replies },
    ghost given_are: { given ≡ length (sent replies) },
    ghost slots_are: { slots ≡ producer_capacity replies },
}

impl Port {
    /// The end of rings through which nothing passed yet, with so many slots.
    pub(crate) fn start(
        calls: Consumer<u32>,
        replies: Producer<Reply>,
        slots: u32,
        bell: Arc<Bell, Global>,
    ) -> Port
        requires empty { sent replies ≡ [] }
        requires room { known_free replies ≡ producer_capacity replies }
        requires slots { producer_capacity replies ≡ slots }
        ensures { (result.calls ≡ calls) × (result.replies ≡ replies) }
    {
        Port {
            calls,
            replies,
            given: 0,
            slots,
            bell,
        }
    }

    /// Whether more items were called than so many.
    pub(crate) fn has_call(&self, heard: u64) -> bool {
        self.bell.calls() > heard
    }

    /// Takes the number of the oldest item that was called; none where its end knows of none. It takes no memory.
    pub fn next(&mut self) -> Option<u32>
        ensures ring { SameConsumer self.old.calls self.new.calls }
        ensures taken { MatchOption result ((received self.new.calls ≡ received self.old.calls) × (known_items self.new.calls ≡ []))
            (λ item. received self.new.calls ≡ received self.old.calls ++ item ∷ []) }
        ensures replies { self.new.replies ≡ self.old.replies }
    {
        match self.calls.pop() {
            Ok(item) => Some(item),
            Err(_) => None,
        }
    }

    /// Whether fewer replies were given than there are slots.
    pub fn has_room(&self) -> bool
        ensures { IsTrue result ↔ (length (sent self.now.replies) < producer_capacity self.now.replies) }
    {
        self.given < self.slots
    }

    /// Gives a reply. It can't be refused, since there is a slot for each, and takes no memory.
    pub fn answer(&mut self, reply: Reply)
        requires { length (sent self.old.replies) < producer_capacity self.old.replies }
        ensures ring { SameProducer self.old.replies self.new.replies }
        ensures sent { sent self.new.replies ≡ sent self.old.replies ++ reply ∷ [] }
        ensures calls { self.new.calls ≡ self.old.calls }
    {
        self.replies.push_reserved(reply);
        self.given += 1;
        self.bell.reply();
    }

    /// Its two ends. It takes no memory.
    pub(crate) fn into_ends(self) -> (Consumer<u32>, Producer<Reply>)
        ensures { (result.0 ≡ self.calls) × (result.1 ≡ self.replies) }
    {
        (self.calls, self.replies)
    }
}
