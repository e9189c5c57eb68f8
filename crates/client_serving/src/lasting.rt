//! What of a client outlives a crash.
ghost use Rattle.std.specs.Prelude.{◌≡◌, ◌++◌, OnOk};
ghost use Rattle.client_serving.specs.Lasting.{lasting_start, live_on};
ghost use Rattle.node_base.specs.Beginning.{items_answer, answers_unanswered};

use node_base::{Effects, Items, Questions};
use version_model::{Answer, Work};
use xfs_base::{List, LogId, Mem};

/// What of a client outlives a crash.
pub struct Lasting {
    /// The number of the client.
    pub number: u8,
    /// How often it was started: its incarnation.
    pub inc: u32,
    /// The numbers of its questions.
    pub questions: Questions,
    /// What it is to do.
    pub items: Items,
}

impl Drop for Lasting {
    fn drop(self) {
        let Lasting {
            number: _,
            inc: _,
            questions: _,
            items,
        } = self;
        drop(items);
    }
}

impl Lasting {
    /// That of a client at the start.
    pub fn start(number: u8, items: List<Work>) -> Lasting
        ensures { result ≡ lasting_start number items }
    {
        Lasting {
            number,
            inc: 1,
            questions: Questions::new(),
            items: Items::start(items),
        }
    }

    /// The log that the client writes.
    pub fn log(&self) -> LogId
        ensures { result ≡ record { 0 = self.now.number } }
    {
        LogId(self.number)
    }

    /// The next incarnation begins, whose restart, the item of this number, is not answered yet.
    pub fn live_on(&mut self, number: u32)
        ensures { self.new ≡ live_on self.old number }
    {
        if self.inc < u32::MAX {
            self.inc += 1;
        }
        self.items.wait(number);
    }

    /// Answers the item that is open.
    pub fn answer(&mut self, effects: &mut Effects, answer: Answer) -> Mem<()>
        ensures state { OnOk result (self.new ≡ record self.old { items = items_answer self.old.items }) }
        ensures effects { OnOk result (effects.new ≡ effects.old ++ answers_unanswered self.old.items.unanswered answer) }
    {
        self.items.answer(effects, answer)
    }
}
