//! What of a manager outlives a crash.
ghost use Rattle.std.specs.Prelude.{◌≡◌, ◌++◌, OnOk};
ghost use Rattle.segment_format.specs.Format.{IsLog};
ghost use Rattle.node_base.specs.Beginning.{answers_unanswered};
ghost use Rattle.manager_slots.specs.Lasting.{log_of, lasting_has_room, lasting_answer};

use node_base::{Effects, Items, Questions, has_room};
use version_model::Answer;
use xfs_base::{LogId, Mem, NodeId};

/// What of a manager outlives a crash.
pub struct Lasting {
    /// The number of the manager.
    pub number: u8,
    /// How often it was started: its incarnation.
    pub inc: u32,
    /// The numbers of its questions.
    pub questions: Questions,
    /// What it is to do.
    pub items: Items,
}

impl Drop for Lasting {
    fn drop(self) {
        let Lasting {
            number: _,
            inc: _,
            questions: _,
            items,
        } = self;
        drop(items);
    }
}

impl Lasting {
    /// The log that the manager writes.
    pub fn log(&self) -> LogId
        ensures log { result ≡ log_of self.now.number }
        ensures is_log { IsLog result.0 }
    {
        NodeId::Manager(self.number).log()
    }

    /// Whether each counter is at least 65,536 below its end.
    pub fn has_room(&self) -> bool
        ensures { result ≡ lasting_has_room self.now }
    {
        has_room(self.inc) && has_room(self.questions.last)
    }

    /// Answers the item that is open.
    pub fn answer(&mut self, effects: &mut Effects, answer: Answer) -> Mem<()>
        ensures state { self.new ≡ lasting_answer self.old }
        ensures effects { OnOk result (effects.new ≡ effects.old ++ answers_unanswered self.old.items.unanswered answer) }
    {
        self.items.answer(effects, answer)
    }
}
