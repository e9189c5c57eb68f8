//! The items of a node.
ghost use Rattle.std.specs.Prelude.{◌≡◌, ◌++◌, OnOk, MatchOption, None, Some};
ghost use Rattle.node_base.specs.Beginning.{items_start, next_item, items_begin, work_at, items_wait, items_answer, answers_unanswered};

use crate::Effects;
use version_model::{Answer, Work};
use xfs_base::{List, Mem};

/// What a node is to do, in order. It outlives a crash. Items are numbered from 1.
pub struct Items {
    works: List<Work>,
    begun: u32,
    unanswered: Option<u32>,
}

impl Drop for Items {
    fn drop(self) {
        let Items {
            works,
            begun: _,
            unanswered: _,
        } = self;
        drop(works);
    }
}

impl Items {
    /// Nothing is begun.
    pub fn start(works: List<Work>) -> Items
        ensures { result ≡ items_start works }
    {
        Items {
            works,
            begun: 0,
            unanswered: None,
        }
    }

    /// Begins the next item: its number. None where none is left.
    pub fn begin(&mut self) -> Option<u32>
        ensures number { result ≡ next_item self.old }
        ensures items { self.new ≡ items_begin self.old }
    {
        if (self.begun as usize) < self.works.len() && self.begun < u32::MAX {
            self.begun += 1;
            Some(self.begun)
        } else {
            None
        }
    }

    /// What the item of this number asks for.
    pub fn work(&self, number: u32) -> Option<&Work>
        ensures { MatchOption result (work_at self.now number ≡ None) (λ work. work_at self.now number ≡ Some work.now) }
    {
        match number.checked_sub(1) {
            Some(place) => self.works.get(place as usize),
            None => None,
        }
    }

    /// The number of the item that is begun and not answered; none where each is answered.
    pub fn open(&self) -> Option<u32>
        ensures { result ≡ self.now.unanswered }
    {
        self.unanswered
    }

    /// The item of this number is not answered at its begin.
    pub fn wait(&mut self, number: u32)
        ensures { self.new ≡ items_wait self.old number }
    {
        self.unanswered = Some(number);
    }

    /// Answers the open item.
    pub fn answer(&mut self, effects: &mut Effects, answer: Answer) -> Mem<()>
        ensures items { self.new ≡ items_answer self.old }
        ensures effects { OnOk result (effects.new ≡ effects.old ++ answers_unanswered self.old.unanswered answer) }
    {
        match self.unanswered.take() {
            Some(number) => effects.answer(number, answer),
            None => Ok(()),
        }
    }
}
