//! What is left of a journal.
ghost use Rattle.std.specs.Prelude.{◌≡◌, [], ◌∷◌, length, MatchOption};
ghost use Rattle.journals.specs.Merging.{head_clock};

use crate::Moment;
use std::collections::VecDeque;
use std::marker::Model;
use xfs_base::List;

/// What is left of a journal. Contracts see it as the list of its moments.
pub struct Rest {
    moments: VecDeque<Moment>,
}

impl Drop for Rest {
    fn drop(self) {
        let Rest { moments } = self;
        drop(moments);
    }
}

impl Model for Rest {
    ghost use Rattle.std.specs.Prelude.{List as Seq};
    ghost use Rattle.journals.specs.declared.moment.Moment.{Moment as One};

    ghost Value = { Seq One };

    ghost view = { λ r. r.moments.items };
}

impl Rest {
    /// A whole journal. It takes no memory.
    pub fn of(moments: List<Moment>) -> Rest
        ensures { result ≡ moments }
    {
        Rest {
            moments: VecDeque::from(moments.into_vec()),
        }
    }

    /// How many moments are left.
    pub fn len(&self) -> usize
        ensures { result ≡ length self.now }
    {
        self.moments.len()
    }

    /// The clock of the first of them; none where none is left.
    pub fn clock(&self) -> Option<u64>
        ensures { result ≡ head_clock self.now }
    {
        match self.moments.front() {
            None => None,
            Some(moment) => Some(moment.clock),
        }
    }

    /// Takes the first of them; none where none is left.
    pub fn pop(&mut self) -> Option<Moment>
        ensures { MatchOption result ((self.old ≡ []) × (self.new ≡ [])) (λ moment. self.old ≡ moment ∷ self.new) }
    {
        self.moments.pop_front()
    }
}
