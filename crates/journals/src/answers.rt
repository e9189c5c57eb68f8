//! Which items of a node have an answer.
ghost use Rattle.std.specs.Prelude.{◌≡◌, ◌+◌, ◌||◌, ◌==◌, ℕ, true, false, OnOk, MatchOption};
ghost use Rattle.journals.specs.Answers.{IsSettled, has_answer, is_among, is_answer_to, answers_advance};

use std::alloc::Global;
use version_model::Act;
use xfs_base::{List, Mem, NodeId};

/// The items of a node that are known to have an answer: all up to a number, and some more.
pub struct Answers {
    /// All items up to this number have one.
    pub all: u32,
    /// And so have these.
    pub more: List<u32>,
}

impl Drop for Answers {
    fn drop(self) {
        let Answers { all: _, more } = self;
        drop(more);
    }
}

/// The number of the item of a node that an act answers; none where it answers no item of that node.
fn number_of(act: &Act, node: NodeId) -> Option<u32>
    ensures { MatchOption result ((k : ℕ) → is_answer_to node k act.now ≡ false) (λ number. (k : ℕ) → is_answer_to node k act.now ≡ (number == k)) }
{
    match act {
        Act::Answered {
            node: by,
            item,
            answer: _,
        } => { if *by == node { Some(*item) } else { None } }
        _ => None,
    }
}

/// The number that is this one, where it is among these.
fn find(numbers: &[u32], wanted: u64) -> Option<u32>
    ensures { MatchOption result (is_among wanted numbers.now ≡ false) (λ number. (number ≡ wanted) × (is_among wanted numbers.now ≡ true)) }
{
    for number in numbers {
        if u64::from(*number) == wanted {
            return Some(*number);
        }
    }
    None
}

impl Answers {
    /// No item has an answer. It takes no memory.
    pub fn none(alloc: Global) -> Answers
        ensures { (k : ℕ) → answers_advance result k ≡ false }
    {
        Answers {
            all: 0,
            more: List::new(alloc),
        }
    }

    /// The item of this number has an answer.
    #[tactic(auto, using(crate::proofs::Known::next_noted, crate::proofs::Known::more_noted))]
    fn note(&mut self, number: u32) -> Mem<()>
        ensures { OnOk result ((k : ℕ) → answers_advance self.new k ≡ (answers_advance self.old k || (number == k))) }
    {
        if number > 0 && number - 1 == self.all {
            self.all = number;
            return Ok(());
        }
        self.more.push(number)
    }

    /// What follows the last of those that all have an answer, where it has one too.
    fn next(&self) -> Option<u32>
        ensures { MatchOption result (IsSettled self.now) (λ next. (next ≡ self.now.all + 1) × (is_among next self.now.more ≡ true)) }
    {
        find(self.more.as_slice(), u64::from(self.all) + 1)
    }

    /// Goes on to the last item up to which all have an answer.
    fn advance(&mut self)
        ensures same { (k : ℕ) → answers_advance self.new k ≡ answers_advance self.old k }
        ensures settled { IsSettled self.new }
    {
        loop {
            match self.next() {
                None => return,
                Some(next) => self.all = next,
            }
        }
    }

    /// What an act answers has an answer, if it is of this node.
    fn note_one(&mut self, node: NodeId, act: &Act) -> Mem<()>
        ensures { OnOk result ((k : ℕ) → answers_advance self.new k ≡ (answers_advance self.old k || is_answer_to node k act.now)) }
    {
        match number_of(act, node) {
            None => Ok(()),
            Some(number) => {
                self.note(number)?;
                Ok(())
            }
        }
    }

    /// What these acts answer has an answer, as far as it is of this node.
    fn note_each(&mut self, node: NodeId, acts: &[Act]) -> Mem<()>
        ensures { OnOk result ((k : ℕ) → answers_advance self.new k ≡ (answers_advance self.old k || has_answer node k acts.now)) }
    {
        for act in acts {
            self.note_one(node, act)?;
        }
        Ok(())
    }

    /// What these acts answer has an answer, as far as it is of this node: known is then just what was known
    /// before or is answered by one of them.
    pub fn note_all(&mut self, node: NodeId, acts: &[Act]) -> Mem<()>
        ensures noted { OnOk result ((k : ℕ) → answers_advance self.new k ≡ (answers_advance self.old k || has_answer node k acts.now)) }
        ensures settled { OnOk result (IsSettled self.new) }
    {
        self.note_each(node, acts)?;
        self.advance();
        Ok(())
    }
}
