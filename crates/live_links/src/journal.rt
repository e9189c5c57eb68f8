//! A node with what happened to it.
ghost use Rattle.std.specs.Prelude.{◌≡◌, ◌==◌, ◌+◌, ◌<◌, ◌&&◌, ◌||◌, nat_le, cond, [], ◌∷◌, IfOk, IsTrue, ◌↔◌};
ghost use Rattle.node_base.specs.Setups.{IsSetup};
ghost use Rattle.wire_msg.specs.declared.packet.Do.TheVariants.{Begin};
ghost use Rattle.world_base.specs.Cluster.{HasNode, cluster_of, node_count};
ghost use Rattle.world_base.specs.NextWorld.{first_node};
ghost use Rattle.journals.specs.Journals.{MayBegin, begins, replayed, whats};
ghost use Rattle.live_links.specs.Acts.{ticks, turned};
ghost use Rattle.live_links.specs.Answered.{answered_at, waited_at};
ghost use Rattle.live_links.specs.Facts.{IsDone, IsJournal, dues_at, first_at, name_at};

use crate::answered::keep_answers;
use crate::letter::{letters_of, shared_all};
use crate::{Letter, RunName};
use journals::{Answers, Moment};
use script_text::Script;
use std::alloc::{AllocError, Global};
use std::marker::PhantomData;
use version_model::Act;
use wire_msg::{Do, Packet};
use world_base::turn::clock_after;
use world_base::{Cluster, Due, Member, dues_of, items_of};
use xfs_base::{List, Mem, NodeId};

/// A node, and what happened to it since the start of the run R.
#[derive(Drop)]
pub struct Journal<N: Member, R: RunName> {
    /// The node's place.
    pub(crate) place: usize,
    name: NodeId,
    node: Box<N>,
    clock: u64,
    pub(crate) moments: List<Moment>,
    begun: u64,
    answers: Answers,
    sent: u64,
    dues: List<Due>,
    answered: List<Act>,
    waited: u64,
    of: PhantomData<R>,
    ghost name_is: { name ≡ name_at R.script place },
    ghost dues_are: { dues ≡ dues_at R.script place },
    ghost is_journal: { IsJournal N.transition (name_at R.script place) (first_at N.first R.script place) dues moments node.value clock begun answers sent },
    ghost answered_are: { answered ≡ answered_at N.transition N.first R.script place moments },
    ghost waited_is: { waited ≡ waited_at N.transition N.first R.script place moments },
}

/// How many items begin.
fn begins_of(what: &Do) -> u64
    ensures { result ≡ begins (what.now ∷ []) }
{
    match what {
        Do::Begin => 1,
        Do::Deliver(_) => 0,
        Do::Tick => 0,
    }
}

/// How often time passes.
fn ticks_of(what: &Do) -> u64
    ensures { result ≡ ticks (what.now ∷ []) }
{
    match what {
        Do::Begin => 0,
        Do::Deliver(_) => 0,
        Do::Tick => 1,
    }
}

/// A sum, where it has its place.
fn sum(a: u64, b: u64) -> Mem<u64>
    ensures { IfOk result (λ s. s ≡ a + b) }
{
    a.checked_add(b).ok_or(AllocError)
}

/// Whether an item is due at a node with so many events, that has begun so many items, of which so many have an
/// answer.
fn is_met(due: &Due, events: usize, begun: u64, answered: u32) -> bool
    ensures { result ≡ (nat_le due.now.after events && (due.now.free || nat_le begun answered)) }
{
    due.after as usize <= events && (due.free || begun <= u64::from(answered))
}

/// How often time passed since the last answer, after one event more, in which there was an answer or none.
fn wait_on(waited: u64, answers: bool, what: &Do) -> Mem<u64>
    ensures { IfOk result (λ w. w ≡ cond answers 0 (waited + ticks (what.now ∷ []))) }
{
    if answers {
        return Ok(0);
    }
    let more = sum(waited, ticks_of(what))?;
    Ok(more)
}

/// Whether of so many items so many were begun as there are, and as many have an answer.
fn are_answered(count: usize, begun: u64, answered: u32) -> bool
    ensures { result ≡ ((begun == count) && nat_le begun answered) }
{
    begun == count as u64 && begun <= u64::from(answered)
}

/// A node before its first event, with its items. It stands in a box, so that a turn moves a pointer.
fn first_node<N: Member>(alloc: Global, script: &Script, node: NodeId) -> Mem<Box<N>>
    requires setup { IsSetup script.now.setup }
    requires node { HasNode script.now.setup node }
    ensures { IfOk result (λ started. started.value ≡ first_node N.first script.now node) }
{
    let items = items_of(alloc, script.lines.as_slice(), node)?;
    let first: N = N::start(alloc, node, &script.setup, items)?;
    let first = Box::new(alloc, first)?;
    Ok(first)
}

/// The node's step.
fn step_of<N: Member>(alloc: Global, node: &mut N, what: &Do) -> Mem<(List<Packet>, List<Act>)>
    ensures { IfOk result (λ told. record { node = node.new; packets = told.0; acts = told.1 } ≡ N.transition node.old what.now) }
{
    node.step(alloc, what)
}

impl<N: Member, R: RunName> Journal<N, R> {
    /// The node at a place of a script, to which nothing happened yet.
    pub fn start(alloc: Global, script: &Script, place: usize) -> Mem<Journal<N, R>>
        requires script { script.now ≡ R.script }
        requires setup { IsSetup script.now.setup }
        requires within { place < node_count (cluster_of script.now.setup) }
        ensures place { IfOk result (λ j. j.place ≡ place) }
        ensures empty { IfOk result (λ j. j.moments ≡ []) }
    {
        let name = Cluster::of(&script.setup).node_at(place);
        let node = first_node(alloc, script, name)?;
        let dues = dues_of(alloc, script.lines.as_slice(), name)?;
        Ok(Journal {
            place,
            name,
            node,
            clock: 0,
            moments: List::new(alloc),
            begun: 0,
            answers: Answers::none(alloc),
            sent: 0,
            dues,
            answered: List::new(alloc),
            waited: 0,
            of: PhantomData,
        })
    }

    /// The node's name.
    pub fn name(&self) -> NodeId
        ensures { result ≡ name_at R.script self.now.place }
    {
        self.name
    }

    /// Whether there is a next item, and it is due: the node had so many events before, and, if it is no crash
    /// and no loss of a disk, all items before it are answered.
    pub fn due(&self) -> bool
        ensures { IsTrue result ↔ MayBegin N.transition (name_at R.script self.now.place) (first_at N.first R.script self.now.place) (dues_at R.script self.now.place) (whats self.now.moments) }
    {
        match self.dues.get(self.begun as usize) {
            None => false,
            Some(due) => is_met(due, self.moments.len(), self.begun, self.answers.all),
        }
    }

    /// Whether each item was begun and is answered.
    pub fn done(&self) -> bool
        ensures { IsTrue result ↔ IsDone N.transition N.first R.script self.now.place self.now.moments }
    {
        are_answered(self.dues.len(), self.begun, self.answers.all)
    }

    /// How many items were begun.
    pub fn begun(&self) -> u64
        ensures { result ≡ begins (whats self.now.moments) }
    {
        self.begun
    }

    /// How often time passed behind the node's last answer to an item of its own, or since the start where there is none.
    pub fn waited(&self) -> u64
        ensures { result ≡ waited_at N.transition N.first R.script self.now.place self.now.moments }
    {
        self.waited
    }

    /// What the node answered to its own items, in the order of its journal. It takes no memory.
    pub fn answered(&self) -> &[Act]
        ensures { result.now ≡ answered_at N.transition N.first R.script self.now.place self.now.moments }
    {
        self.answered.as_slice()
    }

    /// What happened to the node, and the node after it. It takes no memory.
    pub fn into_told(self) -> (List<Moment>, N)
        ensures moments { result.0 ≡ self.moments }
        ensures node { result.1 ≡ replayed N.transition (first_at N.first R.script self.place) (whats self.moments) }
    {
        (self.moments, Box::into_inner(self.node))
    }

    /// The node's step. Where its clock would pass the end of all clocks nothing happens. The letters are the
    /// packets that the step sends. Where memory is wanting the node is given up with its run.
    pub fn turn(
        self,
        alloc: Global,
        what: Do,
        from: usize,
        number: u64,
    ) -> Mem<(Journal<N, R>, List<Letter>)>
        requires { what ≡ Begin → MayBegin N.transition (name_at R.script self.place) (first_at N.first R.script self.place) (dues_at R.script self.place) (whats self.moments) }
        ensures place { IfOk result (λ r. r.0.place ≡ self.place) }
        ensures exact { IfOk result (λ r. record { moments = r.0.moments; letters = r.1 } ≡ turned N.transition (first_at N.first R.script self.place) self.place what from number self.moments) }
    {
        let clock = match clock_after(self.clock, &what) {
            None => return Ok((self, List::new(alloc))),
            Some(clock) => clock,
        };
        let mut node = self.node;
        let (packets, acts) = step_of(alloc, &mut *node, &what)?;
        let mut answers = self.answers;
        answers.note_all(self.name, acts.as_slice())?;
        let mut answered = self.answered;
        let before = answered.len();
        keep_answers(&mut answered, alloc, self.name, acts.as_slice())?;
        let waited = wait_on(self.waited, before < answered.len(), &what)?;
        let begun = sum(self.begun, begins_of(&what))?;
        let sent = sum(self.sent, packets.len() as u64)?;
        let shared = shared_all(alloc, clock, packets)?;
        let letters = letters_of(alloc, self.place, self.sent, shared.as_slice())?;
        let mut moments = self.moments;
        moments.push(Moment {
            clock,
            what,
            from,
            number,
            packets: shared,
            acts,
        })?;
        let journal = Journal {
            place: self.place,
            name: self.name,
            node,
            clock,
            moments,
            begun,
            answers,
            sent,
            dues: self.dues,
            answered,
            waited,
            of: PhantomData,
        };
        Ok((journal, letters))
    }
}
