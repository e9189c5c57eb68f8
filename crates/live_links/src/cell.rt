//! A node with its journal and the ends of its rings.
ghost use Rattle.std.specs.Prelude.{◌≡◌, ℕ, ◌<◌, ◌≤◌, ◌+◌, [], cond, true, IfOk, MatchOption, IsTrue, ◌↔◌};
ghost use Rattle.node_base.specs.Setups.{IsSetup};
ghost use Rattle.wire_msg.specs.declared.packet.Do.TheVariants.{Begin, Deliver};
ghost use Rattle.wire_msg.specs.declared.packet.Packet.{Packet as Sent};
ghost use Rattle.world_base.specs.Cluster.{cluster_of, node_count};
ghost use Rattle.journals.specs.Journals.{MayBegin, begins, replayed, whats};
ghost use Rattle.live_links.specs.Acts.{Acted, Acts, Chooses, Turns, Visits, ticks};
ghost use Rattle.live_links.specs.Answered.{AnswersMore, answered_at, waited_at};
ghost use Rattle.live_links.specs.Ends.{AreStill, IsInsOf, IsOutsOf, IsUnused, Received, TookOne};
ghost use Rattle.live_links.specs.Facts.{IsDone, IsLinked, dues_at, first_at, name_at};

use crate::{Ins, Journal, Letter, Outs, RunName};
use journals::Moment;
use script_text::Script;
use std::alloc::Global;
use version_model::Act;
use wire_msg::Do;
use world_base::{Cluster, Member};
use xfs_base::{List, Mem, NodeId};

/// A node of the run R with its journal and the ends of its rings. Its type says what is true of it at all
/// times: what it pushed it sent, and what it took was on its rings.
#[derive(Drop)]
pub struct Cell<N: Member, R: RunName> {
    cluster: Cluster,
    /// The node and its journal.
    pub journal: Journal<N, R>,
    /// Where it sends.
    pub outs: Outs,
    /// Where it receives.
    pub ins: Ins,
    ghost cluster_is: { cluster ≡ cluster_of R.script.setup },
    ghost linked: { ∥ IsLinked N.transition (first_at N.first R.script journal.place) (cluster_of R.script.setup) R.outs journal.place journal.moments outs ins ∥₁ },
}

impl<N: Member, R: RunName> Cell<N, R> {
    /// The node at a place of a script, to which nothing happened yet.
    pub fn start(
        alloc: Global,
        script: &Script,
        place: usize,
        outs: Outs,
        ins: Ins,
    ) -> Mem<Cell<N, R>>
        requires script { script.now ≡ R.script }
        requires setup { IsSetup script.now.setup }
        requires within { place < node_count (cluster_of script.now.setup) }
        requires outs { IsOutsOf R.outs place outs }
        requires ins { IsInsOf R.outs place ins }
        requires unused { IsUnused outs }
        ensures place { IfOk result (λ c. c.journal.place ≡ place) }
        ensures empty { IfOk result (λ c. c.journal.moments ≡ []) }
        ensures outs { IfOk result (λ c. c.outs ≡ outs) }
        ensures ins { IfOk result (λ c. c.ins ≡ ins) }
    {
        let journal = Journal::start(alloc, script, place)?;
        Ok(Cell {
            cluster: Cluster::of(&script.setup),
            journal,
            outs,
            ins,
        })
    }

    /// The node's place.
    pub fn place(&self) -> usize
        ensures { result ≡ self.now.journal.place }
    {
        self.journal.place
    }

    /// The node's name.
    pub fn name(&self) -> NodeId
        ensures { result ≡ name_at R.script self.now.journal.place }
    {
        self.journal.name()
    }

    /// Whether each item was begun and is answered.
    pub fn done(&self) -> bool
        ensures { IsTrue result ↔ IsDone N.transition N.first R.script self.now.journal.place self.now.journal.moments }
    {
        self.journal.done()
    }

    /// Whether no mail came, as far as it is known, and no item is due or none may begin: no act would make a turn but by
    /// time.
    pub fn rests(&self, may_begin: bool) -> bool {
        self.ins.is_quiet() && !self.is_to_begin(may_begin)
    }

    /// How many items were begun.
    pub fn begun(&self) -> u64
        ensures { result ≡ begins (whats self.now.journal.moments) }
    {
        self.journal.begun()
    }

    /// How often time passed behind the node's last answer to an item of its own, or since the start where there is none.
    pub fn waited(&self) -> u64
        ensures { result ≡ waited_at N.transition N.first R.script self.now.journal.place self.now.journal.moments }
    {
        self.journal.waited()
    }

    /// What the node answered to its own items, in the order of its journal. It takes no memory.
    pub fn answered(&self) -> &[Act]
        ensures { result.now ≡ answered_at N.transition N.first R.script self.now.journal.place self.now.journal.moments }
    {
        self.journal.answered()
    }

    /// What happened to the node, the node after it, and its ends.
    pub fn into_parts(self) -> (List<Moment>, N, Outs, Ins)
        ensures moments { result.0 ≡ self.journal.moments }
        ensures node { result.1 ≡ replayed N.transition (first_at N.first R.script self.journal.place) (whats self.journal.moments) }
        ensures outs { result.2 ≡ self.outs }
        ensures ins { result.3 ≡ self.ins }
    {
        let (moments, node) = self.journal.into_told();
        (moments, node, self.outs, self.ins)
    }

    /// One turn: this happens to the node, and what it sends goes on the rings.
    fn turn(self, alloc: Global, what: Do, from: usize, number: u64) -> Mem<Cell<N, R>>
        requires due { what ≡ Begin → MayBegin N.transition (name_at R.script self.journal.place) (first_at N.first R.script self.journal.place) (dues_at R.script self.journal.place) (whats self.journal.moments) }
        requires received { (x : Sent) → what ≡ Deliver x → Received self.ins (record { from = from; number = number; packet = x }) }
        ensures place { IfOk result (λ c. c.journal.place ≡ self.journal.place) }
        ensures same { IfOk result (λ c. c.ins ≡ self.ins) }
        ensures turns { IfOk result (λ c. Turns N.transition (first_at N.first R.script self.journal.place) (cluster_of R.script.setup) self.journal.place what from number
            (record { moments = self.journal.moments; outs = self.outs; ins = self.ins }) (record { moments = c.journal.moments; outs = c.outs; ins = c.ins })) }
    {
        let (journal, letters) = self.journal.turn(alloc, what, from, number)?;
        let mut outs = self.outs;
        outs.push_all(self.cluster, letters);
        Ok(Cell {
            cluster: self.cluster,
            journal,
            outs,
            ins: self.ins,
        })
    }

    /// Takes a packet from a ring.
    fn receive(&mut self) -> Option<Letter>
        ensures place { self.new.journal.place ≡ self.old.journal.place }
        ensures moments { self.new.journal.moments ≡ self.old.journal.moments }
        ensures outs { self.new.outs ≡ self.old.outs }
        ensures taken { MatchOption result (AreStill self.old.ins self.new.ins) (λ letter. TookOne self.old.ins letter self.new.ins) }
    {
        self.ins.pop()
    }

    /// The turn of a letter that was received.
    fn take(self, alloc: Global, letter: Letter) -> Mem<Cell<N, R>>
        requires { Received self.ins letter }
        ensures place { IfOk result (λ c. c.journal.place ≡ self.journal.place) }
        ensures same { IfOk result (λ c. c.ins ≡ self.ins) }
        ensures turns { IfOk result (λ c. Turns N.transition (first_at N.first R.script self.journal.place) (cluster_of R.script.setup) self.journal.place (Deliver letter.packet) letter.from letter.number
            (record { moments = self.journal.moments; outs = self.outs; ins = self.ins }) (record { moments = c.journal.moments; outs = c.outs; ins = c.ins })) }
    {
        let from = letter.from;
        let number = letter.number;
        self.turn(alloc, Do::Deliver(letter.packet), from, number)
    }

    /// Whether the node is to begin its next item now: it may, and the item is due.
    fn is_to_begin(&self, may_begin: bool) -> bool
        ensures may { IsTrue result → may_begin ≡ true }
        ensures due { IsTrue result → MayBegin N.transition (name_at R.script self.now.journal.place) (first_at N.first R.script self.now.journal.place)
            (dues_at R.script self.now.journal.place) (whats self.now.journal.moments) }
        ensures wherever { may_begin ≡ true → MayBegin N.transition (name_at R.script self.now.journal.place) (first_at N.first R.script self.now.journal.place)
            (dues_at R.script self.now.journal.place) (whats self.now.journal.moments) → IsTrue result }
    {
        may_begin && self.journal.due()
    }

    /// Makes at most one turn: lets time pass where the worker is idle, whatever waits; elsewhere begins the next item
    /// where it is due, else takes a packet. It says whether it made one. What it took from a ring is delivered in this turn,
    /// and what the node sends in it is pushed. Where memory is wanting the node is given up with its run.
    pub fn act(self, alloc: Global, idle: bool) -> Mem<(Cell<N, R>, bool)>
        ensures place { IfOk result (λ r. r.0.journal.place ≡ self.journal.place) }
        ensures acted { IfOk result (λ r. Acted N.transition (first_at N.first R.script self.journal.place) (cluster_of R.script.setup) self.journal.place r.1
            (record { moments = self.journal.moments; outs = self.outs; ins = self.ins }) (record { moments = r.0.journal.moments; outs = r.0.outs; ins = r.0.ins })) }
        ensures chosen { IfOk result (λ r. Chooses N.transition (first_at N.first R.script self.journal.place) (cluster_of R.script.setup) self.journal.place
            (name_at R.script self.journal.place) (dues_at R.script self.journal.place) idle true r.1
            (record { moments = self.journal.moments; outs = self.outs; ins = self.ins }) (record { moments = r.0.journal.moments; outs = r.0.outs; ins = r.0.ins })) }
    {
        self.act_when(alloc, idle, true)
    }

    /// As `act`, but the next item is begun only where the caller says that it may. What was answered stays
    /// answered.
    pub fn act_when(self, alloc: Global, idle: bool, may_begin: bool) -> Mem<(Cell<N, R>, bool)>
        ensures place { IfOk result (λ r. r.0.journal.place ≡ self.journal.place) }
        ensures acted { IfOk result (λ r. Acted N.transition (first_at N.first R.script self.journal.place) (cluster_of R.script.setup) self.journal.place r.1
            (record { moments = self.journal.moments; outs = self.outs; ins = self.ins }) (record { moments = r.0.journal.moments; outs = r.0.outs; ins = r.0.ins })) }
        ensures chosen { IfOk result (λ r. Chooses N.transition (first_at N.first R.script self.journal.place) (cluster_of R.script.setup) self.journal.place
            (name_at R.script self.journal.place) (dues_at R.script self.journal.place) idle may_begin r.1
            (record { moments = self.journal.moments; outs = self.outs; ins = self.ins }) (record { moments = r.0.journal.moments; outs = r.0.outs; ins = r.0.ins })) }
        ensures begun { IfOk result (λ r. begins (whats r.0.journal.moments) ≤ begins (whats self.journal.moments) + cond may_begin 1 0) }
        ensures answered { IfOk result (λ r. AnswersMore N.transition N.first R.script self.journal.place self.journal.moments r.0.journal.moments) }
    {
        if idle {
            let ticked = self.turn(alloc, Do::Tick, 0, 0)?;
            return Ok((ticked, true));
        }
        if self.is_to_begin(may_begin) {
            let begun = self.turn(alloc, Do::Begin, 0, 0)?;
            return Ok((begun, true));
        }
        let mut cell = self;
        match cell.receive() {
            Some(letter) => {
                let taken = cell.take(alloc, letter)?;
                Ok((taken, true))
            }
            None => Ok((cell, false)),
        }
    }

    /// Acts one after the other, as `act` says, until one makes no turn, and so many at most. No time passes.
    fn act_more(self, alloc: Global, more: u8) -> Mem<Cell<N, R>>
        ensures place { IfOk result (λ c. c.journal.place ≡ self.journal.place) }
        ensures acted { IfOk result (λ c. (count : ℕ) × (count ≤ more) × Acts N.transition (first_at N.first R.script self.journal.place) (cluster_of R.script.setup) self.journal.place count
            (record { moments = self.journal.moments; outs = self.outs; ins = self.ins }) (record { moments = c.journal.moments; outs = c.outs; ins = c.ins })) }
        ensures waits { IfOk result (λ c. ticks (whats c.journal.moments) ≡ ticks (whats self.journal.moments)) }
    {
        let mut cell = self;
        let mut moves = true;
        for _ in 0..more {
            if !moves {
                break;
            }
            let (next, again) = cell.act(alloc, false)?;
            cell = next;
            moves = again;
        }
        Ok(cell)
    }

    /// Acts one after the other, as `act` says, until one makes no turn, and so many at most after the first. Where
    /// the worker is idle time passes in the first, and it passes in no other. It says whether the first made a turn: where it
    /// made none the cell is as it was, and no item is due.
    pub fn act_on(self, alloc: Global, idle: bool, more: u8) -> Mem<(Cell<N, R>, bool)>
        ensures place { IfOk result (λ r. r.0.journal.place ≡ self.journal.place) }
        ensures acted { IfOk result (λ r. (count : ℕ) × (count ≤ more + 1) × Acts N.transition (first_at N.first R.script self.journal.place) (cluster_of R.script.setup) self.journal.place count
            (record { moments = self.journal.moments; outs = self.outs; ins = self.ins }) (record { moments = r.0.journal.moments; outs = r.0.outs; ins = r.0.ins })) }
        ensures visit { IfOk result (λ r. Visits N.transition (first_at N.first R.script self.journal.place) (cluster_of R.script.setup) self.journal.place
            (name_at R.script self.journal.place) (dues_at R.script self.journal.place) idle more r.1
            (record { moments = self.journal.moments; outs = self.outs; ins = self.ins }) (record { moments = r.0.journal.moments; outs = r.0.outs; ins = r.0.ins })) }
    {
        let (acted, moved) = self.act(alloc, idle)?;
        if !moved {
            return Ok((acted, false));
        }
        let cell = acted.act_more(alloc, more)?;
        Ok((cell, true))
    }
}
