//! A client's cell with its port.
ghost use Rattle.std.specs.Prelude.{◌≡◌, ◌≤◌, ◌<◌, ◌+◌, ◌++◌, ◌∷◌, [], take, length, nat_lt, IfOk, OnOk, IsTrue, ◌↔◌};
ghost use Rattle.rtrb.specs.Ring.{SameProducer, received, sent};
ghost use Rattle.journals.specs.Journals.{begins, whats};
ghost use Rattle.world_base.specs.Cluster.{cluster_of};
ghost use Rattle.live_links.specs.Acts.{Acted, Chooses};
ghost use Rattle.live_links.specs.Facts.{IsDone, dues_at, first_at, name_at};
ghost use Rattle.mounts.specs.Ports.{IsFreshPort, IsPortAt, items_to};
ghost use Rattle.mounts.specs.Replies.{replied_at, replies_of};
ghost use Rattle.mounts.specs.Turns.{Hears};

use crate::{MountName, Port, Reply};
use live_links::Cell;
use live_run::{MORE, Visited};
use std::alloc::{AllocError, Global};
use version_model::Act;
use world_base::Member;
use xfs_base::{Mem, NodeId};

/// A client of the run R, with its journal, the ends of its rings, and its port. Its type says what is true of it at
/// all times: its port is the one that was made for its place, each item that it has begun was called, and what it
/// replied is what it answered in its journal, in that order, each once.
#[derive(Drop)]
pub struct MountedCell<N: Member, R: MountName> {
    /// The client, its journal, and the ends of its rings.
    pub cell: Cell<N, R>,
    /// Where it is called, and replies.
    pub port: Port,
    called: u64,
    ghost named: { ∥ IsPortAt R.ports cell.journal.place port ∥₁ },
    ghost called_are: { called ≡ length (received port.calls) },
    ghost calls_are: { received port.calls ≡ items_to (length (received port.calls)) },
    ghost begun_are: { begins (whats cell.journal.moments) ≤ length (received port.calls) },
    ghost given_are: { sent port.replies ≡ replied_at N.transition N.first R.script cell.journal.place cell.journal.moments },
}

/// One more.
fn behind(called: u64) -> Mem<u64>
    ensures { IfOk result (λ next. next ≡ called + 1) }
{
    called.checked_add(1).ok_or(AllocError)
}

/// Whether an item has this number.
fn is_number(item: u32, number: u64) -> bool
    ensures { IsTrue result → item ≡ number }
{
    u64::from(item) == number
}

/// Gives the reply that an act is, if it is one. Where more are given than there are slots memory is wanting: a node
/// that answers each item once doesn't.
fn give_one(port: &mut Port, alloc: Global, act: &Act) -> Mem<()>
    ensures calls { port.new.calls ≡ port.old.calls }
    ensures ring { SameProducer port.old.replies port.new.replies }
    ensures given { OnOk result (sent port.new.replies ≡ sent port.old.replies ++ replies_of (act.now ∷ [])) }
{
    match act {
        Act::Answered {
            node: _,
            item,
            answer,
        } => {
            let answer = answer.copy(alloc)?;
            if !port.has_room() {
                return Err(AllocError);
            }
            port.answer(Reply {
                item: *item,
                answer,
            });
            Ok(())
        }
        _ => Ok(()),
    }
}

/// Gives the replies that some acts are, of which so many were given.
fn give_rest(port: &mut Port, alloc: Global, answered: &[Act], given: usize) -> Mem<()>
    requires within { given ≤ length answered.now }
    requires before { sent port.old.replies ≡ replies_of (take given answered.now) }
    ensures calls { port.new.calls ≡ port.old.calls }
    ensures ring { SameProducer port.old.replies port.new.replies }
    ensures given { OnOk result (sent port.new.replies ≡ replies_of answered.now) }
{
    for place in given..answered.len() {
        give_one(port, alloc, &answered[place])?;
    }
    Ok(())
}

impl<N: Member, R: MountName> MountedCell<N, R> {
    /// A client to which nothing happened yet, with its port.
    pub(crate) fn start(cell: Cell<N, R>, port: Port) -> MountedCell<N, R>
        requires empty { cell.journal.moments ≡ [] }
        requires fresh { IsFreshPort port }
        requires named { IsPortAt R.ports cell.journal.place port }
    {
        MountedCell {
            cell,
            port,
            called: 0,
        }
    }

    /// Whether each item was begun and is answered.
    pub fn done(&self) -> bool
        ensures { IsTrue result ↔ IsDone N.transition N.first R.script self.now.cell.journal.place self.now.cell.journal.moments }
    {
        self.cell.done()
    }

    /// Takes the next call, where each item that was called is begun. A call of another item than the next is answered
    /// like want of memory: no application makes one.
    fn hear(self) -> Mem<MountedCell<N, R>>
        ensures same { IfOk result (λ c. c.cell ≡ self.cell) }
        ensures heard { IfOk result (λ c. Hears (begins (whats self.cell.journal.moments)) self.port c.port) }
    {
        if self.cell.begun() != self.called {
            return Ok(self);
        }
        let mut port = self.port;
        match port.next() {
            None => {
                let silent = MountedCell {
                    cell: self.cell,
                    port,
                    called: self.called,
                };
                Ok(silent)
            }
            Some(item) => {
                let called = behind(self.called)?;
                if !is_number(item, called) {
                    return Err(AllocError);
                }
                let heard = MountedCell {
                    cell: self.cell,
                    port,
                    called,
                };
                Ok(heard)
            }
        }
    }

    /// Makes at most one turn, in which the next item is begun only where it was called, and gives the replies of it.
    fn go_on(self, alloc: Global, idle: bool) -> Mem<(MountedCell<N, R>, bool)>
        ensures place { IfOk result (λ r. r.0.cell.journal.place ≡ self.cell.journal.place) }
        ensures acted { IfOk result (λ r. Acted N.transition (first_at N.first R.script self.cell.journal.place) (cluster_of R.script.setup) self.cell.journal.place r.1
            (record { moments = self.cell.journal.moments; outs = self.cell.outs; ins = self.cell.ins })
            (record { moments = r.0.cell.journal.moments; outs = r.0.cell.outs; ins = r.0.cell.ins })) }
        ensures calls { IfOk result (λ r. r.0.port.calls ≡ self.port.calls) }
        ensures chosen { IfOk result (λ r. Chooses N.transition (first_at N.first R.script self.cell.journal.place) (cluster_of R.script.setup) self.cell.journal.place
            (name_at R.script self.cell.journal.place) (dues_at R.script self.cell.journal.place) idle
            (nat_lt (begins (whats self.cell.journal.moments)) (length (received r.0.port.calls))) r.1
            (record { moments = self.cell.journal.moments; outs = self.cell.outs; ins = self.cell.ins })
            (record { moments = r.0.cell.journal.moments; outs = r.0.cell.outs; ins = r.0.cell.ins })) }
    {
        let given = self.cell.answered().len();
        let begun = self.cell.begun();
        let may_begin = begun < self.called;
        let (cell, moved) = self.cell.act_when(alloc, idle, may_begin)?;
        let mut port = self.port;
        give_rest(&mut port, alloc, cell.answered(), given)?;
        let mounted = MountedCell {
            cell,
            port,
            called: self.called,
        };
        Ok((mounted, moved))
    }

    /// Makes at most one turn, and says whether it made one: lets time pass where the worker is idle, whatever waits;
    /// elsewhere begins the next item where it was called and is due, else takes a packet. What it answers in the turn it replies at its end.
    /// Where memory is wanting the node is given up with its run.
    pub fn act(self, alloc: Global, idle: bool) -> Mem<(MountedCell<N, R>, bool)>
        ensures place { IfOk result (λ r. r.0.cell.journal.place ≡ self.cell.journal.place) }
        ensures acted { IfOk result (λ r. Acted N.transition (first_at N.first R.script self.cell.journal.place) (cluster_of R.script.setup) self.cell.journal.place r.1
            (record { moments = self.cell.journal.moments; outs = self.cell.outs; ins = self.cell.ins })
            (record { moments = r.0.cell.journal.moments; outs = r.0.cell.outs; ins = r.0.cell.ins })) }
        ensures heard { IfOk result (λ r. Hears (begins (whats self.cell.journal.moments)) self.port r.0.port) }
        ensures chosen { IfOk result (λ r. Chooses N.transition (first_at N.first R.script self.cell.journal.place) (cluster_of R.script.setup) self.cell.journal.place
            (name_at R.script self.cell.journal.place) (dues_at R.script self.cell.journal.place) idle
            (nat_lt (begins (whats self.cell.journal.moments)) (length (received r.0.port.calls))) r.1
            (record { moments = self.cell.journal.moments; outs = self.cell.outs; ins = self.cell.ins })
            (record { moments = r.0.cell.journal.moments; outs = r.0.cell.outs; ins = r.0.cell.ins })) }
    {
        let heard = self.hear()?;
        let (mounted, moved) = heard.go_on(alloc, idle)?;
        Ok((mounted, moved))
    }

    /// The client's cell, and its port. It takes no memory.
    pub(crate) fn into_parts(self) -> (Cell<N, R>, Port)
        ensures { (result.0 ≡ self.cell) × (result.1 ≡ self.port) }
    {
        (self.cell, self.port)
    }
}

impl<N: Member, R: MountName> Visited for MountedCell<N, R> {
    fn node(&self) -> NodeId {
        self.cell.name()
    }

    fn have_turns(self, alloc: Global, idle: bool) -> Mem<(MountedCell<N, R>, bool)> {
        let (acted, moved) = self.act(alloc, idle)?;
        let mut client = acted;
        let mut moves = moved;
        for _ in 0..MORE {
            if !moves {
                break;
            }
            let (next, again) = client.act(alloc, false)?;
            client = next;
            moves = again;
        }
        Ok((client, moved))
    }

    fn is_over(&self) -> bool {
        self.cell.done()
    }

    fn answers(&self) -> usize {
        self.cell.answered().len()
    }

    fn is_still(&self) -> bool {
        let waits = self.cell.begun() < self.called;
        (waits || !self.port.has_call(self.called)) && self.cell.rests(waits)
    }

    fn is_awaiting(&self) -> bool {
        let answered = self.cell.answered().len() as u64;
        answered >= self.called && !self.port.has_call(self.called) && !self.cell.done()
    }
}
