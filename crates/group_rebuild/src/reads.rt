//! The reading of the wanted segments, one after the other.
ghost use Rattle.std.specs.Prelude.{◌≡◌, ◌++◌, OnOk, All, IsTrue, Some, None};
ghost use Rattle.group_rebuild.specs.declared.output.Out.TheVariants.{Fetch};
ghost use Rattle.group_rebuild.specs.Reads.{ReadsState, counts, fetches, go_on, reads_judge, reads_take, on_tick, reads_of};
ghost use Rattle.group_rebuild.specs.Wanted.{IsWanted};
ghost use Rattle.stripe_code.specs.Round.{asks, told_fits, round_take, state_of};

use crate::output::Out;
use crate::wanted::{Wanted, refilled};
use std::alloc::Global;
use std::collections::VecDeque;
use std::marker::Model;
use stripe_code::{Round, RoundState, Told};
use xfs_base::{List, Mem, SegName};

/// The segment that is read at present.
pub(crate) struct Present {
    /// What is wanted of it.
    pub wanted: Wanted,
    /// The round over the other members.
    pub round: Round,
}

impl Drop for Present {
    fn drop(self) {
        let Present { wanted, round } = self;
        drop(wanted);
        drop(round);
    }
}

/// The segments that are still to be read, that which is read, and how many were.
#[derive(Drop)]
pub(crate) struct Reads {
    left: VecDeque<Wanted>,
    present: Option<Present>,
    ask: u32,
    filled: u32,
    gone: u32,
}

impl Model for Reads {
    ghost use Rattle.group_rebuild.specs.Reads.{ReadsState, AreReads};

    ghost Value = { ReadsState };

    ghost view = { λ r. record { left = r.left.items; present = r.present; ask = r.ask; filled = r.filled; gone = r.gone } };

    ghost invariant = { λ r. AreReads r.left.items r.present };
}

impl Reads {
    /// Before the first of these.
    pub fn of(wanted: VecDeque<Wanted>) -> Reads
        requires { All IsWanted wanted.items }
        ensures { result ≡ reads_of wanted.items }
    {
        Reads {
            left: wanted,
            present: None,
            ask: 0,
            filled: 0,
            gone: 0,
        }
    }

    /// Begins the round of the next segment, or says that it is over.
    pub fn go_on(&mut self, alloc: Global, outs: &mut List<Out>) -> Mem<()>
        ensures state { OnOk result (self.new ≡ (go_on self.old.left self.old).state) }
        ensures outs { OnOk result (outs.new ≡ outs.old ++ (go_on self.old.left self.old).outs) }
    {
        match self.left.pop_front() {
            None => {
                self.present = None;
                outs.push(Out::Finished(self.filled, self.gone))?;
            }
            Some(wanted) => {
                self.ask = self.ask.saturating_add(1);
                add_fetches(outs, wanted.others.as_slice(), wanted.meta.name, self.ask)?;
                let others = wanted.others.as_slice();
                let round = Round::start(alloc, wanted.n, wanted.parity, others)?;
                self.present = Some(Present { wanted, round });
            }
        }
        Ok(())
    }

    /// Takes what a server told. It is dropped unless it answers the present question, the server is asked, and
    /// a fragment can be one of the segment's, of the length that was listed.
    #[tactic(auto, unfolding(crate::specs::Reads::reads_take))]
    pub fn take(
        &mut self,
        alloc: Global,
        outs: &mut List<Out>,
        ask: u32,
        server: u8,
        told: Told,
    ) -> Mem<()>
        ensures state { OnOk result (self.new ≡ (reads_take self.old ask server told).state) }
        ensures outs { OnOk result (outs.new ≡ outs.old ++ (reads_take self.old ask server told).outs) }
    {
        match self.present.take() {
            None => Ok(()),
            Some(present) => {
                if ask != self.ask || !present.counts(server, &told) {
                    self.present = Some(present);
                    return Ok(());
                }
                self.judge(alloc, outs, present, server, told)
            }
        }
    }

    /// Asks again what is unanswered.
    pub fn tick(&self, alloc: Global, outs: &mut List<Out>) -> Mem<()>
        ensures { OnOk result (outs.new ≡ outs.old ++ on_tick self.now) }
    {
        match &self.present {
            None => Ok(()),
            Some(present) => {
                let servers = present.round.unanswered(alloc)?;
                add_fetches(outs, servers.as_slice(), present.wanted.meta.name, self.ask)
            }
        }
    }

    // What comes of an answer that counts.
    fn judge(
        &mut self,
        alloc: Global,
        outs: &mut List<Out>,
        present: Present,
        server: u8,
        told: Told,
    ) -> Mem<()>
        requires wanted { IsWanted present.wanted }
        requires asked { IsTrue (asks present.round server) }
        requires fits { IsTrue (told_fits present.round told) }
        ensures state { OnOk result
            (self.new ≡ (reads_judge self.old present.wanted (round_take present.round server told) (state_of (round_take present.round server told))).state) }
        ensures outs { OnOk result
            (outs.new ≡ outs.old ++ (reads_judge self.old present.wanted (round_take present.round server told) (state_of (round_take present.round server told))).outs) }
    {
        let mut present = present;
        match present.round.take(alloc, server, told)? {
            RoundState::Waiting => {
                self.present = Some(present);
                Ok(())
            }
            RoundState::Short(_) => {
                self.gone = self.gone.saturating_add(1);
                self.go_on(alloc, outs)
            }
            RoundState::Read(text) => {
                self.filled = self.filled.saturating_add(1);
                outs.push(Out::Fill(refilled(alloc, &present.wanted, text.as_slice())?))?;
                self.go_on(alloc, outs)
            }
        }
    }
}

impl Present {
    /// Whether an answer of this server to the present question counts.
    fn counts(&self, server: u8, told: &Told) -> bool
        ensures { result ≡ counts self.now server told.now }
    {
        if !self.round.asks(server) {
            return false;
        }
        match told {
            Told::Missing(_) => true,
            Told::Held(fragment) => {
                fragment.meta.name.is_same(self.wanted.meta.name)
                    && fragment.meta.len == self.wanted.meta.len
                    && self.round.fits(fragment)
            }
        }
    }
}

// Asks these servers for their fragments of a segment.
fn add_fetches(outs: &mut List<Out>, servers: &[u8], name: SegName, ask: u32) -> Mem<()>
    ensures { OnOk result (outs.new ≡ outs.old ++ fetches name ask servers.now) }
{
    for server in servers {
        outs.push(Out::Fetch(*server, name, ask))?;
    }
    Ok(())
}
