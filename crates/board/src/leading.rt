//! What a board does to lead, and as a leader.
ghost use Rattle.std.specs.Prelude.{◌≡◌, ◌++◌, ◌<◌, ◌≤◌, ◌+◌, ◌∷◌, [], length, OnOk, IfOk, IsTrue, map, take, drop, slice_get};
ghost use Rattle.std.specs.List.{flat_map};
ghost use Rattle.xfs_base.specs.Limits.{u32_end};
ghost use Rattle.board.specs.declared.output.Out.TheVariants.{Apply as Applies};
ghost use Rattle.board.specs.Lengths.{length_of};
ghost use Rattle.board.specs.Transition.{boards, send, send_other, send_others, is_whole, extend, extend_by, extend_waiting, on_offer, send_lacking, send_again, tick, keep_going, on_leader_beat, would_lead, unheard, prepare, on_beat, may_lead, is_better, lead_with_own, lead, on_promised, board_settle, apply_done, on_accepted, has_all_room};

use crate::ballots::{next_ballot, owner_of};
use crate::board::Board;
use crate::command::Command;
use crate::lengths::Lengths;
use crate::output::Out;
use crate::packet::{BoardBody, BoardPacket};
use crate::waiting::{first_of, first_outside, rest_of, without};
use std::alloc::Global;
use wire_msg::Do;
use xfs_base::{List, Mem, copy_each};

// The numbers of all boards.
const BOARDS: [u8; 3] = [1, 2, 3];

// The Tick of the registry.
fn tick() -> Command
    ensures { result ≡ tick }
{
    Command {
        what: Do::Tick,
        item: 0,
    }
}

// Each of these commands is applied, in order.
fn apply_each(alloc: Global, outs: &mut List<Out>, commands: &[Command]) -> Mem<()>
    ensures { OnOk result (outs.new ≡ outs.old ++ map Applies commands.now) }
{
    for command in commands {
        outs.push(Out::Apply(command.copy(alloc)?))?;
    }
    Ok(())
}

impl Board {
    pub(crate) fn send(&self, outs: &mut List<Out>, to: u8, body: BoardBody) -> Mem<()>
        ensures { OnOk result (outs.new ≡ outs.old ++ send self.now to body ∷ []) }
    {
        let packet = BoardPacket {
            from: self.number,
            to,
            body,
        };
        outs.push(Out::Send(packet))
    }

    fn send_other(&self, alloc: Global, outs: &mut List<Out>, body: &BoardBody, to: u8) -> Mem<()>
        ensures { OnOk result (outs.new ≡ outs.old ++ send_other self.now body.now to) }
    {
        if to == self.number {
            return Ok(());
        }
        self.send(outs, to, body.copy(alloc)?)
    }

    fn send_each(
        &self,
        alloc: Global,
        outs: &mut List<Out>,
        boards: &[u8],
        body: &BoardBody,
    ) -> Mem<()>
        ensures { OnOk result (outs.new ≡ outs.old ++ flat_map (send_other self.now body.now) boards.now) }
    {
        for to in boards {
            self.send_other(alloc, outs, body, *to)?;
        }
        Ok(())
    }

    // A packet goes to the other boards, in order of their numbers.
    fn send_others(&self, alloc: Global, outs: &mut List<Out>, body: &BoardBody) -> Mem<()>
        ensures { OnOk result (outs.new ≡ outs.old ++ send_others self.now body.now) }
    {
        self.send_each(alloc, outs, &BOARDS, body)
    }

    fn is_whole(&self) -> bool
        ensures { result ≡ is_whole self.now }
    {
        self.leads && self.done as usize == self.list.len()
    }

    #[tactic(auto, unfolding(crate::specs::Transition::extend))]
    fn extend(&mut self, alloc: Global, outs: &mut List<Out>, command: Command) -> Mem<()>
        requires { length self.old.list < u32_end }
        ensures state { OnOk result (self.new ≡ (extend self.old command).state) }
        ensures outs { OnOk result (outs.new ≡ outs.old ++ (extend self.old command).outs) }
    {
        let count = self.list.len() as u32 + 1;
        let body = BoardBody::Append(self.ballot, count, command.copy(alloc)?);
        self.send_others(alloc, outs, &body)?;
        self.list.push(command)
    }

    fn extend_by(
        &mut self,
        alloc: Global,
        outs: &mut List<Out>,
        command: Option<Command>,
    ) -> Mem<()>
        requires { length self.old.list < u32_end }
        ensures state { OnOk result (self.new ≡ (extend_by self.old command).state) }
        ensures outs { OnOk result (outs.new ≡ outs.old ++ (extend_by self.old command).outs) }
    {
        match command {
            None => Ok(()),
            Some(command) => self.extend(alloc, outs, command),
        }
    }

    #[tactic(auto, unfolding(crate::specs::Transition::extend_waiting))]
    fn extend_waiting(&mut self, alloc: Global, outs: &mut List<Out>) -> Mem<()>
        requires { length self.old.list < u32_end }
        ensures state { OnOk result (self.new ≡ (extend_waiting self.old).state) }
        ensures outs { OnOk result (outs.new ≡ outs.old ++ (extend_waiting self.old).outs) }
    {
        if !self.is_whole() {
            return Ok(());
        }
        let next = first_outside(alloc, self.list.as_slice(), self.waiting.as_slice())?;
        self.extend_by(alloc, outs, next)
    }

    #[tactic(auto, unfolding(crate::specs::Transition::on_offer))]
    pub(crate) fn on_offer(
        &mut self,
        alloc: Global,
        outs: &mut List<Out>,
        command: Command,
    ) -> Mem<()>
        requires { length self.old.list < u32_end }
        ensures state { OnOk result (self.new ≡ (on_offer self.old command).state) }
        ensures outs { OnOk result (outs.new ≡ outs.old ++ (on_offer self.old command).outs) }
    {
        self.waiting.push(command)?;
        self.extend_waiting(alloc, outs)
    }

    fn send_lacking(
        &self,
        alloc: Global,
        outs: &mut List<Out>,
        to: u8,
        known: Option<u32>,
    ) -> Mem<()>
        requires { length self.now.list < u32_end }
        ensures { OnOk result (outs.new ≡ outs.old ++ send_lacking self.now to known) }
    {
        let Some(known) = known else {
            let list = copy_each(alloc, &self.list)?;
            return self.send(outs, to, BoardBody::Install(self.ballot, list));
        };
        match self.list.get(known as usize) {
            None => Ok(()),
            Some(command) => {
                let command = command.copy(alloc)?;
                self.send(outs, to, BoardBody::Append(self.ballot, known + 1, command))
            }
        }
    }

    fn send_again(&self, alloc: Global, outs: &mut List<Out>, to: u8) -> Mem<()>
        requires { length self.now.list < u32_end }
        ensures { OnOk result (outs.new ≡ outs.old ++ send_again self.now to) }
    {
        if to == self.number {
            return Ok(());
        }
        self.send_lacking(alloc, outs, to, self.known.of(to))
    }

    fn send_each_again(&self, alloc: Global, outs: &mut List<Out>, boards: &[u8]) -> Mem<()>
        requires { length self.now.list < u32_end }
        ensures { OnOk result (outs.new ≡ outs.old ++ flat_map (send_again self.now) boards.now) }
    {
        for to in boards {
            self.send_again(alloc, outs, *to)?;
        }
        Ok(())
    }

    #[tactic(auto, unfolding(crate::specs::Transition::keep_going))]
    fn keep_going(&mut self, alloc: Global, outs: &mut List<Out>) -> Mem<()>
        requires { length self.old.list < u32_end }
        ensures state { OnOk result (self.new ≡ (keep_going self.old).state) }
        ensures outs { OnOk result (outs.new ≡ outs.old ++ (keep_going self.old).outs) }
    {
        if !self.is_whole() {
            return Ok(());
        }
        match first_outside(alloc, self.list.as_slice(), self.waiting.as_slice())? {
            None => self.extend(alloc, outs, tick()),
            Some(command) => self.extend(alloc, outs, command),
        }
    }

    #[tactic(auto, unfolding(crate::specs::Transition::on_leader_beat))]
    fn on_leader_beat(&mut self, alloc: Global, outs: &mut List<Out>) -> Mem<()>
        requires { length self.old.list < u32_end }
        ensures state { OnOk result (self.new ≡ (on_leader_beat self.old).state) }
        ensures outs { OnOk result (outs.new ≡ outs.old ++ (on_leader_beat self.old).outs) }
    {
        self.send_each_again(alloc, outs, &BOARDS)?;
        self.keep_going(alloc, outs)
    }

    fn would_lead(&self, alloc: Global) -> Mem<bool>
        ensures { IfOk result (λ would. would ≡ would_lead self.now) }
    {
        let next = first_outside(alloc, self.list.as_slice(), self.waiting.as_slice())?;
        let lags = (self.applied as usize) < self.list.len() && !self.heard;
        Ok(next.is_some() || lags)
    }

    #[tactic(auto, unfolding(crate::specs::Transition::prepare))]
    fn prepare(&mut self, alloc: Global, outs: &mut List<Out>) -> Mem<()>
        requires { self.old.promised + 3 ≤ u32_end }
        ensures state { OnOk result (self.new ≡ (prepare self.old).state) }
        ensures outs { OnOk result (outs.new ≡ outs.old ++ (prepare self.old).outs) }
    {
        let ballot = next_ballot(self.number, self.promised);
        self.send_others(alloc, outs, &BoardBody::Prepare(ballot))?;
        self.promised = ballot;
        Ok(())
    }

    #[tactic(auto, unfolding(crate::specs::Transition::on_beat))]
    pub(crate) fn on_beat(&mut self, alloc: Global, outs: &mut List<Out>) -> Mem<()>
        requires { IsTrue (has_all_room self.old) }
        ensures state { OnOk result (self.new ≡ (on_beat self.old).state) }
        ensures outs { OnOk result (outs.new ≡ outs.old ++ (on_beat self.old).outs) }
    {
        if self.leads {
            self.heard = false;
            return self.on_leader_beat(alloc, outs);
        }
        let would_lead = self.would_lead(alloc)?;
        self.heard = false;
        if !would_lead {
            return Ok(());
        }
        self.prepare(alloc, outs)
    }

    fn may_lead(&self, ballot: u32) -> bool
        ensures { result ≡ may_lead self.now ballot }
    {
        !self.leads && (ballot == self.promised && owner_of(ballot) == u32::from(self.number))
    }

    fn is_better(&self, last: u32, list: &List<Command>) -> bool
        ensures { result ≡ is_better self.now last list.now }
    {
        self.ballot < last || (last == self.ballot && self.list.len() < list.len())
    }

    // It leads with the list that it has.
    fn lead_with_own(&mut self, alloc: Global, outs: &mut List<Out>, ballot: u32) -> Mem<()>
        ensures state { OnOk result (self.new ≡ (lead_with_own self.old ballot self.old.list).state) }
        ensures outs { OnOk result (outs.new ≡ outs.old ++ (lead_with_own self.old ballot self.old.list).outs) }
    {
        let body = BoardBody::Install(ballot, copy_each(alloc, &self.list)?);
        self.send_others(alloc, outs, &body)?;
        self.ballot = ballot;
        self.leads = true;
        self.known = Lengths::all(None);
        self.done = 0;
        Ok(())
    }

    #[tactic(auto, unfolding(crate::specs::Transition::lead))]
    fn lead(
        &mut self,
        alloc: Global,
        outs: &mut List<Out>,
        ballot: u32,
        last: u32,
        list: List<Command>,
    ) -> Mem<()>
        ensures state { OnOk result (self.new ≡ (lead self.old ballot last list).state) }
        ensures outs { OnOk result (outs.new ≡ outs.old ++ (lead self.old ballot last list).outs) }
    {
        if self.is_better(last, &list) {
            self.list = list;
        }
        self.lead_with_own(alloc, outs, ballot)
    }

    #[tactic(auto, unfolding(crate::specs::Transition::on_promised))]
    pub(crate) fn on_promised(
        &mut self,
        alloc: Global,
        outs: &mut List<Out>,
        ballot: u32,
        last: u32,
        list: List<Command>,
    ) -> Mem<()>
        ensures state { OnOk result (self.new ≡ (on_promised self.old ballot last list).state) }
        ensures outs { OnOk result (outs.new ≡ outs.old ++ (on_promised self.old ballot last list).outs) }
    {
        if !self.may_lead(ballot) {
            return Ok(());
        }
        self.lead(alloc, outs, ballot, last, list)
    }

    // What is done is applied, and leaves waiting.
    fn settle(&mut self, alloc: Global, outs: &mut List<Out>) -> Mem<()>
        requires { length self.old.list < u32_end }
        ensures state { OnOk result (self.new ≡ board_settle self.old) }
        ensures outs { OnOk result (outs.new ≡ outs.old ++ map Applies (drop self.old.applied (take self.old.done self.old.list))) }
    {
        let done = first_of(self.list.as_slice(), self.done);
        apply_each(alloc, outs, rest_of(done, self.applied))?;
        let waiting = without(alloc, done, self.waiting.as_slice())?;
        let applied = self.applied.max(done.len() as u32);
        self.waiting = waiting;
        self.applied = applied;
        Ok(())
    }

    #[tactic(auto, unfolding(crate::specs::Transition::apply_done))]
    fn apply_done(&mut self, alloc: Global, outs: &mut List<Out>) -> Mem<()>
        requires { length self.old.list < u32_end }
        ensures state { OnOk result (self.new ≡ (apply_done self.old).state) }
        ensures outs { OnOk result (outs.new ≡ outs.old ++ (apply_done self.old).outs) }
    {
        self.settle(alloc, outs)?;
        self.extend_waiting(alloc, outs)
    }

    #[tactic(auto, unfolding(crate::specs::Transition::on_accepted))]
    pub(crate) fn on_accepted(
        &mut self,
        alloc: Global,
        outs: &mut List<Out>,
        from: u8,
        ballot: u32,
        count: u32,
    ) -> Mem<()>
        requires { length self.old.list < u32_end }
        ensures state { OnOk result (self.new ≡ (on_accepted self.old from ballot count).state) }
        ensures outs { OnOk result (outs.new ≡ outs.old ++ (on_accepted self.old from ballot count).outs) }
    {
        if !self.leads || self.ballot != ballot {
            return Ok(());
        }
        self.known = self.known.noted(from, count);
        self.done = self.known.greatest();
        self.apply_done(alloc, outs)
    }
}
