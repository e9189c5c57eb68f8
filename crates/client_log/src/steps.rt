//! What a log does on each input.
ghost use Rattle.std.specs.Prelude.{◌≡◌, ◌++◌, ◌∷◌, [], ◌<◌, OnOk, IfOk, IsTrue};
ghost use Rattle.xfs_base.specs.Limits.{u32_end};
ghost use Rattle.segment_format.specs.Format.{IsLog};
ghost use Rattle.segment_format.specs.Rows.{rows_of};
ghost use Rattle.log_flight.specs.Texts.{HasText};
ghost use Rattle.client_log.specs.declared.output.Out.TheVariants.{Settled};
ghost use Rattle.client_log.specs.Looks.{due, log_hear, hear_of, log_look, log_note, flight_can_follow, log_follow};
ghost use Rattle.client_log.specs.Transition.{log_launch, log_write, log_seal, log_go_on, can_go_on, is_full, waits, landed_at, can_follow, next_attempt, end_of, on_put, on_seal, on_parts, on_acked, on_maps, on_tick};

use crate::sending::send;
use crate::{Change, Log, Out};
use group_map::GroupMap;
use log_flight::items::items_of;
use log_flight::starting::flight_over;
use log_flight::texts::has_text;
use log_flight::{Fate, Flight};
use segment_format::{Item, Segment, rows_of};
use std::alloc::Global;
use std::mem;
use xfs_base::limits::SEGMENT_BLOCKS;
use xfs_base::{BlockId, End, List, Mem, Pass, Prior, SegName};

impl Log {
    #[tactic(auto, unfolding(crate::specs::Transition::on_put))]
    pub(crate) fn on_put(
        &mut self,
        alloc: Global,
        outs: &mut List<Out>,
        block: BlockId,
        change: Change,
    ) -> Mem<()>
        ensures state { OnOk result (self.new ≡ (on_put self.old block change).state) }
        ensures outs { OnOk result (outs.new ≡ outs.old ++ (on_put self.old block change).outs) }
    {
        if !self.can_put(block, &change) {
            return Ok(());
        }
        self.dirty.put(block, change)?;
        self.go_on(alloc, outs)
    }

    // Whether no number is at its end that rises once this waits.
    fn can_put(&self, block: BlockId, change: &Change) -> bool
        ensures { result ≡ can_go_on (waits self.now block change.now) }
    {
        let count = self.dirty.len_with(block, change);
        let is_full = self.flight.is_none() && SEGMENT_BLOCKS <= count;
        !is_full || self.end.seq < u32::MAX
    }

    #[tactic(auto, unfolding(crate::specs::Transition::on_seal))]
    pub(crate) fn on_seal(&mut self, alloc: Global, outs: &mut List<Out>) -> Mem<()>
        ensures state { OnOk result (self.new ≡ (on_seal self.old).state) }
        ensures outs { OnOk result (outs.new ≡ outs.old ++ (on_seal self.old).outs) }
    {
        if self.flight.is_none() && 0 < self.dirty.len() && self.end.seq < u32::MAX {
            return self.seal(alloc, outs);
        }
        Ok(())
    }

    #[tactic(auto, unfolding(crate::specs::Transition::on_parts))]
    pub(crate) fn on_parts(
        &mut self,
        alloc: Global,
        outs: &mut List<Out>,
        items: List<Item>,
    ) -> Mem<()>
        ensures state { OnOk result (self.new ≡ (on_parts self.old items).state) }
        ensures outs { OnOk result (outs.new ≡ outs.old ++ (on_parts self.old items).outs) }
    {
        if self.flight.is_none() && self.end.seq < u32::MAX && has_text(items.as_slice()) {
            return self.write(alloc, outs, items);
        }
        Ok(())
    }

    pub(crate) fn on_acked(
        &mut self,
        alloc: Global,
        outs: &mut List<Out>,
        name: SegName,
        index: u8,
        generation: u32,
    ) -> Mem<()>
        ensures state { OnOk result (self.new ≡ (on_acked self.old name index generation).state) }
        ensures outs { OnOk result (outs.new ≡ outs.old ++ (on_acked self.old name index generation).outs) }
    {
        match self.hear(name, index, generation) {
            None => Ok(()),
            Some(fate) => {
                self.note(index);
                self.follow(alloc, outs, fate)
            }
        }
    }

    pub(crate) fn on_maps(
        &mut self,
        alloc: Global,
        outs: &mut List<Out>,
        groups: GroupMap,
    ) -> Mem<()>
        ensures state { OnOk result (self.new ≡ (on_maps self.old groups).state) }
        ensures outs { OnOk result (outs.new ≡ outs.old ++ (on_maps self.old groups).outs) }
    {
        match self.look(&groups) {
            None => {
                drop(groups);
                Ok(())
            }
            Some(fate) => {
                self.regroup(groups);
                self.follow(alloc, outs, fate)
            }
        }
    }

    #[tactic(auto, unfolding(crate::specs::Transition::on_tick))]
    pub(crate) fn on_tick(&self, alloc: Global, outs: &mut List<Out>) -> Mem<()>
        ensures state { (on_tick self.now).state ≡ self.now }
        ensures outs { OnOk result (outs.new ≡ outs.old ++ (on_tick self.now).outs) }
    {
        match &self.flight {
            None => Ok(()),
            Some(flight) => send(alloc, outs, flight),
        }
    }

    // What a server's answer comes to: what becomes of the flight, where the answer is of it and no number
    // is at its end that this raises.
    #[tactic(auto, unfolding(crate::specs::Looks::log_hear))]
    fn hear(&self, name: SegName, index: u8, generation: u32) -> Option<Fate>
        ensures { result ≡ log_hear self.now name index generation }
    {
        match &self.flight {
            None => None,
            Some(flight) => self.hear_of(flight, name, index, generation),
        }
    }

    fn hear_of(&self, flight: &Flight, name: SegName, index: u8, generation: u32) -> Option<Fate>
        ensures { result ≡ hear_of self.now flight.now name index generation }
    {
        if !flight.is_of(name, index, generation) {
            return None;
        }
        self.due(flight, flight.fate(&self.groups, &flight.noted_with(index)))
    }

    // What becomes of the flight with these groups, where no number is at its end that this raises; Wait
    // where none is in flight.
    #[tactic(auto, unfolding(crate::specs::Looks::log_look))]
    fn look(&self, groups: &GroupMap) -> Option<Fate>
        ensures { result ≡ log_look self.now groups.now }
    {
        match &self.flight {
            None => Some(Fate::Wait),
            Some(flight) => self.due(flight, flight.fate(groups, &flight.noted())),
        }
    }

    // The fate, where no number is at its end that it raises.
    fn due(&self, flight: &Flight, fate: Fate) -> Option<Fate>
        ensures { result ≡ due self.now flight.now fate }
    {
        if self.can_follow(flight, fate) {
            Some(fate)
        } else {
            None
        }
    }

    fn can_follow(&self, flight: &Flight, fate: Fate) -> bool
        ensures { result ≡ can_follow self.now flight.now fate }
    {
        let name = flight.segment().name;
        match fate {
            Fate::Restripe => name.pass.att < u32::MAX,
            Fate::Settle => self.dirty.len() < SEGMENT_BLOCKS || name.seq < u32::MAX,
            Fate::Wait => true,
        }
    }

    // The groups are these now.
    fn regroup(&mut self, groups: GroupMap)
        ensures { self.new ≡ record self.old { groups = groups } }
    {
        drop(mem::replace(&mut self.groups, groups));
    }

    // The fragment of the flight at this place is noted.
    fn note(&mut self, index: u8)
        ensures { self.new ≡ log_note self.old index }
    {
        if let Some(flight) = &mut self.flight {
            flight.note(index);
        }
    }

    // The fate of the flight follows.
    #[tactic(auto, unfolding(crate::specs::Looks::log_follow))]
    fn follow(&mut self, alloc: Global, outs: &mut List<Out>, fate: Fate) -> Mem<()>
        requires { IsTrue (flight_can_follow self.old fate) }
        ensures state { OnOk result (self.new ≡ (log_follow self.old fate).state) }
        ensures outs { OnOk result (outs.new ≡ outs.old ++ (log_follow self.old fate).outs) }
    {
        match fate {
            Fate::Restripe => self.restripe(alloc, outs),
            Fate::Settle => self.settle(alloc, outs),
            Fate::Wait => Ok(()),
        }
    }

    // The segment is striped anew, by its next attempt.
    #[tactic(auto, unfolding(crate::specs::Looks::log_follow, crate::specs::Transition::restriped, crate::specs::Transition::log_launch))]
    fn restripe(&mut self, alloc: Global, outs: &mut List<Out>) -> Mem<()>
        requires { IsTrue (flight_can_follow self.old Fate.Restripe) }
        ensures state { OnOk result (self.new ≡ (log_follow self.old Fate.Restripe).state) }
        ensures outs { OnOk result (outs.new ≡ outs.old ++ (log_follow self.old Fate.Restripe).outs) }
    {
        let Some(flight) = self.flight.take() else {
            return Ok(());
        };
        let segment = flight.into_segment();
        let name = next_attempt(segment.name);
        let prior = segment.prior;
        self.launch(alloc, outs, name, prior, segment.into_items())
    }

    // The segment is settled, and where as many blocks wait as a segment takes they are written next.
    #[tactic(auto, unfolding(crate::specs::Looks::log_follow, crate::specs::Transition::settled))]
    fn settle(&mut self, alloc: Global, outs: &mut List<Out>) -> Mem<()>
        requires { IsTrue (flight_can_follow self.old Fate.Settle) }
        ensures state { OnOk result (self.new ≡ (log_follow self.old Fate.Settle).state) }
        ensures outs { OnOk result (outs.new ≡ outs.old ++ (log_follow self.old Fate.Settle).outs) }
    {
        let Some(flight) = &self.flight else {
            return Ok(());
        };
        let end = tell_settled(alloc, outs, flight.segment())?;
        self.land(alloc, outs, end)
    }

    // Nothing is in flight behind this end.
    fn land(&mut self, alloc: Global, outs: &mut List<Out>, end: End) -> Mem<()>
        requires { IsTrue (can_go_on (landed_at self.old end)) }
        ensures state { OnOk result (self.new ≡ (log_go_on (landed_at self.old end)).state) }
        ensures outs { OnOk result (outs.new ≡ outs.old ++ (log_go_on (landed_at self.old end)).outs) }
    {
        self.end = end;
        drop(self.flight.take());
        self.go_on(alloc, outs)
    }

    // A full log is sealed.
    #[tactic(auto, unfolding(crate::specs::Transition::log_go_on))]
    fn go_on(&mut self, alloc: Global, outs: &mut List<Out>) -> Mem<()>
        requires { IsTrue (can_go_on self.old) }
        ensures state { OnOk result (self.new ≡ (log_go_on self.old).state) }
        ensures outs { OnOk result (outs.new ≡ outs.old ++ (log_go_on self.old).outs) }
    {
        if !self.is_full() {
            return Ok(());
        }
        self.seal(alloc, outs)
    }

    // Whether as many wait as a segment takes, and none is in flight.
    fn is_full(&self) -> bool
        ensures { result ≡ is_full self.now }
    {
        self.flight.is_none() && SEGMENT_BLOCKS <= self.dirty.len()
    }

    // The blocks that wait first are written.
    #[tactic(auto, unfolding(crate::specs::Transition::log_seal))]
    fn seal(&mut self, alloc: Global, outs: &mut List<Out>) -> Mem<()>
        requires { self.old.end.seq < u32_end }
        ensures state { OnOk result (self.new ≡ (log_seal self.old).state) }
        ensures outs { OnOk result (outs.new ≡ outs.old ++ (log_seal self.old).outs) }
    {
        let changes = self.dirty.take_first()?;
        let items = items_of(alloc, changes)?;
        self.write(alloc, outs, items)
    }

    // The next segment has these items.
    fn write(&mut self, alloc: Global, outs: &mut List<Out>, items: List<Item>) -> Mem<()>
        requires seq { self.old.end.seq < u32_end }
        requires text { HasText items }
        ensures state { OnOk result (self.new ≡ (log_write self.old items).state) }
        ensures outs { OnOk result (outs.new ≡ outs.old ++ (log_write self.old items).outs) }
    {
        let name = SegName {
            log: self.log,
            seq: self.end.seq + 1,
            pass: Pass {
                inc: self.inc,
                att: 1,
            },
        };
        let prior = Prior {
            pass: self.end.pass,
            group: self.end.group,
        };
        self.launch(alloc, outs, name, prior, items)
    }

    // A segment of this name is in flight, over the group that the map chooses for it.
    #[tactic(auto, unfolding(crate::specs::Transition::log_launch, crate::specs::Transition::on_tick))]
    fn launch(
        &mut self,
        alloc: Global,
        outs: &mut List<Out>,
        name: SegName,
        prior: Prior,
        items: List<Item>,
    ) -> Mem<()>
        requires log { IsLog name.log.0 }
        requires text { HasText items }
        ensures state { OnOk result (self.new ≡ (log_launch self.old name prior items).state) }
        ensures outs { OnOk result (outs.new ≡ outs.old ++ (log_launch self.old name prior items).outs) }
    {
        let flight = flight_over(alloc, &self.groups, self.log, name, prior, items)?;
        drop(mem::replace(&mut self.flight, Some(flight)));
        self.on_tick(alloc, outs)
    }
}

fn next_attempt(name: SegName) -> SegName
    requires { name.pass.att < u32_end }
    ensures { result ≡ next_attempt name }
{
    let pass = Pass {
        inc: name.pass.inc,
        att: name.pass.att + 1,
    };
    SegName { pass, ..name }
}

// A segment is told as settled; the end that it is.
fn tell_settled(alloc: Global, outs: &mut List<Out>, segment: &Segment) -> Mem<End>
    ensures end { IfOk result (λ end. end ≡ end_of segment.now) }
    ensures outs { OnOk result (outs.new ≡ outs.old ++ Settled (end_of segment.now) (rows_of segment.now) ∷ []) }
{
    let rows = rows_of(alloc, segment)?;
    let end = end_of(segment);
    outs.push(Out::Settled { end, rows })?;
    Ok(end)
}

fn end_of(segment: &Segment) -> End
    ensures { result ≡ end_of segment.now }
{
    End {
        seq: segment.name.seq,
        pass: segment.name.pass,
        group: segment.group,
    }
}
