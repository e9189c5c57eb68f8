//! How a cleaner that serves reads the segment in hand.
ghost use Rattle.std.specs.Prelude.{◌≡◌, ◌++◌, IfOk, OnOk};
ghost use Rattle.cleaner_job.specs.Hands.{fetches};
ghost use Rattle.cleaner_job.specs.Jobs.{hand_of};
ghost use Rattle.cleaner_serving.specs.Jobs.{on_found, on_missing, on_told, emptying_hear, confirmed, after_told, after_confirmed, emptying_read_again, end_reading};

use crate::emptying::Emptying;
use cleaner_job::hand::fetch;
use cleaner_job::job::note_read;
use node_base::Effects;
use segment_format::Segment;
use segment_reading::Next;
use std::alloc::Global;
use stripe_cleaner::In;
use stripe_code::Told;
use wire_msg::{Found, Missing};
use xfs_base::Mem;

impl Emptying {
    /// A fragment of the segment in hand comes.
    pub(crate) fn on_found(
        &mut self,
        alloc: Global,
        effects: &mut Effects,
        server: Option<u8>,
        found: &Found,
    ) -> Mem<()>
        ensures state { OnOk result (self.new ≡ (on_found self.old server found.now).state) }
        ensures effects { OnOk result (effects.new ≡ effects.old ++ (on_found self.old server found.now).outs) }
    {
        let told = Told::Held(found.fragment.copy(alloc)?);
        self.on_told(alloc, effects, server, found.ask, told)
    }

    /// A server lacks its fragment of the segment in hand.
    pub(crate) fn on_missing(
        &mut self,
        alloc: Global,
        effects: &mut Effects,
        server: Option<u8>,
        missing: Missing,
    ) -> Mem<()>
        ensures state { OnOk result (self.new ≡ (on_missing self.old server missing).state) }
        ensures effects { OnOk result (effects.new ≡ effects.old ++ (on_missing self.old server missing).outs) }
    {
        let told = Told::Missing(missing.generation);
        self.on_told(alloc, effects, server, missing.ask, told)
    }

    // The reading of the segment in hand takes an answer, and goes on.
    #[tactic(auto, unfolding(crate::specs::Jobs::on_told))]
    fn on_told(
        &mut self,
        alloc: Global,
        effects: &mut Effects,
        server: Option<u8>,
        ask: u32,
        told: Told,
    ) -> Mem<()>
        ensures state { OnOk result (self.new ≡ (on_told self.old server ask told).state) }
        ensures effects { OnOk result (effects.new ≡ effects.old ++ (on_told self.old server ask told).outs) }
    {
        let Some(server) = server else {
            // It is dropped by a call, here and below, so that each part of it is dropped in one proof.
            drop(told);
            return Ok(());
        };
        let next = self.hear(alloc, ask, server, told)?;
        self.after_told(alloc, effects, next)
    }

    // What the reading of the segment in hand does on an answer.
    #[tactic(auto, unfolding(crate::specs::Jobs::emptying_hear))]
    fn hear(&mut self, alloc: Global, ask: u32, server: u8, told: Told) -> Mem<Next>
        ensures state { OnOk result (self.new ≡ (emptying_hear self.old ask server told).state) }
        ensures next { IfOk result (λ next. next ≡ (emptying_hear self.old ask server told).next) }
    {
        let Some(job) = &mut self.job else {
            drop(told);
            return Ok(Next::Wait);
        };
        match &self.maps.groups {
            None => {
                drop(told);
                Ok(Next::Wait)
            }
            Some(groups) => job.hear(alloc, groups, ask, server, told),
        }
    }

    fn after_told(&mut self, alloc: Global, effects: &mut Effects, next: Next) -> Mem<()>
        ensures state { OnOk result (self.new ≡ (after_told self.old next).state) }
        ensures effects { OnOk result (effects.new ≡ effects.old ++ (after_told self.old next).outs) }
    {
        match next {
            Next::Wait | Next::Ask => Ok(()),
            Next::Again => self.read_again(alloc, effects),
            Next::Read(segment) => self.end_reading(alloc, effects, Some(segment)),
            Next::Lost => self.end_reading(alloc, effects, None),
        }
    }

    // A round ended without the segment. The cleaner asks nothing between rounds: a further round begins,
    // or the segment is lost.
    #[tactic(auto, unfolding(crate::specs::Jobs::emptying_read_again))]
    fn read_again(&mut self, alloc: Global, effects: &mut Effects) -> Mem<()>
        ensures state { OnOk result (self.new ≡ (emptying_read_again self.old).state) }
        ensures effects { OnOk result (effects.new ≡ effects.old ++ (emptying_read_again self.old).outs) }
    {
        let ask = self.lasting.questions.draw();
        let next = self.confirmed(alloc, ask)?;
        self.after_confirmed(alloc, effects, next)
    }

    #[tactic(auto, unfolding(crate::specs::Jobs::confirmed))]
    fn confirmed(&mut self, alloc: Global, ask: u32) -> Mem<Next>
        ensures state { OnOk result (self.new ≡ (confirmed self.old ask).state) }
        ensures next { IfOk result (λ next. next ≡ (confirmed self.old ask).next) }
    {
        match &mut self.job {
            None => Ok(Next::Wait),
            Some(job) => job.confirmed(alloc, ask),
        }
    }

    fn after_confirmed(&mut self, alloc: Global, effects: &mut Effects, next: Next) -> Mem<()>
        ensures state { OnOk result (self.new ≡ (after_confirmed self.old next).state) }
        ensures effects { OnOk result (effects.new ≡ effects.old ++ (after_confirmed self.old next).outs) }
    {
        match next {
            Next::Ask => self.fetch(alloc, effects),
            Next::Lost => self.end_reading(alloc, effects, None),
            Next::Wait | Next::Again | Next::Read(_) => Ok(()),
        }
    }

    // The servers that have not answered are asked for their fragments.
    pub(crate) fn fetch(&self, alloc: Global, effects: &mut Effects) -> Mem<()>
        ensures { OnOk result (effects.new ≡ effects.old ++ fetches (hand_of self.now.job)) }
    {
        match &self.job {
            Some(job) => fetch(alloc, effects, &job.hand),
            None => Ok(()),
        }
    }

    // The segment in hand is read, or lost.
    #[tactic(auto, unfolding(crate::specs::Jobs::end_reading))]
    fn end_reading(
        &mut self,
        alloc: Global,
        effects: &mut Effects,
        read: Option<Segment>,
    ) -> Mem<()>
        ensures state { OnOk result (self.new ≡ (end_reading self.old read).state) }
        ensures effects { OnOk result (effects.new ≡ effects.old ++ (end_reading self.old read).outs) }
    {
        note_read(&mut self.job);
        self.clean(alloc, effects, In::Read(read))
    }
}
