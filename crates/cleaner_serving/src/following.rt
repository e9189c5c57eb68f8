//! How a cleaner that serves follows the maps and the managers.
ghost use Rattle.std.specs.Prelude.{◌≡◌, ◌++◌, OnOk};
ghost use Rattle.cleaner_serving.specs.EmptyingEvents.{emptying_renew, emptying_promise, emptying_report, on_polled, on_poll, hear_slot, hear_slots, regroup_job, regroup_log, take_news, on_news, welcome_over, emptying_welcome, on_welcome};

use crate::emptying::Emptying;
use cleaner_job::job::{hello_of, is_out, note_greeted};
use group_map::GroupMap;
use node_base::Effects;
use std::alloc::Global;
use stripe_cleaner::In;
use wire_msg::{Body, News, Poll, Report, Welcome};
use xfs_base::{List, Mem, NodeId, SlotNews, copy_each};

impl Emptying {
    /// A slot's new manager asks for the end of the log.
    #[tactic(auto, unfolding(crate::specs::EmptyingEvents::on_poll))]
    pub(crate) fn on_poll(
        &mut self,
        alloc: Global,
        effects: &mut Effects,
        from: NodeId,
        poll: Poll,
    ) -> Mem<()>
        ensures state { OnOk result (self.new ≡ (on_poll self.old from poll).state) }
        ensures effects { OnOk result (effects.new ≡ effects.old ++ (on_poll self.old from poll).outs) }
    {
        match from {
            NodeId::Manager(manager) => self.on_polled(alloc, effects, manager, poll),
            NodeId::Client(_) | NodeId::Server(_) | NodeId::Cleaner | NodeId::Registry => Ok(()),
        }
    }

    fn on_polled(
        &mut self,
        alloc: Global,
        effects: &mut Effects,
        manager: u8,
        poll: Poll,
    ) -> Mem<()>
        ensures state { OnOk result (self.new ≡ (on_polled self.old manager poll).state) }
        ensures effects { OnOk result (effects.new ≡ effects.old ++ (on_polled self.old manager poll).outs) }
    {
        if poll.epoch < self.promised.epoch(poll.slot) {
            return Ok(());
        }
        self.report(alloc, effects, manager, poll)
    }

    fn report(&mut self, alloc: Global, effects: &mut Effects, manager: u8, poll: Poll) -> Mem<()>
        ensures state { OnOk result (self.new ≡ (emptying_report self.old manager poll).state) }
        ensures effects { OnOk result (effects.new ≡ effects.old ++ (emptying_report self.old manager poll).outs) }
    {
        let Poll { slot, epoch } = poll;
        self.promise(alloc, slot, epoch, manager)?;
        let report = Report {
            slot,
            epoch,
            held: List::new(alloc),
            end: self.log.end(),
        };
        effects.send(NodeId::Manager(manager), Body::Report(report))?;
        self.clean(alloc, effects, In::Promise { slot, epoch })
    }

    /// The registry answers a Hello of this incarnation: the maps are taken, and the job goes on where it
    /// is its Hello.
    #[tactic(auto, unfolding(crate::specs::EmptyingEvents::on_welcome))]
    pub(crate) fn on_welcome(
        &mut self,
        alloc: Global,
        effects: &mut Effects,
        welcome: &Welcome,
    ) -> Mem<()>
        ensures state { OnOk result (self.new ≡ (on_welcome self.old welcome.now).state) }
        ensures effects { OnOk result (effects.new ≡ effects.old ++ (on_welcome self.old welcome.now).outs) }
    {
        if welcome.inc != self.lasting.inc || !self.maps.fits(&welcome.news) {
            return Ok(());
        }
        self.take_news(alloc, effects, &welcome.news)?;
        self.welcome(alloc, effects, welcome)
    }

    #[tactic(auto, unfolding(crate::specs::EmptyingEvents::emptying_welcome))]
    fn welcome(&mut self, alloc: Global, effects: &mut Effects, welcome: &Welcome) -> Mem<()>
        ensures state { OnOk result (self.new ≡ (emptying_welcome self.old welcome.now).state) }
        ensures effects { OnOk result (effects.new ≡ effects.old ++ (emptying_welcome self.old welcome.now).outs) }
    {
        if !is_out(hello_of(&self.job), welcome.ask) {
            return Ok(());
        }
        note_greeted(&mut self.job);
        let groups = self.maps.copy_groups(alloc)?;
        self.welcome_over(alloc, effects, &welcome.news.slots, groups)
    }

    fn welcome_over(
        &mut self,
        alloc: Global,
        effects: &mut Effects,
        slots: &List<SlotNews>,
        groups: Option<GroupMap>,
    ) -> Mem<()>
        ensures state { OnOk result (self.new ≡ (welcome_over self.old slots.now groups).state) }
        ensures effects { OnOk result (effects.new ≡ effects.old ++ (welcome_over self.old slots.now groups).outs) }
    {
        let Some(groups) = groups else {
            return Ok(());
        };
        let slots = copy_each(alloc, slots)?;
        self.clean(alloc, effects, In::Welcome { slots, groups })
    }

    /// The maps come.
    pub(crate) fn on_news(&mut self, alloc: Global, effects: &mut Effects, news: &News) -> Mem<()>
        ensures state { OnOk result (self.new ≡ (on_news self.old news.now).state) }
        ensures effects { OnOk result (effects.new ≡ effects.old ++ (on_news self.old news.now).outs) }
    {
        if !self.maps.fits(news) {
            return Ok(());
        }
        self.take_news(alloc, effects, news)
    }

    // Newer groups come first, then the slots with a greater epoch in order, then settling is looked at.
    #[tactic(auto, unfolding(crate::specs::EmptyingEvents::take_news))]
    fn take_news(&mut self, alloc: Global, effects: &mut Effects, news: &News) -> Mem<()>
        ensures state { OnOk result (self.new ≡ (take_news self.old news.now).state) }
        ensures effects { OnOk result (effects.new ≡ effects.old ++ (take_news self.old news.now).outs) }
    {
        let newer = self.maps.take(alloc, news)?;
        self.regroup_job(alloc, effects, newer, &news.groups)?;
        self.hear_slots(alloc, effects, news.slots.as_slice())?;
        self.regroup_log(alloc, effects, newer, &news.groups)
    }

    fn regroup_job(
        &mut self,
        alloc: Global,
        effects: &mut Effects,
        newer: bool,
        groups: &GroupMap,
    ) -> Mem<()>
        ensures state { OnOk result (self.new ≡ (regroup_job self.old newer groups.now).state) }
        ensures effects { OnOk result (effects.new ≡ effects.old ++ (regroup_job self.old newer groups.now).outs) }
    {
        if !newer {
            return Ok(());
        }
        let groups = groups.copy(alloc)?;
        self.clean(alloc, effects, In::Maps(groups))
    }

    fn regroup_log(
        &mut self,
        alloc: Global,
        effects: &mut Effects,
        newer: bool,
        groups: &GroupMap,
    ) -> Mem<()>
        ensures state { OnOk result (self.new ≡ (regroup_log self.old newer groups.now).state) }
        ensures effects { OnOk result (effects.new ≡ effects.old ++ (regroup_log self.old newer groups.now).outs) }
    {
        if !newer {
            return Ok(());
        }
        let groups = groups.copy(alloc)?;
        self.write(alloc, effects, client_log::In::Maps(groups))
    }

    #[tactic(auto, unfolding(crate::specs::EmptyingEvents::hear_slots))]
    fn hear_slots(&mut self, alloc: Global, effects: &mut Effects, slots: &[SlotNews]) -> Mem<()>
        ensures state { OnOk result (self.new ≡ (hear_slots self.old slots.now).state) }
        ensures effects { OnOk result (effects.new ≡ effects.old ++ (hear_slots self.old slots.now).outs) }
    {
        for news in slots {
            self.hear_slot(alloc, effects, news)?;
        }
        Ok(())
    }

    // A slot of a greater epoch is promised to it.
    #[tactic(auto, unfolding(crate::specs::EmptyingEvents::hear_slot))]
    fn hear_slot(&mut self, alloc: Global, effects: &mut Effects, news: &SlotNews) -> Mem<()>
        ensures state { OnOk result (self.new ≡ (hear_slot self.old news.now).state) }
        ensures effects { OnOk result (effects.new ≡ effects.old ++ (hear_slot self.old news.now).outs) }
    {
        let (slot, epoch) = (news.slot, news.epoch);
        if epoch <= self.promised.epoch(slot) {
            return Ok(());
        }
        self.promise(alloc, slot, epoch, news.manager)?;
        self.clean(alloc, effects, In::Promise { slot, epoch })
    }

    // The slot is promised to this epoch of this manager.
    #[tactic(auto, unfolding(crate::specs::EmptyingEvents::emptying_promise))]
    fn promise(&mut self, alloc: Global, slot: u8, epoch: u32, manager: u8) -> Mem<()>
        ensures { OnOk result (self.new ≡ emptying_promise self.old slot epoch manager) }
    {
        self.renew(alloc, slot, epoch)?;
        self.promised.promise(slot, epoch, manager);
        Ok(())
    }

    // A new manager may know no more of the log than the base of its feed.
    fn renew(&mut self, alloc: Global, slot: u8, epoch: u32) -> Mem<()>
        ensures { OnOk result (self.new ≡ emptying_renew self.old slot epoch) }
    {
        if epoch <= self.promised.epoch(slot) {
            return Ok(());
        }
        let _outs = self.feed.take(alloc, delta_feed::In::NewEpoch { slot })?;
        Ok(())
    }
}
