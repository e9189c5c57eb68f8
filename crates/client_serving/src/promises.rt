//! Promises: polls of managers, and maps.
ghost use Rattle.std.specs.Prelude.{◌≡◌, ◌<◌, ◌++◌, ◌∷◌, [], IfOk, OnOk};
ghost use Rattle.client_serving.specs.Packets.{serving_hear, on_news, on_poll, on_welcome, serving_promise, serving_renew};
ghost use Rattle.log_owner.specs.Sending.{hello};
ghost use Rattle.node_base.specs.Asking.{next_ask, draw};
ghost use Rattle.xfs_base.specs.Steps.{steps};
ghost use Rattle.xfs_base.specs.Limits.{slot_count};

use crate::sends::report;
use crate::{Lasting, Serving};
use client_call::reads::end_reading;
use log_owner::sending::send_hello;
use node_base::Effects;
use std::alloc::Global;
use token_client::{In, Out};
use wire_msg::{News, Poll, Welcome};
use xfs_base::limits::SLOT_COUNT;
use xfs_base::{List, Mem, NodeId, SlotNews};

impl Serving {
    /// A slot's new manager asks what the client holds.
    #[tactic(auto, unfolding(crate::specs::Packets::polled))]
    pub(crate) fn on_poll(
        &mut self,
        alloc: Global,
        effects: &mut Effects,
        from: NodeId,
        poll: Poll,
    ) -> Mem<()>
        ensures state { OnOk result (self.new ≡ (on_poll self.old from poll).state) }
        ensures effects { OnOk result (effects.new ≡ effects.old ++ (on_poll self.old from poll).outs) }
    {
        let NodeId::Manager(manager) = from else {
            return Ok(());
        };
        let Poll { slot, epoch } = poll;
        if SLOT_COUNT <= slot || epoch < self.tokens.promised(slot) {
            return Ok(());
        }
        let outs = self.promise(alloc, slot, epoch, manager)?;
        let end = self.log.end();
        match report(
            alloc,
            effects,
            &self.tokens,
            self.managers,
            end,
            slot,
            epoch,
        ) {
            Ok(()) => self.follow(alloc, effects, outs),
            Err(error) => {
                drop(outs);
                Err(error)
            }
        }
    }

    // The slot is promised to this epoch of this manager; what the tokens have the client do.
    #[tactic(auto, unfolding(crate::specs::Packets::serving_promise))]
    fn promise(&mut self, alloc: Global, slot: u8, epoch: u32, manager: u8) -> Mem<List<Out>>
        requires { slot < slot_count }
        ensures state { OnOk result (self.new ≡ (serving_promise self.old slot epoch manager).state) }
        ensures outs { IfOk result (λ outs. outs ≡ (serving_promise self.old slot epoch manager).outs) }
    {
        self.renew(alloc, slot, epoch)?;
        self.managers.set(slot, manager);
        let outs = self.tokens.take(alloc, In::Promise { slot, epoch })?;
        end_reading(&self.tokens, &mut self.call);
        Ok(outs)
    }

    // A new manager is told all from the base on.
    #[tactic(auto, unfolding(crate::specs::Packets::serving_renew))]
    fn renew(&mut self, alloc: Global, slot: u8, epoch: u32) -> Mem<()>
        requires { slot < slot_count }
        ensures { OnOk result (self.new ≡ serving_renew self.old slot epoch) }
    {
        if self.tokens.promised(slot) < epoch {
            drop(self.feed.take(alloc, delta_feed::In::NewEpoch { slot })?);
        }
        Ok(())
    }

    /// The answer to a question for the maps.
    #[tactic(auto, unfolding(crate::specs::Packets::on_welcome))]
    pub(crate) fn on_welcome(
        &mut self,
        alloc: Global,
        effects: &mut Effects,
        welcome: &Welcome,
    ) -> Mem<()>
        ensures state { OnOk result (self.new ≡ (on_welcome self.old welcome.now).state) }
        ensures effects { OnOk result (effects.new ≡ effects.old ++ (on_welcome self.old welcome.now).outs) }
    {
        if welcome.inc != self.lasting.inc {
            return Ok(());
        }
        self.on_news(alloc, effects, &welcome.news)
    }

    /// The maps: newer groups are taken, then slots of greater epochs in order, and then it is looked
    /// whether the segment in flight is settled.
    #[tactic(auto, unfolding(crate::specs::Packets::takes_news))]
    pub(crate) fn on_news(&mut self, alloc: Global, effects: &mut Effects, news: &News) -> Mem<()>
        ensures state { OnOk result (self.new ≡ (on_news self.old news.now).state) }
        ensures effects { OnOk result (effects.new ≡ effects.old ++ (on_news self.old news.now).outs) }
    {
        if !self.maps.fits(news) {
            return Ok(());
        }
        let newer = self.maps.take(alloc, news)?;
        self.hear_all(alloc, effects, news.slots.as_slice())?;
        if !newer {
            return Ok(());
        }
        let groups = news.groups.copy(alloc)?;
        self.write(alloc, effects, client_log::In::Maps(groups))
    }

    fn hear_all(&mut self, alloc: Global, effects: &mut Effects, slots: &[SlotNews]) -> Mem<()>
        ensures state { OnOk result (self.new ≡ (steps serving_hear self.old slots.now).state) }
        ensures effects { OnOk result (effects.new ≡ effects.old ++ (steps serving_hear self.old slots.now).outs) }
    {
        for slot in slots {
            self.hear(alloc, effects, slot)?;
        }
        Ok(())
    }

    #[tactic(auto, unfolding(crate::specs::Packets::serving_hear))]
    fn hear(&mut self, alloc: Global, effects: &mut Effects, news: &SlotNews) -> Mem<()>
        ensures state { OnOk result (self.new ≡ (serving_hear self.old news.now).state) }
        ensures effects { OnOk result (effects.new ≡ effects.old ++ (serving_hear self.old news.now).outs) }
    {
        if SLOT_COUNT <= news.slot || news.epoch <= self.tokens.promised(news.slot) {
            return Ok(());
        }
        let outs = self.promise(alloc, news.slot, news.epoch, news.manager)?;
        self.follow(alloc, effects, outs)
    }
}

/// The maps are asked for, under a new question.
pub(crate) fn ask_for_maps(effects: &mut Effects, lasting: &mut Lasting) -> Mem<()>
    ensures lasting { OnOk result (lasting.new ≡ record lasting.old { questions = draw lasting.old.questions }) }
    ensures effects { OnOk result (effects.new ≡ effects.old ++ hello lasting.old.inc (next_ask lasting.old.questions) ∷ []) }
{
    send_hello(effects, lasting.inc, lasting.questions.draw())
}
