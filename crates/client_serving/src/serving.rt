//! A client that serves.
ghost use Rattle.std.specs.Prelude.{◌≡◌, ◌++◌, OnOk};
ghost use Rattle.client_serving.specs.Bodies.{take_log_body};
ghost use Rattle.client_serving.specs.Packets.{on_ack, take_body, serving_take, on_tick};

use crate::Lasting;
use crate::grants::forward;
use crate::promises::ask_for_maps;
use client_call::Call;
use client_call::reads::fetch_again;
use client_log::Log;
use coop_cache::Cache;
use delta_feed::Feed;
use log_owner::Managers;
use log_owner::sealing::acked;
use log_owner::sending::push_all;
use node_base::{Effects, Maps, names_known_groups};
use std::alloc::Global;
use stripe_code::Told;
use token_client::Tokens;
use wire_msg::{Body, DeltaAck, Packet};
use xfs_base::Mem;
use xfs_base::limits::SLOT_COUNT;

/// What a client that serves has. The tokens keep which epoch each slot is promised to.
pub struct Serving {
    /// What outlives a crash.
    pub lasting: Lasting,
    /// The maps.
    pub maps: Maps,
    /// The managers to which the slots are promised.
    pub managers: Managers,
    /// What it may do with each block.
    pub tokens: Tokens,
    /// Its log.
    pub log: Log,
    /// The deltas of its log.
    pub feed: Feed,
    /// Its clean blocks, by their last use.
    pub cache: Cache,
    /// The call that is open.
    pub call: Option<Call>,
}

impl Drop for Serving {
    fn drop(self) {
        drop(self.into_lasting());
    }
}

impl Serving {
    /// What is left once the client has crashed: all else is lost.
    pub fn into_lasting(self) -> Lasting
        ensures { result ≡ self.lasting }
    {
        let Serving {
            lasting,
            maps,
            managers: _,
            tokens,
            log,
            feed,
            cache,
            call,
        } = self;
        drop(maps);
        drop(tokens);
        drop(log);
        drop(feed);
        drop(cache);
        drop(call);
        lasting
    }

    /// Takes a packet. One that names a group that isn't known is dropped, and the maps are asked for.
    #[tactic(auto, unfolding(crate::specs::Packets::serving_take, crate::specs::Packets::asks_for_maps))]
    pub fn take(&mut self, alloc: Global, effects: &mut Effects, packet: &Packet) -> Mem<()>
        ensures state { OnOk result (self.new ≡ (serving_take self.old packet.now).state) }
        ensures effects { OnOk result (effects.new ≡ effects.old ++ (serving_take self.old packet.now).outs) }
    {
        if names_known_groups(&self.maps, &packet.body) {
            self.take_body(alloc, effects, packet)
        } else {
            ask_for_maps(effects, &mut self.lasting)
        }
    }

    // A packet about blocks, or another.
    #[tactic(auto, unfolding(crate::specs::Packets::on_forward))]
    fn take_body(&mut self, alloc: Global, effects: &mut Effects, packet: &Packet) -> Mem<()>
        ensures state { OnOk result (self.new ≡ (take_body self.old packet.now.from packet.now.body).state) }
        ensures effects { OnOk result (effects.new ≡ effects.old ++ (take_body self.old packet.now.from packet.now.body).outs) }
    {
        match &packet.body {
            Body::Grant(grant) => self.on_grant(alloc, effects, **grant),
            Body::Supply(supply) => self.on_supply(alloc, effects, supply),
            Body::Forward(asked) => forward(alloc, effects, &mut self.tokens, *asked),
            Body::Recall(recall) => self.on_recall(alloc, effects, *recall),
            Body::Gone(gone) => self.on_gone(alloc, effects, *gone),
            _ => self.take_log_body(alloc, effects, packet),
        }
    }

    // A packet about a log, the maps or the promises.
    fn take_log_body(&mut self, alloc: Global, effects: &mut Effects, packet: &Packet) -> Mem<()>
        ensures state { OnOk result (self.new ≡ (take_log_body self.old packet.now.from packet.now.body).state) }
        ensures effects { OnOk result (effects.new ≡ effects.old ++ (take_log_body self.old packet.now.from packet.now.body).outs) }
    {
        let from = packet.from;
        match &packet.body {
            Body::DeltaAck(ack) => self.on_ack(alloc, *ack),
            Body::Stored(stored) => self.write(alloc, effects, acked(*stored)),
            Body::Fragment(found) => {
                let told = Told::Held(found.fragment.copy(alloc)?);
                self.on_told(alloc, effects, from, found.ask, told)
            }
            Body::Missing(missing) => {
                let told = Told::Missing(missing.generation);
                self.on_told(alloc, effects, from, missing.ask, told)
            }
            Body::Poll(poll) => self.on_poll(alloc, effects, from, *poll),
            Body::MapNews(news) => self.on_news(alloc, effects, news),
            Body::Welcome(welcome) => self.on_welcome(alloc, effects, welcome),
            _ => Ok(()),
        }
    }

    /// Time passes: what waits for an answer is said again.
    #[tactic(auto, unfolding(crate::specs::Packets::on_tick))]
    pub fn tick(&mut self, alloc: Global, effects: &mut Effects) -> Mem<()>
        ensures state { OnOk result (self.new ≡ (on_tick self.old).state) }
        ensures effects { OnOk result (effects.new ≡ effects.old ++ (on_tick self.old).outs) }
    {
        self.hand(alloc, effects, token_client::In::Tick)?;
        fetch_again(alloc, effects, &self.call)?;
        self.write(alloc, effects, client_log::In::Tick)?;
        push_all(alloc, effects, &mut self.feed, self.managers)
    }

    // A manager has applied the log.
    #[tactic(auto, unfolding(crate::specs::Packets::on_ack))]
    fn on_ack(&mut self, alloc: Global, ack: DeltaAck) -> Mem<()>
        ensures { OnOk result (self.new ≡ on_ack self.old ack) }
    {
        if ack.slot < SLOT_COUNT && self.tokens.promised(ack.slot) == ack.epoch {
            let input = delta_feed::In::Ack {
                slot: ack.slot,
                applied: ack.applied,
            };
            drop(self.feed.take(alloc, input)?);
        }
        Ok(())
    }
}
