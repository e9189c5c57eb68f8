//! A cleaner that serves.
ghost use Rattle.std.specs.Prelude.{◌≡◌, ◌++◌, [], IfOk, OnOk};
ghost use Rattle.cleaner_serving.specs.EmptyingEvents.{emptying_start, emptying_back, promise_slot, promise_all, begin_job, on_clean, emptying_settle, write_one, emptying_write, on_stored, on_ack, ask_for_maps, on_body, on_packet, on_tick, emptying_has_room};
ghost use Rattle.log_owner.specs.Sending.{push_all};
ghost use Rattle.xfs_base.specs.Steps.{steps};

use cleaner_job::job::note_moved;
use cleaner_job::starting::{cleaner_log, start_log};
use cleaner_job::{Job, Lasting};
use client_log::Log;
use delta_feed::Feed;
use group_map::GroupMap;
use log_owner::sending::{push_all, send_hello, send_store};
use log_owner::{Opened, Promised, log_has_room, name_of};
use node_base::{Effects, Maps, has_room, names_known_groups, server_in};
use std::alloc::Global;
use std::mem;
use stripe_cleaner::In;
use version_model::{Act, Answer};
use wire_msg::{Body, DeltaAck, Packet, Stored};
use xfs_base::{BlockId, Crosses, End, Entry, List, Mem, NodeId};

/// What a cleaner has that serves.
pub struct Emptying {
    /// What outlives a crash.
    pub lasting: Lasting,
    /// The maps.
    pub maps: Maps,
    /// The epochs and managers to which the slots are promised.
    pub promised: Promised,
    /// Its log.
    pub log: Log,
    /// The deltas of its log.
    pub feed: Feed,
    /// The job that is under way.
    pub job: Option<Job>,
}

impl Drop for Emptying {
    fn drop(self) {
        drop(self.into_lasting());
    }
}

impl Crosses for Emptying {}

impl Emptying {
    /// A cleaner at the start of a run: its log is empty.
    pub fn start(alloc: Global, lasting: Lasting, managers: u8, groups: GroupMap) -> Mem<Emptying>
        ensures { IfOk result (λ emptying. emptying ≡ emptying_start lasting managers groups) }
    {
        // It is dropped by a call, so that each part of it is dropped in one proof.
        match start_log(alloc, lasting.inc, &groups) {
            Ok((log, feed)) => Ok(Emptying {
                lasting,
                maps: Maps::start(groups),
                promised: Promised::start(managers),
                log,
                feed,
                job: None,
            }),
            Err(error) => {
                drop(groups);
                drop(lasting);
                Err(error)
            }
        }
    }

    /// A cleaner whose log is open again.
    pub fn back(lasting: Lasting, opened: Opened) -> Emptying
        ensures { result ≡ emptying_back lasting opened }
    {
        let (maps, promised, log, feed, chain) = opened.into_parts();
        drop(chain);
        Emptying {
            lasting,
            maps,
            promised,
            log,
            feed,
            job: None,
        }
    }

    /// What outlives a crash; all else is lost.
    pub fn into_lasting(self) -> Lasting
        ensures { result ≡ self.lasting }
    {
        let Emptying {
            lasting,
            maps,
            promised: _,
            log,
            feed,
            job,
        } = self;
        drop(maps);
        drop(log);
        drop(feed);
        drop(job);
        lasting
    }

    /// Whether each counter is at least 65,536 below its end.
    pub fn has_room(&self) -> bool
        ensures { result ≡ emptying_has_room self.now }
    {
        self.lasting.has_room()
            && has_room(self.maps.version)
            && log_has_room(&self.log)
            && self.promised.has_room()
    }

    /// A job of so many segments is to begin. While another item is open it is refused.
    #[tactic(auto, unfolding(crate::specs::EmptyingEvents::on_clean))]
    pub fn on_clean(
        &mut self,
        alloc: Global,
        effects: &mut Effects,
        number: u32,
        count: u32,
    ) -> Mem<()>
        ensures state { OnOk result (self.new ≡ (on_clean self.old number count).state) }
        ensures effects { OnOk result (effects.new ≡ effects.old ++ (on_clean self.old number count).outs) }
    {
        if self.lasting.items.open().is_some() {
            return effects.answer(number, Answer::Busy);
        }
        self.begin_job(alloc, effects, number, count)
    }

    #[tactic(auto, unfolding(crate::specs::EmptyingEvents::begin_job))]
    fn begin_job(
        &mut self,
        alloc: Global,
        effects: &mut Effects,
        number: u32,
        count: u32,
    ) -> Mem<()>
        ensures state { OnOk result (self.new ≡ (begin_job self.old number count).state) }
        ensures effects { OnOk result (effects.new ≡ effects.old ++ (begin_job self.old number count).outs) }
    {
        self.lasting.items.wait(number);
        let job = Job::start(alloc, count)?;
        drop(mem::replace(&mut self.job, Some(job)));
        self.promise_all(alloc, effects)?;
        self.clean(alloc, effects, In::Tick)
    }

    // The job is told what each slot is promised to.
    #[tactic(auto, unfolding(crate::specs::EmptyingEvents::promise_all))]
    fn promise_all(&mut self, alloc: Global, effects: &mut Effects) -> Mem<()>
        ensures state { OnOk result (self.new ≡ (promise_all self.old).state) }
        ensures effects { OnOk result (effects.new ≡ effects.old ++ (promise_all self.old).outs) }
    {
        for slot in 0..8_u8 {
            self.promise_slot(alloc, effects, slot)?;
        }
        Ok(())
    }

    #[tactic(auto, unfolding(crate::specs::EmptyingEvents::promise_slot))]
    fn promise_slot(&mut self, alloc: Global, effects: &mut Effects, slot: u8) -> Mem<()>
        ensures state { OnOk result (self.new ≡ (promise_slot self.old slot).state) }
        ensures effects { OnOk result (effects.new ≡ effects.old ++ (promise_slot self.old slot).outs) }
    {
        let epoch = self.promised.epoch(slot);
        self.clean(alloc, effects, In::Promise { slot, epoch })
    }

    /// Takes a packet. One that names a group that isn't known is dropped, and the maps are asked for.
    #[tactic(auto, unfolding(crate::specs::EmptyingEvents::on_packet))]
    pub fn on_packet(&mut self, alloc: Global, effects: &mut Effects, packet: &Packet) -> Mem<()>
        ensures state { OnOk result (self.new ≡ (on_packet self.old packet.now).state) }
        ensures effects { OnOk result (effects.new ≡ effects.old ++ (on_packet self.old packet.now).outs) }
    {
        if names_known_groups(&self.maps, &packet.body) {
            self.on_body(alloc, effects, packet.from, &packet.body)
        } else {
            self.ask_for_maps(effects)
        }
    }

    fn ask_for_maps(&mut self, effects: &mut Effects) -> Mem<()>
        ensures state { OnOk result (self.new ≡ (ask_for_maps self.old).state) }
        ensures effects { OnOk result (effects.new ≡ effects.old ++ (ask_for_maps self.old).outs) }
    {
        let ask = self.lasting.questions.draw();
        send_hello(effects, self.lasting.inc, ask)
    }

    fn on_body(
        &mut self,
        alloc: Global,
        effects: &mut Effects,
        from: NodeId,
        body: &Body,
    ) -> Mem<()>
        ensures state { OnOk result (self.new ≡ (on_body self.old from body.now).state) }
        ensures effects { OnOk result (effects.new ≡ effects.old ++ (on_body self.old from body.now).outs) }
    {
        match body {
            Body::MapNews(news) => self.on_news(alloc, effects, news),
            Body::Welcome(welcome) => self.on_welcome(alloc, effects, welcome),
            Body::Poll(poll) => self.on_poll(alloc, effects, from, *poll),
            Body::DeltaAck(ack) => self.on_ack(alloc, *ack),
            Body::Stored(stored) => self.on_stored(alloc, effects, *stored),
            Body::Listed(listed) => self.on_listed(alloc, effects, server_in(from), listed),
            Body::Usage(usage) => self.on_usage(alloc, effects, usage),
            Body::Fragment(found) => self.on_found(alloc, effects, server_in(from), found),
            Body::Missing(missing) => self.on_missing(alloc, effects, server_in(from), *missing),
            Body::Live(live) => self.on_live(alloc, effects, *live),
            Body::Dead(dead) => self.on_dead(alloc, effects, *dead),
            Body::Deleted(deleted) => self.on_deleted(alloc, effects, server_in(from), *deleted),
            _ => Ok(()),
        }
    }

    /// Time passes: what is awaited is asked for again.
    #[tactic(auto, unfolding(crate::specs::EmptyingEvents::on_tick))]
    pub fn on_tick(&mut self, alloc: Global, effects: &mut Effects) -> Mem<()>
        ensures state { OnOk result (self.new ≡ (on_tick self.old).state) }
        ensures effects { OnOk result (effects.new ≡ effects.old ++ (on_tick self.old).outs) }
    {
        self.clean(alloc, effects, In::Tick)?;
        self.write(alloc, effects, client_log::In::Tick)?;
        self.push_all(alloc, effects)
    }

    /// Tells each slot's manager what it has not acknowledged of the log.
    pub fn push_all(&mut self, alloc: Global, effects: &mut Effects) -> Mem<()>
        ensures state { OnOk result (self.new ≡ self.old) }
        ensures effects { OnOk result (effects.new ≡ effects.old ++ push_all self.old.promised.managers self.old.feed) }
    {
        push_all(alloc, effects, &mut self.feed, self.promised.managers)
    }

    // A manager has applied the log.
    #[tactic(auto, unfolding(crate::specs::EmptyingEvents::on_ack))]
    fn on_ack(&mut self, alloc: Global, ack: DeltaAck) -> Mem<()>
        ensures state { OnOk result (self.new ≡ (on_ack self.old ack).state) }
        ensures silent { (on_ack self.old ack).outs ≡ [] }
    {
        if self.promised.epoch(ack.slot) != ack.epoch {
            return Ok(());
        }
        let given = delta_feed::In::Ack {
            slot: ack.slot,
            applied: ack.applied,
        };
        let _outs = self.feed.take(alloc, given)?;
        Ok(())
    }

    // A server holds a fragment of the segment in flight.
    fn on_stored(&mut self, alloc: Global, effects: &mut Effects, stored: Stored) -> Mem<()>
        ensures state { OnOk result (self.new ≡ (on_stored self.old stored).state) }
        ensures effects { OnOk result (effects.new ≡ effects.old ++ (on_stored self.old stored).outs) }
    {
        let given = client_log::In::Acked {
            name: stored.name,
            index: stored.index,
            generation: stored.generation,
        };
        self.write(alloc, effects, given)
    }

    /// Hands the log an input, and does what it says.
    #[tactic(auto, unfolding(crate::specs::EmptyingEvents::emptying_write))]
    pub(crate) fn write(
        &mut self,
        alloc: Global,
        effects: &mut Effects,
        given: client_log::In,
    ) -> Mem<()>
        ensures state { OnOk result (self.new ≡ (emptying_write self.old given).state) }
        ensures effects { OnOk result (effects.new ≡ effects.old ++ (emptying_write self.old given).outs) }
    {
        let outs = self.log.take(alloc, given)?;
        self.write_all(alloc, effects, outs)
    }

    fn write_all(
        &mut self,
        alloc: Global,
        effects: &mut Effects,
        outs: List<client_log::Out>,
    ) -> Mem<()>
        ensures state { OnOk result (self.new ≡ (steps write_one self.old outs).state) }
        ensures effects { OnOk result (effects.new ≡ effects.old ++ (steps write_one self.old outs).outs) }
    {
        for out in outs.into_vec() {
            self.write_one(alloc, effects, out)?;
        }
        Ok(())
    }

    #[tactic(auto, unfolding(crate::specs::EmptyingEvents::write_one))]
    fn write_one(&mut self, alloc: Global, effects: &mut Effects, out: client_log::Out) -> Mem<()>
        ensures state { OnOk result (self.new ≡ (write_one self.old out).state) }
        ensures effects { OnOk result (effects.new ≡ effects.old ++ (write_one self.old out).outs) }
    {
        match out {
            client_log::Out::Send { fragment, member } => send_store(effects, fragment, member),
            client_log::Out::Settled { end, rows } => self.settle(alloc, effects, end, rows),
        }
    }

    // A segment of moved blocks is settled: the managers are told, and the job goes on.
    #[tactic(auto, unfolding(crate::specs::EmptyingEvents::emptying_settle))]
    fn settle(
        &mut self,
        alloc: Global,
        effects: &mut Effects,
        end: End,
        rows: List<(BlockId, Entry)>,
    ) -> Mem<()>
        ensures state { OnOk result (self.new ≡ (emptying_settle self.old end rows).state) }
        ensures effects { OnOk result (effects.new ≡ effects.old ++ (emptying_settle self.old end rows).outs) }
    {
        effects.act(Act::Filed {
            seg: name_of(cleaner_log(), end),
        })?;
        let seq = end.seq;
        let _outs = self
            .feed
            .take(alloc, delta_feed::In::Settled { seq, rows })?;
        self.push_all(alloc, effects)?;
        note_moved(&mut self.job);
        self.clean(alloc, effects, In::Moved)
    }
}
