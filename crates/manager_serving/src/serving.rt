//! A manager that serves.
ghost use Rattle.std.specs.Prelude.{◌≡◌, ◌++◌, ◌≤◌, IfOk, OnOk};
ghost use Rattle.segment_format.specs.Format.{IsLog};
ghost use Rattle.checkpoint.specs.Transition as writers;
ghost use Rattle.client_log.specs.LogState as logs;
ghost use Rattle.manager_slots.specs.SlotTable as tables;
ghost use Rattle.manager_serving.specs.Serving.{no_end, serving_begin, serving_start, again, serving_has_room, on_want, on_gave, on_deltas, on_check, on_usage_ask, serving_take, on_report, fetch_of, on_found, on_missing, regroups, hear_slots, on_newer, on_news, on_fitting_news, on_welcome, ask_for_maps, on_body, serving_hear, recalls_again, serving_ask_again, on_tick};

use crate::checkpointing::Checkpointing;
use crate::senders::{client_in, fed_log};
use checkpoint::Writer;
use client_log::Log;
use group_map::GroupMap;
use log_owner::log_has_room;
use log_owner::sending::send_hello;
use manager_slots::{Ears, Lasting, SlotTable};
use node_base::{Effects, Maps, has_room, names_known_groups, server_in};
use std::alloc::Global;
use takeover::In;
use wire_msg::{Body, Found, Missing, News, Packet, Report, Welcome};
use xfs_base::{End, LogId, Mem, NodeId, SlotNews};

/// What a manager has that serves: it lasts from the start of a run, or from the Welcome of its boot, to its
/// crash.
pub struct Serving {
    /// What outlives a crash.
    pub lasting: Lasting,
    /// The maps.
    pub maps: Maps,
    /// The slots 0 to 7.
    pub slots: SlotTable,
    /// The log to which checkpoints are written.
    pub log: Log,
    /// What writes them.
    pub writer: Writer,
    /// How many checkpoints of slots the registry was told of.
    pub dones: u32,
    /// The checkpoint that is under way.
    pub checkpoint: Option<Checkpointing>,
}

impl Drop for Serving {
    fn drop(self) {
        drop(self.into_lasting());
    }
}

impl Serving {
    /// What outlives a crash; all else is lost.
    pub fn into_lasting(self) -> Lasting
        ensures { result ≡ self.lasting }
    {
        let Serving {
            lasting,
            maps,
            slots,
            log,
            writer,
            dones: _,
            checkpoint,
        } = self;
        drop(maps);
        drop(slots);
        drop(log);
        drop(writer);
        drop(checkpoint);
        lasting
    }

    /// A manager at the start of a run: it manages its slots, in which nothing has happened.
    pub fn start(alloc: Global, lasting: Lasting, managers: u8, groups: GroupMap) -> Mem<Serving>
        requires { 1 ≤ managers }
        ensures { IfOk result (λ serving. serving ≡ serving_start lasting managers groups) }
    {
        match first_slots(alloc, lasting.number, managers, &groups) {
            Ok((slots, copy)) => {
                Serving::begin(alloc, lasting, Maps::start(copy), slots, groups)
            }
            Err(error) => {
                drop(lasting);
                drop(groups);
                Err(error)
            }
        }
    }

    /// A manager that has started again and is about to take these groups: it knows nothing of any slot.
    pub fn again(alloc: Global, lasting: Lasting, maps: Maps, groups: GroupMap) -> Mem<Serving>
        ensures { IfOk result (λ serving. serving ≡ again lasting maps groups) }
    {
        match SlotTable::unknown(alloc) {
            Ok(slots) => Serving::begin(alloc, lasting, maps, slots, groups),
            Err(error) => {
                drop(lasting);
                drop(maps);
                drop(groups);
                Err(error)
            }
        }
    }

    // The log and the checkpoints begin.
    fn begin(
        alloc: Global,
        lasting: Lasting,
        maps: Maps,
        slots: SlotTable,
        groups: GroupMap,
    ) -> Mem<Serving>
        ensures { IfOk result (λ serving. serving ≡ serving_begin lasting maps slots groups) }
    {
        match first_log(alloc, lasting.log(), lasting.inc, groups) {
            Ok((log, writer)) => Ok(Serving {
                lasting,
                maps,
                slots,
                log,
                writer,
                dones: 0,
                checkpoint: None,
            }),
            Err(error) => {
                drop(lasting);
                drop(maps);
                drop(slots);
                Err(error)
            }
        }
    }

    /// Whether each counter is at least 65,536 below its end.
    pub fn has_room(&self) -> bool
        ensures { result ≡ serving_has_room self.now }
    {
        self.lasting.has_room()
            && has_room(self.maps.version)
            && has_room(self.dones)
            && log_has_room(&self.log)
            && self.slots.has_room()
    }

    /// A packet comes. One that names a group that isn't known is dropped, and the maps are asked for.
    #[tactic(auto, unfolding(crate::specs::Serving::serving_hear))]
    pub fn hear(
        &mut self,
        alloc: Global,
        effects: &mut Effects,
        clients: u8,
        packet: &Packet,
    ) -> Mem<()>
        ensures state { OnOk result (self.new ≡ (serving_hear self.old clients packet.now).state) }
        ensures effects { OnOk result (effects.new ≡ effects.old ++ (serving_hear self.old clients packet.now).outs) }
    {
        if names_known_groups(&self.maps, &packet.body) {
            self.on_body(alloc, effects, clients, packet.from, &packet.body)
        } else {
            self.ask_for_maps(effects)
        }
    }

    #[tactic(auto, unfolding(crate::specs::Serving::ask_for_maps))]
    fn ask_for_maps(&mut self, effects: &mut Effects) -> Mem<()>
        ensures state { OnOk result (self.new ≡ (ask_for_maps self.old).state) }
        ensures effects { OnOk result (effects.new ≡ effects.old ++ (ask_for_maps self.old).outs) }
    {
        let ask = self.lasting.questions.draw();
        send_hello(effects, self.lasting.inc, ask)
    }

    #[tactic(auto, unfolding(crate::specs::Serving::on_want, crate::specs::Serving::on_gave, crate::specs::Serving::on_deltas, crate::specs::Serving::on_check, crate::specs::Serving::on_usage_ask))]
    fn on_body(
        &mut self,
        alloc: Global,
        effects: &mut Effects,
        clients: u8,
        from: NodeId,
        body: &Body,
    ) -> Mem<()>
        ensures state { OnOk result (self.new ≡ (on_body self.old clients from body.now).state) }
        ensures effects { OnOk result (effects.new ≡ effects.old ++ (on_body self.old clients from body.now).outs) }
    {
        match body {
            Body::MapNews(news) => self.on_fitting_news(alloc, effects, clients, news),
            Body::Welcome(welcome) => self.on_welcome(alloc, effects, clients, welcome),
            Body::Want(want) => match client_in(from) {
                Some(client) => self.slots.on_want(alloc, effects, client, *want),
                None => Ok(()),
            },
            Body::Gave(gave) => match client_in(from) {
                Some(client) => self.slots.on_gave(alloc, effects, client, *gave),
                None => Ok(()),
            },
            Body::Deltas(deltas) => match fed_log(from) {
                Some(log) => self.slots.on_deltas(alloc, effects, log, deltas),
                None => Ok(()),
            },
            Body::Check(check) => self.slots.on_check(alloc, effects, *check),
            Body::UsageAsk(asked) => self.slots.on_usage_ask(alloc, effects, *asked),
            Body::Report(report) => self.on_report(alloc, effects, from, report),
            Body::Fragment(found) => self.on_found(alloc, effects, server_in(from), found),
            Body::Missing(missing) => self.on_missing(alloc, effects, server_in(from), *missing),
            Body::Stored(stored) => self.on_stored(alloc, effects, *stored),
            Body::CkptAck(ack) => self.on_ckpt_ack(alloc, effects, *ack),
            _ => Ok(()),
        }
    }

    // The registry answers a Hello of this incarnation.
    fn on_welcome(
        &mut self,
        alloc: Global,
        effects: &mut Effects,
        clients: u8,
        welcome: &Welcome,
    ) -> Mem<()>
        ensures state { OnOk result (self.new ≡ (on_welcome self.old clients welcome.now).state) }
        ensures effects { OnOk result (effects.new ≡ effects.old ++ (on_welcome self.old clients welcome.now).outs) }
    {
        if welcome.inc != self.lasting.inc {
            return Ok(());
        }
        self.on_fitting_news(alloc, effects, clients, &welcome.news)
    }

    // The maps come.
    fn on_fitting_news(
        &mut self,
        alloc: Global,
        effects: &mut Effects,
        clients: u8,
        news: &News,
    ) -> Mem<()>
        ensures state { OnOk result (self.new ≡ (on_fitting_news self.old clients news.now).state) }
        ensures effects { OnOk result (effects.new ≡ effects.old ++ (on_fitting_news self.old clients news.now).outs) }
    {
        if !self.maps.fits(news) {
            return Ok(());
        }
        self.on_news(alloc, effects, clients, news)
    }

    #[tactic(auto, unfolding(crate::specs::Serving::on_report))]
    fn on_report(
        &mut self,
        alloc: Global,
        effects: &mut Effects,
        from: NodeId,
        report: &Report,
    ) -> Mem<()>
        ensures state { OnOk result (self.new ≡ (on_report self.old from report.now).state) }
        ensures effects { OnOk result (effects.new ≡ effects.old ++ (on_report self.old from report.now).outs) }
    {
        let questions = &mut self.lasting.questions;
        self.slots
            .on_report(alloc, effects, questions, from, report)
    }

    // A takeover is answered.
    #[tactic(auto, unfolding(crate::specs::Serving::on_found))]
    fn on_found(
        &mut self,
        alloc: Global,
        effects: &mut Effects,
        from: Option<u8>,
        found: &Found,
    ) -> Mem<()>
        ensures state { OnOk result (self.new ≡ (on_found self.old from found.now).state) }
        ensures effects { OnOk result (effects.new ≡ effects.old ++ (on_found self.old from found.now).outs) }
    {
        let Some(server) = from else {
            return Ok(());
        };
        let Some((slot, ask)) = self.slots.fetch_of(found.ask) else {
            return Ok(());
        };
        let input = In::Got {
            ask,
            server,
            generation: found.generation,
            fragment: found.fragment.copy(alloc)?,
        };
        self.take(alloc, effects, slot, input)
    }

    #[tactic(auto, unfolding(crate::specs::Serving::on_missing))]
    fn on_missing(
        &mut self,
        alloc: Global,
        effects: &mut Effects,
        from: Option<u8>,
        missing: Missing,
    ) -> Mem<()>
        ensures state { OnOk result (self.new ≡ (on_missing self.old from missing).state) }
        ensures effects { OnOk result (effects.new ≡ effects.old ++ (on_missing self.old from missing).outs) }
    {
        let Some(server) = from else {
            return Ok(());
        };
        let Some((slot, ask)) = self.slots.fetch_of(missing.ask) else {
            return Ok(());
        };
        let input = In::Missing {
            ask,
            server,
            generation: missing.generation,
        };
        self.take(alloc, effects, slot, input)
    }

    #[tactic(auto, unfolding(crate::specs::Serving::serving_take))]
    fn take(&mut self, alloc: Global, effects: &mut Effects, slot: u8, input: In) -> Mem<()>
        ensures state { OnOk result (self.new ≡ (serving_take self.old slot input).state) }
        ensures effects { OnOk result (effects.new ≡ effects.old ++ (serving_take self.old slot input).outs) }
    {
        let questions = &mut self.lasting.questions;
        self.slots.take(alloc, effects, questions, slot, input)
    }

    /// The maps come, and fit. Where they are newer, all that they say is taken, and else the slots alone: the
    /// groups first, then the slots with a greater epoch in order, then settling is looked at.
    #[tactic(auto, unfolding(crate::specs::Serving::on_news, crate::specs::Serving::on_newer, crate::specs::Serving::regroups))]
    pub fn on_news(
        &mut self,
        alloc: Global,
        effects: &mut Effects,
        clients: u8,
        news: &News,
    ) -> Mem<()>
        ensures state { OnOk result (self.new ≡ (on_news self.old clients news.now).state) }
        ensures effects { OnOk result (effects.new ≡ effects.old ++ (on_news self.old clients news.now).outs) }
    {
        let slots = news.slots.as_slice();
        if !self.maps.take(alloc, news)? {
            return self.hear_slots(alloc, effects, clients, slots);
        }
        let questions = &mut self.lasting.questions;
        self.slots.regroup(alloc, effects, questions, &news.groups)?;
        self.hear_slots(alloc, effects, clients, slots)?;
        let groups = news.groups.copy(alloc)?;
        self.write(alloc, effects, client_log::In::Maps(groups))
    }

    // Slots whose epoch is greater: where the maps give one to this manager it takes it over, and else it
    // leaves it.
    #[tactic(auto, unfolding(crate::specs::Serving::hear_slots))]
    fn hear_slots(
        &mut self,
        alloc: Global,
        effects: &mut Effects,
        clients: u8,
        slots: &[SlotNews],
    ) -> Mem<()>
        ensures state { OnOk result (self.new ≡ (hear_slots self.old clients slots.now).state) }
        ensures effects { OnOk result (effects.new ≡ effects.old ++ (hear_slots self.old clients slots.now).outs) }
    {
        let Some(groups) = &self.maps.groups else {
            return Ok(());
        };
        let ears = Ears {
            number: self.lasting.number,
            clients,
        };
        let questions = &mut self.lasting.questions;
        self.slots
            .hear_each(alloc, effects, questions, ears, groups, slots)
    }

    /// Time passes: what is unanswered is said again, one kind after the other.
    #[tactic(auto, unfolding(crate::specs::Serving::on_tick, crate::specs::Serving::recalls_again))]
    pub fn on_tick(&mut self, alloc: Global, effects: &mut Effects) -> Mem<()>
        ensures state { OnOk result (self.new ≡ (on_tick self.old).state) }
        ensures effects { OnOk result (effects.new ≡ effects.old ++ (on_tick self.old).outs) }
    {
        self.slots.recall_again(alloc, effects)?;
        self.ask_again(alloc, effects, true)?;
        self.ask_again(alloc, effects, false)?;
        self.write(alloc, effects, client_log::In::Tick)?;
        self.tell_again(alloc, effects)
    }

    // The takeovers' polls are sent again, or what else they ask.
    #[tactic(auto, unfolding(crate::specs::Serving::serving_ask_again))]
    fn ask_again(&mut self, alloc: Global, effects: &mut Effects, polls: bool) -> Mem<()>
        ensures state { OnOk result (self.new ≡ (serving_ask_again self.old polls).state) }
        ensures effects { OnOk result (effects.new ≡ effects.old ++ (serving_ask_again self.old polls).outs) }
    {
        let questions = &mut self.lasting.questions;
        self.slots.ask_again(alloc, effects, questions, polls)
    }
}

// The slots at the start of a run, and a copy of the groups.
fn first_slots(
    alloc: Global,
    number: u8,
    managers: u8,
    groups: &GroupMap,
) -> Mem<(SlotTable, GroupMap)>
    requires { 1 ≤ managers }
    ensures slots { IfOk result (λ made. made.0 ≡ tables.slot_table_first number managers) }
    ensures groups { IfOk result (λ made. made.1 ≡ groups.now) }
{
    let slots = SlotTable::first(alloc, number, managers)?;
    match groups.copy(alloc) {
        Ok(copy) => Ok((slots, copy)),
        Err(error) => {
            drop(slots);
            Err(error)
        }
    }
}

// The empty log of an incarnation, and what writes checkpoints to it.
fn first_log(alloc: Global, name: LogId, inc: u32, groups: GroupMap) -> Mem<(Log, Writer)>
    requires { IsLog name.0 }
    ensures log { IfOk result (λ made. made.0 ≡ logs.log_start name inc no_end groups) }
    ensures writer { IfOk result (λ made. made.1 ≡ writers.writer_start name) }
{
    let log = Log::start(alloc, name, inc, End::none(), groups)?;
    match Writer::start(alloc, name) {
        Ok(writer) => Ok((log, writer)),
        Err(error) => {
            drop(log);
            Err(error)
        }
    }
}
