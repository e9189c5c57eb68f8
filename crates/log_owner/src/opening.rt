//! Opening a log again.
ghost use Rattle.std.specs.Prelude.{◌≡◌, ◌++◌, IfOk, OnOk};
ghost use Rattle.node_base.specs.Room.{has_room};
ghost use Rattle.log_owner.specs.Opening.{Goes, at_first, on_start, opening_take, on_body, on_tick, opening_has_room, stage_has_room, log_has_room, attempt_of};

use crate::ended::send_scanned;
use crate::known::Known;
use crate::sending::send_hello;
use crate::{Owner, Progress, Promised};
use client_log::Log;
use log_scan::{In, Scan};
use node_base::{Asked, Effects, Maps, Questions, has_room, names_known_groups};
use segment_format::Segment;
use std::alloc::Global;
use wire_msg::{Body, Packet};
use xfs_base::{List, Mem, NodeId};

/// How far an opening is.
#[derive(Drop)]
pub enum Stage {
    /// The servers are asked what they hold of the log, and the chain is read.
    Scanning(Scanning),
    /// The first segment of the new incarnation is in flight, behind the chain.
    Settling(Settling),
}

/// The scan, and the question of the node under which its newest question is out.
#[derive(Drop)]
pub struct Scanning {
    /// The scan.
    pub scan: Scan,
    /// The question.
    pub asked: Asked,
}

/// The log with its first segment of this incarnation in flight.
#[derive(Drop)]
pub struct Settling {
    /// The log.
    pub log: Log,
    /// The segments before it, in rising order.
    pub chain: List<Segment>,
    /// The horizon of the log: nothing with a lower number is needed.
    pub low: u32,
}

/// A log that its owner opens again after a restart (the 1996 paper, "Recovery and Reconfiguration").
pub struct Opening {
    /// What is known.
    pub known: Known,
    /// How far it is.
    pub stage: Stage,
}

impl Drop for Opening {
    fn drop(self) {
        let Opening { known, stage } = self;
        drop(known);
        drop(stage);
    }
}

impl Opening {
    /// Asks the registry for the maps, under a new question. Nothing is known yet.
    pub fn start(
        alloc: Global,
        effects: &mut Effects,
        questions: &mut Questions,
        owner: Owner,
        servers: u8,
    ) -> Mem<Opening>
        ensures opening { IfOk result (λ opening. opening ≡ at_first owner servers questions.old) }
        ensures questions { OnOk result (questions.new ≡ (on_start owner servers questions.old).questions) }
        ensures effects { OnOk result (effects.new ≡ effects.old ++ (on_start owner servers questions.old).effects) }
    {
        let mut scan = Scan::start(alloc, owner.log, owner.inc)?;
        let outs = scan.take(alloc, In::Tick)?;
        let sent = send_scanned(effects, owner, scan.low(), Asked::new(), *questions, outs)?;
        *questions = sent.questions;
        Ok(Opening {
            known: Known {
                owner,
                maps: Maps::forgotten(servers),
                promised: Promised::start(1),
            },
            stage: Stage::Scanning(Scanning {
                scan,
                asked: sent.asked,
            }),
        })
    }

    /// Whether each counter is at least 65,536 below its end. The questions of the scan are fewer than those of the node.
    pub fn has_room(&self) -> bool
        ensures { result ≡ opening_has_room self.now }
    {
        has_room(self.known.maps.version)
            && self.known.promised.has_room()
            && stage_has_room(&self.stage)
    }

    // What is known, and how far it is.
    pub(crate) fn into_parts(self) -> (Known, Stage)
        ensures { result ≡ (self.known, self.stage) }
    {
        let Opening { known, stage } = self;
        (known, stage)
    }

    /// Takes a packet. One that names a group that isn't known is dropped, and the maps are asked for.
    #[tactic(auto, unfolding(crate::specs::Opening::opening_take))]
    pub fn take(
        self,
        alloc: Global,
        effects: &mut Effects,
        questions: &mut Questions,
        packet: &Packet,
    ) -> Mem<Progress>
        ensures progress { IfOk result (λ progress. progress ≡ (opening_take self questions.old packet.now).progress) }
        ensures questions { OnOk result (questions.new ≡ (opening_take self questions.old packet.now).questions) }
        ensures effects { OnOk result (effects.new ≡ effects.old ++ (opening_take self questions.old packet.now).effects) }
    {
        if names_known_groups(&self.known.maps, &packet.body) {
            return self.hears(alloc, effects, questions, packet.from, &packet.body);
        }
        match send_hello(effects, self.known.owner.inc, questions.draw()) {
            Ok(()) => Ok(Progress::Opening(self)),
            Err(error) => {
                drop(self);
                Err(error)
            }
        }
    }

    #[tactic(auto, unfolding(crate::specs::Opening::on_body))]
    fn hears(
        self,
        alloc: Global,
        effects: &mut Effects,
        questions: &mut Questions,
        from: NodeId,
        body: &Body,
    ) -> Mem<Progress>
        ensures { Goes result questions.new effects.old effects.new (on_body self questions.old from body.now) }
    {
        match body {
            Body::Welcome(welcome) => self.on_welcome(alloc, effects, questions, welcome),
            Body::MapNews(news) => self.on_news(alloc, effects, questions, news),
            Body::Fenced(fenced) => self.on_fenced(alloc, effects, questions, from, fenced),
            Body::Fragment(found) => self.on_found(alloc, effects, questions, from, found),
            Body::Missing(missing) => self.on_missing(alloc, effects, questions, from, missing),
            Body::Stored(stored) => self.on_stored(alloc, effects, questions, stored),
            _ => Ok(Progress::Opening(self)),
        }
    }

    /// Time passes: what is awaited is asked for again.
    #[tactic(auto, unfolding(crate::specs::Opening::on_tick))]
    pub fn tick(
        self,
        alloc: Global,
        effects: &mut Effects,
        questions: &mut Questions,
    ) -> Mem<Progress>
        ensures progress { IfOk result (λ progress. progress ≡ (on_tick self questions.old).progress) }
        ensures questions { OnOk result (questions.new ≡ (on_tick self questions.old).questions) }
        ensures effects { OnOk result (effects.new ≡ effects.old ++ (on_tick self questions.old).effects) }
    {
        let (known, stage) = self.into_parts();
        match stage {
            Stage::Scanning(scanning) => known.scan(alloc, effects, questions, scanning, In::Tick),
            Stage::Settling(settling) => {
                known.write(alloc, effects, settling, client_log::In::Tick)
            }
        }
    }
}

fn stage_has_room(stage: &Stage) -> bool
    ensures { result ≡ stage_has_room stage.now }
{
    match stage {
        Stage::Scanning(_) => true,
        Stage::Settling(settling) => log_has_room(&settling.log),
    }
}

/// Whether each counter of a log is at least 65,536 below its end: the number of its newest segment, and the
/// attempt of the one in flight.
pub fn log_has_room(log: &Log) -> bool
    ensures { result ≡ log_has_room log.now }
{
    has_room(log.end().seq) && attempt_has_room(log)
}

fn attempt_has_room(log: &Log) -> bool
    ensures { result ≡ has_room (attempt_of log.now.flight) }
{
    match log.flight() {
        Some(segment) => has_room(segment.name.pass.att),
        None => true,
    }
}
