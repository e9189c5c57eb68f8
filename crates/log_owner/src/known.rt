//! What an opening knows, and how it goes on from stage to stage.
ghost use Rattle.std.specs.Prelude.{◌≡◌, ◌++◌, [], IfOk, OnOk};
ghost use Rattle.log_owner.specs.Opening.{Goes, known_scanning, known_settling, behind, nothing_asked, known_go_on, known_open, known_write, send_one, written, scanned, start_log, known_settle, known_follow, scans_on, welcomed, welcomed_in, is_meant};
ghost use Rattle.log_owner.specs.Opened.{feed_of, file_all, names_in};
ghost use Rattle.client_log.specs.declared.input.In.TheVariants.{Parts};
ghost use Rattle.client_log.specs.Transition as log_steps;
ghost use Rattle.log_scan.specs.declared.input.In.TheVariants.{Welcome as Hears};
ghost use Rattle.log_scan.specs.Transition as scan_steps;
ghost use Rattle.node_base.specs.Maps.{maps_take};
ghost use Rattle.segment_format.specs.Format.{IsLog};

use crate::ended::{Chain, Ended, Sent, send_scanned};
use crate::opened::{feed_of, file_all, names_in};
use crate::opening::{Scanning, Settling, Stage};
use crate::sending::send_store;
use crate::{Opened, Opening, Owner, Progress, Promised};
use client_log::{In as LogIn, Log, Out};
use delta_feed::Feed;
use group_map::GroupMap;
use log_scan::{In, Scan};
use node_base::{Asked, Effects, Maps, Questions};
use segment_format::Segment;
use std::alloc::Global;
use wire_msg::{News, Welcome};
use xfs_base::limits::LOG_COUNT;
use xfs_base::{End, List, LogId, Mem, SegName, copy_each};

/// What an opening knows at each stage.
pub struct Known {
    /// The log and the incarnation of its owner.
    pub owner: Owner,
    /// The maps.
    pub maps: Maps,
    /// The epochs and managers in the maps that were asked for last.
    pub promised: Promised,
}

impl Drop for Known {
    fn drop(self) {
        let Known {
            owner: _,
            maps,
            promised: _,
        } = self;
        drop(maps);
    }
}

impl Known {
    /// The chain is read.
    pub(crate) fn scanning(self, scanning: Scanning) -> Progress
        ensures { result ≡ known_scanning self scanning }
    {
        Progress::Opening(Opening {
            known: self,
            stage: Stage::Scanning(scanning),
        })
    }

    /// The first segment is in flight.
    pub(crate) fn settling(self, settling: Settling) -> Progress
        ensures { result ≡ known_settling self settling }
    {
        Progress::Opening(Opening {
            known: self,
            stage: Stage::Settling(settling),
        })
    }

    /// A Welcome comes while the chain is read: it is taken where it is the answer to the question that is
    /// out, in this incarnation.
    pub(crate) fn on_welcome(
        self,
        alloc: Global,
        effects: &mut Effects,
        questions: &mut Questions,
        scanning: Scanning,
        welcome: &Welcome,
    ) -> Mem<Progress>
        ensures { Goes result questions.new effects.old effects.new (welcomed_in self questions.old scanning welcome.now) }
    {
        if !self.is_meant(welcome) {
            return Ok(self.scanning(scanning));
        }
        match scanning.asked.own(welcome.ask) {
            None => Ok(self.scanning(scanning)),
            Some(own) => self.hear(alloc, effects, questions, scanning, &welcome.news, own),
        }
    }

    fn is_meant(&self, welcome: &Welcome) -> bool
        ensures { result ≡ is_meant self.now welcome.now }
    {
        welcome.inc == self.owner.inc && self.maps.fits(&welcome.news)
    }

    // What the maps that were asked for say. Their question is answered.
    #[tactic(auto, unfolding(crate::specs::Opening::welcomed))]
    fn hear(
        self,
        alloc: Global,
        effects: &mut Effects,
        questions: &mut Questions,
        scanning: Scanning,
        news: &News,
        own: u32,
    ) -> Mem<Progress>
        ensures { Goes result questions.new effects.old effects.new (welcomed self questions.old scanning news.now own) }
    {
        let mut known = self;
        match known.take_maps(alloc, news) {
            Ok(None) => Ok(known.scanning(scanning)),
            Ok(Some(groups)) => {
                known.promised = Promised::of(news.slots.as_slice());
                known.hear_slots(alloc, effects, questions, scanning, news, own, groups)
            }
            Err(error) => {
                drop(known);
                drop(scanning);
                Err(error)
            }
        }
    }

    // Takes the maps of news; a copy of the groups that are known then.
    fn take_maps(&mut self, alloc: Global, news: &News) -> Mem<Option<GroupMap>>
        ensures known { OnOk result (self.new ≡ record self.old { maps = maps_take self.old.maps news.now }) }
        ensures groups { IfOk result (λ groups. groups ≡ (maps_take self.old.maps news.now).groups) }
    {
        let _newer = self.maps.take(alloc, news)?;
        self.maps.copy_groups(alloc)
    }

    // The scan hears what the maps say of slots, and their groups.
    fn hear_slots(
        self,
        alloc: Global,
        effects: &mut Effects,
        questions: &mut Questions,
        scanning: Scanning,
        news: &News,
        own: u32,
        groups: GroupMap,
    ) -> Mem<Progress>
        ensures { Goes result questions.new effects.old effects.new (scans_on self questions.old (record scanning { asked = nothing_asked }) (Hears own news.now.slots groups)) }
    {
        let mut scanning = scanning;
        scanning.asked = Asked::new();
        match copy_each(alloc, &news.slots) {
            Ok(news) => {
                let input = In::Welcome {
                    ask: own,
                    news,
                    groups,
                };
                self.scan(alloc, effects, questions, scanning, input)
            }
            Err(error) => {
                drop(self);
                drop(scanning);
                drop(groups);
                Err(error)
            }
        }
    }

    /// Hands the scan an input, and sends what it says.
    #[tactic(auto, unfolding(crate::specs::Opening::scans_on))]
    pub(crate) fn scan(
        self,
        alloc: Global,
        effects: &mut Effects,
        questions: &mut Questions,
        scanning: Scanning,
        input: In,
    ) -> Mem<Progress>
        ensures { Goes result questions.new effects.old effects.new (scans_on self questions.old scanning input) }
    {
        let Scanning { mut scan, asked } = scanning;
        match scan_one(
            alloc, effects, self.owner, &mut scan, asked, *questions, input,
        ) {
            Ok(sent) => {
                let Sent {
                    asked,
                    questions: left,
                    ended,
                } = sent;
                *questions = left;
                self.follow(alloc, effects, Scanning { scan, asked }, ended)
            }
            Err(error) => {
                drop(self);
                drop(scan);
                Err(error)
            }
        }
    }

    // Goes on behind a scan that ended.
    #[tactic(auto, unfolding(crate::specs::Opening::known_follow))]
    fn follow(
        self,
        alloc: Global,
        effects: &mut Effects,
        scanning: Scanning,
        ended: Option<Ended>,
    ) -> Mem<Progress>
        ensures progress { IfOk result (λ progress. progress ≡ (known_follow self scanning ended).state) }
        ensures effects { OnOk result (effects.new ≡ effects.old ++ (known_follow self scanning ended).outs) }
    {
        match ended {
            None => Ok(self.scanning(scanning)),
            Some(Ended::Found(chain)) => self.settle(alloc, effects, scanning, chain),
            Some(Ended::Lost(seg)) => {
                drop(self);
                drop(scanning);
                effects.lose(seg)?;
                Ok(Progress::Lost(seg))
            }
        }
    }

    // Writes the first segment of this incarnation, with no item, behind the chain.
    fn settle(
        self,
        alloc: Global,
        effects: &mut Effects,
        scanning: Scanning,
        chain: Chain,
    ) -> Mem<Progress>
        ensures progress { IfOk result (λ progress. progress ≡ (known_settle self scanning chain).state) }
        ensures effects { OnOk result (effects.new ≡ effects.old ++ (known_settle self scanning chain).outs) }
    {
        match self.maps.copy_groups(alloc) {
            Ok(Some(groups)) => self.start_log(alloc, effects, scanning, chain, groups),
            Ok(None) => {
                drop(chain);
                Ok(self.scanning(scanning))
            }
            Err(error) => {
                drop(self);
                drop(scanning);
                drop(chain);
                Err(error)
            }
        }
    }

    fn start_log(
        self,
        alloc: Global,
        effects: &mut Effects,
        scanning: Scanning,
        chain: Chain,
        groups: GroupMap,
    ) -> Mem<Progress>
        ensures progress { IfOk result (λ progress. progress ≡ (start_log self scanning chain groups).state) }
        ensures effects { OnOk result (effects.new ≡ effects.old ++ (start_log self scanning chain groups).outs) }
    {
        let log = self.owner.log;
        if log.0 < 1 || LOG_COUNT < log.0 {
            drop(chain);
            drop(groups);
            return Ok(self.scanning(scanning));
        }
        drop(scanning);
        self.begin_log(alloc, effects, chain, groups)
    }

    fn begin_log(
        self,
        alloc: Global,
        effects: &mut Effects,
        chain: Chain,
        groups: GroupMap,
    ) -> Mem<Progress>
        requires log { IsLog self.owner.log.0 }
        ensures progress { IfOk result (λ progress. progress ≡ (known_write self (behind self chain groups) (Parts [])).state) }
        ensures effects { OnOk result (effects.new ≡ effects.old ++ (known_write self (behind self chain groups) (Parts [])).outs) }
    {
        let Chain { segments, end, low } = chain;
        match Log::start(alloc, self.owner.log, self.owner.inc, end, groups) {
            Ok(log) => {
                let settling = Settling {
                    log,
                    chain: segments,
                    low,
                };
                self.write(alloc, effects, settling, LogIn::Parts(List::new(alloc)))
            }
            Err(error) => {
                drop(self);
                drop(segments);
                Err(error)
            }
        }
    }

    /// Hands the log an input, and sends what it says. Once the first segment is settled the log is open.
    #[tactic(auto, unfolding(crate::specs::Opening::known_write))]
    pub(crate) fn write(
        self,
        alloc: Global,
        effects: &mut Effects,
        settling: Settling,
        input: LogIn,
    ) -> Mem<Progress>
        ensures progress { IfOk result (λ progress. progress ≡ (known_write self settling input).state) }
        ensures effects { OnOk result (effects.new ≡ effects.old ++ (known_write self settling input).outs) }
    {
        let Settling {
            mut log,
            chain,
            low,
        } = settling;
        match write_one(alloc, effects, &mut log, input) {
            Ok(settled) => self.go_on(alloc, effects, Settling { log, chain, low }, settled),
            Err(error) => {
                drop(self);
                drop(log);
                drop(chain);
                Err(error)
            }
        }
    }

    fn go_on(
        self,
        alloc: Global,
        effects: &mut Effects,
        settling: Settling,
        settled: Option<End>,
    ) -> Mem<Progress>
        ensures progress { IfOk result (λ progress. progress ≡ (known_go_on self settling settled).state) }
        ensures effects { OnOk result (effects.new ≡ effects.old ++ (known_go_on self settling settled).outs) }
    {
        match settled {
            None => Ok(self.settling(settling)),
            Some(end) => {
                let opened = self.open(alloc, effects, settling, end)?;
                Ok(Progress::Opened(opened))
            }
        }
    }

    // The log is open: its segments are filed, and fed to the managers from the least horizon on.
    fn open(self, alloc: Global, effects: &mut Effects, settling: Settling, end: End) -> Mem<Opened>
        ensures opened { IfOk result (λ whole. whole ≡ known_open self settling end) }
        ensures effects { OnOk result (effects.new ≡ effects.old ++ file_all self.owner.log settling.chain end) }
    {
        let Settling { log, chain, low } = settling;
        let told = tell_opened(alloc, effects, self.owner.log, low, chain.as_slice(), end);
        drop(chain);
        match told {
            Ok((feed, names)) => {
                let Known {
                    owner: _,
                    maps,
                    promised,
                } = self;
                Ok(Opened {
                    maps,
                    promised,
                    log,
                    feed,
                    chain: names,
                })
            }
            Err(error) => {
                drop(self);
                drop(log);
                Err(error)
            }
        }
    }
}

// Files the segments of a log that is open; its feed, and the names of the segments that were found.
fn tell_opened(
    alloc: Global,
    effects: &mut Effects,
    log: LogId,
    low: u32,
    segments: &[Segment],
    end: End,
) -> Mem<(Feed, List<SegName>)>
    ensures feed { IfOk result (λ told. told.0 ≡ feed_of low segments.now end) }
    ensures names { IfOk result (λ told. told.1 ≡ names_in segments.now) }
    ensures effects { OnOk result (effects.new ≡ effects.old ++ file_all log segments.now end) }
{
    file_all(effects, log, segments, end)?;
    let feed = feed_of(alloc, low, segments, end)?;
    match names_in(alloc, segments) {
        Ok(names) => Ok((feed, names)),
        Err(error) => {
            drop(feed);
            Err(error)
        }
    }
}

/// The scan of a log takes an input, and what it says is sent.
pub(crate) fn scan_one(
    alloc: Global,
    effects: &mut Effects,
    owner: Owner,
    scan: &mut Scan,
    asked: Asked,
    questions: Questions,
    input: In,
) -> Mem<Sent>
    ensures scan { OnOk result (scan.new ≡ (scan_steps.transition scan.old input).state) }
    ensures sent { IfOk result (λ sent. sent ≡ (scanned owner scan.new.opening.low asked questions (scan_steps.transition scan.old input).outs).state) }
    ensures effects { OnOk result
        (effects.new ≡ effects.old ++ (scanned owner scan.new.opening.low asked questions (scan_steps.transition scan.old input).outs).outs) }
{
    let outs = scan.take(alloc, input)?;
    send_scanned(effects, owner, scan.low(), asked, questions, outs)
}

// A log takes an input, and what it says is sent; the end of the log, where a segment is settled.
fn write_one(alloc: Global, effects: &mut Effects, log: &mut Log, input: LogIn) -> Mem<Option<End>>
    ensures log { OnOk result (log.new ≡ (log_steps.transition log.old input).state) }
    ensures settled { IfOk result (λ settled. settled ≡ (written (log_steps.transition log.old input).outs).state) }
    ensures effects { OnOk result (effects.new ≡ effects.old ++ (written (log_steps.transition log.old input).outs).outs) }
{
    let outs = log.take(alloc, input)?;
    send_written(effects, outs)
}

// Sends what the log says, in order; the end of the log, where a segment is settled.
fn send_written(effects: &mut Effects, outs: List<Out>) -> Mem<Option<End>>
    ensures settled { IfOk result (λ settled. settled ≡ (written outs).state) }
    ensures effects { OnOk result (effects.new ≡ effects.old ++ (written outs).outs) }
{
    let mut settled = None;
    for out in outs.into_vec() {
        settled = send_one(effects, settled, out)?;
    }
    Ok(settled)
}

#[tactic(auto, unfolding(crate::specs::Opening::send_one))]
fn send_one(effects: &mut Effects, before: Option<End>, out: Out) -> Mem<Option<End>>
    ensures settled { IfOk result (λ settled. settled ≡ (send_one before out).state) }
    ensures effects { OnOk result (effects.new ≡ effects.old ++ (send_one before out).outs) }
{
    match out {
        Out::Send { fragment, member } => {
            send_store(effects, fragment, member)?;
            Ok(before)
        }
        Out::Settled { end, .. } => Ok(Some(end)),
    }
}
