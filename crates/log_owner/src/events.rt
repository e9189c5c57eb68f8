//! What a packet makes of an opening.
ghost use Rattle.std.specs.Prelude.{◌≡◌, IfOk, OnOk};
ghost use Rattle.log_owner.specs.Opening.{Goes, scans, own_in, on_welcome, on_news, regrouped, on_fenced, is_fenced, on_found, on_missing, on_stored};
ghost use Rattle.log_scan.specs.declared.input.In.TheVariants.{Fenced as Holds, Got};
ghost use Rattle.node_base.specs.Maps.{maps_take};

use crate::known::Known;
use crate::opening::Stage;
use crate::{Opening, Progress};
use client_log::In as LogIn;
use group_map::GroupMap;
use log_scan::In;
use node_base::{Effects, Questions, server_in};
use std::alloc::Global;
use wire_msg::{Fenced, Found, Missing, News, Stored, Welcome};
use xfs_base::{Mem, NodeId};

impl Opening {
    /// The answer to a question.
    #[tactic(auto, unfolding(crate::specs::Opening::on_welcome))]
    pub(crate) fn on_welcome(
        self,
        alloc: Global,
        effects: &mut Effects,
        questions: &mut Questions,
        welcome: &Welcome,
    ) -> Mem<Progress>
        ensures { Goes result questions.new effects.old effects.new (on_welcome self questions.old welcome.now) }
    {
        let (known, stage) = self.into_parts();
        match stage {
            Stage::Scanning(scanning) => {
                known.on_welcome(alloc, effects, questions, scanning, welcome)
            }
            Stage::Settling(settling) => Ok(known.settling(settling)),
        }
    }

    /// Newer maps: their groups alone are taken.
    #[tactic(auto, unfolding(crate::specs::Opening::on_news))]
    pub(crate) fn on_news(
        self,
        alloc: Global,
        effects: &mut Effects,
        questions: &mut Questions,
        news: &News,
    ) -> Mem<Progress>
        ensures { Goes result questions.new effects.old effects.new (on_news self questions.old news.now) }
    {
        if !self.known.maps.fits(news) || !self.known.maps.is_older(news) {
            return Ok(Progress::Opening(self));
        }
        let (mut known, stage) = self.into_parts();
        match known.regroup_maps(alloc, news) {
            Ok(groups) => known.regroup(alloc, effects, questions, stage, groups),
            Err(error) => {
                drop(known);
                drop(stage);
                Err(error)
            }
        }
    }

    /// What a server holds of the log, in answer to the fence of this incarnation.
    #[tactic(auto, unfolding(crate::specs::Opening::on_fenced))]
    pub(crate) fn on_fenced(
        self,
        alloc: Global,
        effects: &mut Effects,
        questions: &mut Questions,
        from: NodeId,
        fenced: &Fenced,
    ) -> Mem<Progress>
        ensures { Goes result questions.new effects.old effects.new (on_fenced self questions.old from fenced.now) }
    {
        match server_in(from) {
            None => Ok(Progress::Opening(self)),
            Some(server) => {
                if !self.is_fenced(fenced) {
                    return Ok(Progress::Opening(self));
                }
                self.fenced(alloc, effects, questions, server, fenced)
            }
        }
    }

    // The scan gets what a server holds.
    fn fenced(
        self,
        alloc: Global,
        effects: &mut Effects,
        questions: &mut Questions,
        server: u8,
        fenced: &Fenced,
    ) -> Mem<Progress>
        ensures { Goes result questions.new effects.old effects.new (scans self questions.old (Holds server fenced.now.generation fenced.now.held)) }
    {
        let generation = fenced.generation;
        match fenced.held.copy(alloc) {
            Ok(held) => {
                let input = In::Fenced {
                    server,
                    generation,
                    held,
                };
                self.scan(alloc, effects, questions, input)
            }
            Err(error) => {
                drop(self);
                Err(error)
            }
        }
    }

    fn is_fenced(&self, fenced: &Fenced) -> bool
        ensures { result ≡ is_fenced self.now fenced.now }
    {
        fenced.log == self.known.owner.log && fenced.pass == self.known.owner.fence()
    }

    /// A fragment, in answer to a fetch.
    #[tactic(auto, unfolding(crate::specs::Opening::on_found))]
    pub(crate) fn on_found(
        self,
        alloc: Global,
        effects: &mut Effects,
        questions: &mut Questions,
        from: NodeId,
        found: &Found,
    ) -> Mem<Progress>
        ensures { Goes result questions.new effects.old effects.new (on_found self questions.old from found.now) }
    {
        match server_in(from) {
            None => Ok(Progress::Opening(self)),
            Some(server) => match self.own(found.ask) {
                None => Ok(Progress::Opening(self)),
                Some(ask) => self.found(alloc, effects, questions, server, ask, found),
            },
        }
    }

    // The scan gets the fragment that it awaits.
    fn found(
        self,
        alloc: Global,
        effects: &mut Effects,
        questions: &mut Questions,
        server: u8,
        ask: u32,
        found: &Found,
    ) -> Mem<Progress>
        ensures { Goes result questions.new effects.old effects.new (scans self questions.old (Got ask server found.now.generation found.now.fragment)) }
    {
        let generation = found.generation;
        match found.fragment.copy(alloc) {
            Ok(fragment) => {
                let input = In::Got {
                    ask,
                    server,
                    generation,
                    fragment,
                };
                self.scan(alloc, effects, questions, input)
            }
            Err(error) => {
                drop(self);
                Err(error)
            }
        }
    }

    /// A server lacks a segment, in answer to a fetch.
    #[tactic(auto, unfolding(crate::specs::Opening::on_missing))]
    pub(crate) fn on_missing(
        self,
        alloc: Global,
        effects: &mut Effects,
        questions: &mut Questions,
        from: NodeId,
        missing: &Missing,
    ) -> Mem<Progress>
        ensures { Goes result questions.new effects.old effects.new (on_missing self questions.old from missing.now) }
    {
        match server_in(from) {
            None => Ok(Progress::Opening(self)),
            Some(server) => match self.own(missing.ask) {
                None => Ok(Progress::Opening(self)),
                Some(ask) => {
                    let input = In::Missing {
                        ask,
                        server,
                        generation: missing.generation,
                    };
                    self.scan(alloc, effects, questions, input)
                }
            },
        }
    }

    /// A server holds a fragment of the first segment.
    #[tactic(auto, unfolding(crate::specs::Opening::on_stored))]
    pub(crate) fn on_stored(
        self,
        alloc: Global,
        effects: &mut Effects,
        questions: &mut Questions,
        stored: &Stored,
    ) -> Mem<Progress>
        ensures { Goes result questions.new effects.old effects.new (on_stored self questions.old stored.now) }
    {
        let (known, stage) = self.into_parts();
        match stage {
            Stage::Scanning(scanning) => Ok(known.scanning(scanning)),
            Stage::Settling(settling) => {
                let input = LogIn::Acked {
                    name: stored.name,
                    index: stored.index,
                    generation: stored.generation,
                };
                known.write(alloc, effects, settling, input)
            }
        }
    }

    // The scan's number of a question of the node; none where it isn't awaited.
    fn own(&self, ask: u32) -> Option<u32>
        ensures { result ≡ own_in self.now.stage ask }
    {
        match &self.stage {
            Stage::Scanning(scanning) => scanning.asked.own(ask),
            Stage::Settling(_) => None,
        }
    }

    // The scan takes an input. Once the first segment is in flight it is over.
    fn scan(
        self,
        alloc: Global,
        effects: &mut Effects,
        questions: &mut Questions,
        input: In,
    ) -> Mem<Progress>
        ensures { Goes result questions.new effects.old effects.new (scans self questions.old input) }
    {
        let (known, stage) = self.into_parts();
        match stage {
            Stage::Scanning(scanning) => known.scan(alloc, effects, questions, scanning, input),
            Stage::Settling(settling) => Ok(known.settling(settling)),
        }
    }
}

impl Known {
    // The groups of newer maps are taken; a copy of them.
    fn regroup_maps(&mut self, alloc: Global, news: &News) -> Mem<GroupMap>
        ensures known { OnOk result (self.new ≡ record self.old { maps = maps_take self.old.maps news.now }) }
        ensures groups { IfOk result (λ groups. groups ≡ news.now.groups) }
    {
        let _newer = self.maps.take(alloc, news)?;
        news.groups.copy(alloc)
    }

    // The scan, or the log, takes newer groups.
    fn regroup(
        self,
        alloc: Global,
        effects: &mut Effects,
        questions: &mut Questions,
        stage: Stage,
        groups: GroupMap,
    ) -> Mem<Progress>
        ensures { Goes result questions.new effects.old effects.new (regrouped self questions.old groups stage) }
    {
        match stage {
            Stage::Scanning(scanning) => {
                self.scan(alloc, effects, questions, scanning, In::Maps(groups))
            }
            Stage::Settling(settling) => {
                self.write(alloc, effects, settling, LogIn::Maps(groups))
            }
        }
    }
}
