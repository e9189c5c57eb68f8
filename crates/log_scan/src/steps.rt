//! What an opening does at each input.
ghost use Rattle.std.specs.Prelude.{◌≡◌, ◌++◌, ◌∷◌, [], ◌<◌, IfOk, OnOk, Some};
ghost use Rattle.xfs_base.specs.Limits.{u32_end};
ghost use Rattle.log_scan.specs.declared.output.Out.TheVariants.{Hello};
ghost use Rattle.log_scan.specs.Transition.{fences, opening_gather, opening_pick, opening_welcome, on_welcome, with_list, opening_list, on_fenced, on_told, opening_read_again, on_tick, opening_take};

use crate::backward::fetch;
use crate::horizon::least_horizon;
use crate::listing::Listing;
use crate::opening::Opening;
use crate::pick::start_of;
use crate::stage::{Backward, Stage};
use crate::{In, Out};
use group_map::GroupMap;
use segment_reading::Reading;
use std::alloc::Global;
use stripe_code::Told;
use xfs_base::{List, Mem, SlotNews};

impl Opening {
    /// What an input makes of an opening that stands here, and what it then says.
    pub(crate) fn take(
        &mut self,
        alloc: Global,
        outs: &mut List<Out>,
        stage: Stage,
        input: In,
    ) -> Mem<Stage>
        ensures opening { OnOk result (self.new ≡ (opening_take self.old stage input).state.opening) }
        ensures stage { IfOk result (λ new. new ≡ (opening_take self.old stage input).state.stage) }
        ensures outs { OnOk result (outs.new ≡ outs.old ++ (opening_take self.old stage input).outs) }
    {
        match input {
            In::Welcome { ask, news, groups } => {
                self.on_welcome(alloc, outs, stage, ask, &news, groups)
            }
            In::Fenced {
                server,
                generation,
                held,
            } => self.on_fenced(
                alloc,
                outs,
                stage,
                Listing {
                    server,
                    generation,
                    held,
                },
            ),
            In::Got {
                ask,
                server,
                generation: _,
                fragment,
            } => self.on_told(alloc, outs, stage, ask, server, Told::Held(fragment)),
            In::Missing {
                ask,
                server,
                generation,
            } => self.on_told(alloc, outs, stage, ask, server, Told::Missing(generation)),
            In::Maps(groups) => {
                self.groups = Some(groups);
                Ok(stage)
            }
            In::Tick => {
                self.tick(alloc, outs, &stage)?;
                Ok(stage)
            }
        }
    }

    // The registry's answer counts where it is awaited.
    #[tactic(auto, unfolding(crate::specs::Transition::on_welcome))]
    fn on_welcome(
        &mut self,
        alloc: Global,
        outs: &mut List<Out>,
        stage: Stage,
        ask: u32,
        news: &List<SlotNews>,
        groups: GroupMap,
    ) -> Mem<Stage>
        ensures opening { OnOk result (self.new ≡ (on_welcome self.old stage ask news.now groups).state.opening) }
        ensures stage { IfOk result (λ new. new ≡ (on_welcome self.old stage ask news.now groups).state.stage) }
        ensures outs { OnOk result (outs.new ≡ outs.old ++ (on_welcome self.old stage ask news.now groups).outs) }
    {
        if ask != self.ask || !self.can_ask() || !stage.awaits_welcome() {
            return Ok(stage);
        }
        let least = least_horizon(self.log, news.as_slice());
        self.groups = Some(groups);
        self.welcome(alloc, outs, stage, least)
    }

    // The horizon of the first Welcome has no say in the pick.
    fn welcome(
        &mut self,
        alloc: Global,
        outs: &mut List<Out>,
        stage: Stage,
        least: u32,
    ) -> Mem<Stage>
        requires { self.old.ask < u32_end }
        ensures opening { OnOk result (self.new ≡ (opening_welcome self.old stage least).state.opening) }
        ensures stage { IfOk result (λ new. new ≡ (opening_welcome self.old stage least).state.stage) }
        ensures outs { OnOk result (outs.new ≡ outs.old ++ (opening_welcome self.old stage least).outs) }
    {
        match stage {
            Stage::Hails => self.gather(alloc, outs),
            Stage::Gathers(lists) => Ok(Stage::Gathers(lists)),
            Stage::Asks(lists) => {
                self.rise(least);
                self.pick(alloc, outs, lists)
            }
            Stage::Reads { backward, reading } => {
                self.rise(least);
                self.confirm(alloc, outs, backward, reading)
            }
            Stage::Over => Ok(Stage::Over),
        }
    }

    // Each server is fenced.
    fn gather(&self, alloc: Global, outs: &mut List<Out>) -> Mem<Stage>
        ensures opening { OnOk result (self.now ≡ (opening_gather self.now).state.opening) }
        ensures stage { IfOk result (λ stage. stage ≡ (opening_gather self.now).state.stage) }
        ensures outs { OnOk result (outs.new ≡ outs.old ++ (opening_gather self.now).outs) }
    {
        let lists = List::new(alloc);
        let servers = self.awaited(alloc, lists.as_slice())?;
        add_fences(outs, servers.as_slice())?;
        Ok(Stage::Gathers(lists))
    }

    // It is picked where the log goes on, and the chain is read back from there.
    #[tactic(auto, unfolding(crate::specs::Transition::opening_pick))]
    fn pick(&mut self, alloc: Global, outs: &mut List<Out>, lists: List<Listing>) -> Mem<Stage>
        requires { self.old.ask < u32_end }
        ensures opening { OnOk result (self.new ≡ (opening_pick self.old lists).state.opening) }
        ensures stage { IfOk result (λ stage. stage ≡ (opening_pick self.old lists).state.stage) }
        ensures outs { OnOk result (outs.new ≡ outs.old ++ (opening_pick self.old lists).outs) }
    {
        match start_of(&self.groups, lists.as_slice(), self.low) {
            None => {
                self.ask_anew(outs)?;
                Ok(Stage::Asks(lists))
            }
            Some(start) => self.follow(alloc, outs, Backward::from(alloc, start)),
        }
    }

    // The list of a server that is awaited counts.
    #[tactic(auto, unfolding(crate::specs::Transition::on_fenced))]
    fn on_fenced(
        &mut self,
        alloc: Global,
        outs: &mut List<Out>,
        stage: Stage,
        listing: Listing,
    ) -> Mem<Stage>
        ensures opening { OnOk result (self.new ≡ (on_fenced self.old stage listing).state.opening) }
        ensures stage { IfOk result (λ new. new ≡ (on_fenced self.old stage listing).state.stage) }
        ensures outs { OnOk result (outs.new ≡ outs.old ++ (on_fenced self.old stage listing).outs) }
    {
        match stage {
            Stage::Hails => Ok(Stage::Hails),
            Stage::Gathers(lists) => self.list(alloc, outs, lists, listing),
            Stage::Asks(lists) => Ok(Stage::Asks(lists)),
            Stage::Reads { backward, reading } => Ok(Stage::Reads { backward, reading }),
            Stage::Over => Ok(Stage::Over),
        }
    }

    fn list(
        &mut self,
        alloc: Global,
        outs: &mut List<Out>,
        mut lists: List<Listing>,
        listing: Listing,
    ) -> Mem<Stage>
        ensures opening { OnOk result (self.new ≡ (opening_list self.old lists listing).state.opening) }
        ensures stage { IfOk result (λ stage. stage ≡ (opening_list self.old lists listing).state.stage) }
        ensures outs { OnOk result (outs.new ≡ outs.old ++ (opening_list self.old lists listing).outs) }
    {
        if !self.can_ask() || !self.awaits(lists.as_slice(), listing.server) {
            return Ok(Stage::Gathers(lists));
        }
        lists.push(listing)?;
        self.with_list(alloc, outs, lists)
    }

    // When all lists are in the registry is asked anew.
    #[tactic(auto, unfolding(crate::specs::Transition::with_list))]
    fn with_list(&mut self, alloc: Global, outs: &mut List<Out>, lists: List<Listing>) -> Mem<Stage>
        requires { self.old.ask < u32_end }
        ensures opening { OnOk result (self.new ≡ (with_list self.old lists).state.opening) }
        ensures stage { IfOk result (λ stage. stage ≡ (with_list self.old lists).state.stage) }
        ensures outs { OnOk result (outs.new ≡ outs.old ++ (with_list self.old lists).outs) }
    {
        if !self.awaited(alloc, lists.as_slice())?.is_empty() {
            return Ok(Stage::Gathers(lists));
        }
        self.ask_anew(outs)?;
        Ok(Stage::Asks(lists))
    }

    // What a server told in answer to a question counts while the chain is read.
    #[tactic(auto, unfolding(crate::specs::Transition::on_told))]
    fn on_told(
        &mut self,
        alloc: Global,
        outs: &mut List<Out>,
        stage: Stage,
        ask: u32,
        server: u8,
        told: Told,
    ) -> Mem<Stage>
        ensures opening { OnOk result (self.new ≡ (on_told self.old stage ask server told).state.opening) }
        ensures stage { IfOk result (λ new. new ≡ (on_told self.old stage ask server told).state.stage) }
        ensures outs { OnOk result (outs.new ≡ outs.old ++ (on_told self.old stage ask server told).outs) }
    {
        match stage {
            Stage::Hails => Ok(Stage::Hails),
            Stage::Gathers(lists) => Ok(Stage::Gathers(lists)),
            Stage::Asks(lists) => Ok(Stage::Asks(lists)),
            Stage::Reads { backward, reading } => {
                self.hear(alloc, outs, backward, reading, ask, server, told)
            }
            Stage::Over => Ok(Stage::Over),
        }
    }

    // What is unanswered is asked again.
    #[tactic(auto, unfolding(crate::specs::Transition::on_tick))]
    fn tick(&self, alloc: Global, outs: &mut List<Out>, stage: &Stage) -> Mem<()>
        ensures { OnOk result (outs.new ≡ outs.old ++ on_tick self.now stage.now) }
    {
        match stage {
            Stage::Hails => self.hail(outs),
            Stage::Gathers(lists) => {
                let servers = self.awaited(alloc, lists.as_slice())?;
                add_fences(outs, servers.as_slice())
            }
            Stage::Asks(_) => self.hail(outs),
            Stage::Reads {
                backward: _,
                reading,
            } => self.read_again(alloc, outs, reading),
            Stage::Over => Ok(()),
        }
    }

    // What the reading of the next segment waits for is asked again.
    fn read_again(&self, alloc: Global, outs: &mut List<Out>, reading: &Option<Reading>) -> Mem<()>
        ensures { OnOk result (outs.new ≡ outs.old ++ opening_read_again self.now reading.now) }
    {
        match reading {
            None => self.hail(outs),
            Some(reading) => {
                if reading.stage().is_asking() {
                    return fetch(alloc, outs, reading);
                }
                self.hail(outs)
            }
        }
    }

    fn hail(&self, outs: &mut List<Out>) -> Mem<()>
        ensures { OnOk result (outs.new ≡ outs.old ++ Hello self.now.ask ∷ []) }
    {
        outs.push(Out::Hello { ask: self.ask })?;
        Ok(())
    }
}

fn add_fences(outs: &mut List<Out>, servers: &[u8]) -> Mem<()>
    ensures { OnOk result (outs.new ≡ outs.old ++ fences servers.now) }
{
    for server in servers {
        outs.push(Out::Fence { server: *server })?;
    }
    Ok(())
}
