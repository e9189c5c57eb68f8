//! What a storage server does for a rebuild of its shelf that is under way.
ghost use Rattle.std.specs.Prelude.{◌≡◌, ◌++◌, OnOk, Some};
ghost use Rattle.xfs_base.specs.Steps.{steps};
ghost use Rattle.store_nodes.specs.Rebuilds.{says, ask_list, ask_fragment, rebuilds, goes_on, awaits_list, fetch_of, on_listed, on_found, on_missing};

use crate::Server;
use crate::server::Rebuilding;
use group_rebuild::{In, Out};
use node_base::Effects;
use std::alloc::Global;
use std::mem;
use version_model::Answer;
use wire_msg::{Body, Fetch, Found, ListAsk, Listed, Missing};
use xfs_base::{List, Mem, NodeId, SegName};

impl Server {
    /// The rebuild that is under way takes an input, and what it says is done.
    #[tactic(auto, unfolding(crate::specs::Rebuilds::rebuilds))]
    pub(crate) fn rebuilds(&mut self, alloc: Global, effects: &mut Effects, given: In) -> Mem<()>
        ensures state { OnOk result (self.new ≡ (rebuilds self.old given).state) }
        ensures effects { OnOk result (effects.new ≡ effects.old ++ (rebuilds self.old given).outs) }
    {
        let Some(rebuilding) = self.rebuilding.take() else {
            // It is dropped by a call, here and below, so that each part of it is dropped in one proof.
            drop(given);
            return Ok(());
        };
        self.goes_on(alloc, effects, rebuilding, given)
    }

    fn goes_on(
        &mut self,
        alloc: Global,
        effects: &mut Effects,
        rebuilding: Rebuilding,
        given: In,
    ) -> Mem<()>
        ensures state { OnOk result (self.new ≡ (goes_on self.old (Some rebuilding) given).state) }
        ensures effects { OnOk result (effects.new ≡ effects.old ++ (goes_on self.old (Some rebuilding) given).outs) }
    {
        let mut rebuilding = rebuilding;
        match rebuilding.rebuild.take(alloc, given) {
            Ok(outs) => {
                drop(mem::replace(&mut self.rebuilding, Some(rebuilding)));
                self.says_all(alloc, effects, outs)
            }
            Err(error) => {
                drop(rebuilding);
                Err(error)
            }
        }
    }

    fn says_all(&mut self, alloc: Global, effects: &mut Effects, outs: List<Out>) -> Mem<()>
        ensures state { OnOk result (self.new ≡ (steps says self.old outs).state) }
        ensures effects { OnOk result (effects.new ≡ effects.old ++ (steps says self.old outs).outs) }
    {
        for out in outs.into_vec() {
            self.says(alloc, effects, out)?;
        }
        Ok(())
    }

    #[tactic(auto, unfolding(crate::specs::Rebuilds::says))]
    fn says(&mut self, alloc: Global, effects: &mut Effects, out: Out) -> Mem<()>
        ensures state { OnOk result (self.new ≡ (says self.old out).state) }
        ensures effects { OnOk result (effects.new ≡ effects.old ++ (says self.old out).outs) }
    {
        match out {
            Out::List(server) => self.ask_list(effects, server),
            Out::Fetch(server, name, own) => self.ask_fragment(effects, server, name, own),
            Out::Fill(fragment) => {
                self.shelf.fill(alloc, fragment)?;
                Ok(())
            }
            Out::Finished(filled, gone) => {
                drop(self.rebuilding.take());
                self.items.answer(effects, Answer::Rebuilt(filled, gone))
            }
        }
    }

    fn ask_list(&self, effects: &mut Effects, server: u8) -> Mem<()>
        ensures { OnOk result (effects.new ≡ effects.old ++ ask_list self.now.rebuilding server) }
    {
        match &self.rebuilding {
            None => Ok(()),
            Some(rebuilding) => {
                let ask = rebuilding.lists;
                effects.send(NodeId::Server(server), Body::List(ListAsk { ask }))
            }
        }
    }

    fn ask_fragment(
        &mut self,
        effects: &mut Effects,
        server: u8,
        name: SegName,
        own: u32,
    ) -> Mem<()>
        ensures state { OnOk result (self.new ≡ (ask_fragment self.old self.old.rebuilding server name own).state) }
        ensures effects { OnOk result (effects.new ≡ effects.old ++ (ask_fragment self.old self.old.rebuilding server name own).outs) }
    {
        match &mut self.rebuilding {
            None => Ok(()),
            Some(rebuilding) => {
                let ask = rebuilding.fetches.number(&mut self.questions, own);
                effects.send(NodeId::Server(server), Body::Fetch(Fetch { name, ask }))
            }
        }
    }

    /// A server says what it holds.
    #[tactic(auto, unfolding(crate::specs::Rebuilds::on_listed))]
    pub(crate) fn on_listed(
        &mut self,
        alloc: Global,
        effects: &mut Effects,
        server: Option<u8>,
        listed: &Listed,
    ) -> Mem<()>
        ensures state { OnOk result (self.new ≡ (on_listed self.old server listed.now).state) }
        ensures effects { OnOk result (effects.new ≡ effects.old ++ (on_listed self.old server listed.now).outs) }
    {
        let Some(server) = server else {
            return Ok(());
        };
        if !awaits_list(&self.rebuilding, listed.ask) {
            return Ok(());
        }
        let given = In::Listed {
            server,
            metas: listed.held.copy(alloc)?,
            barred: self.shelf.barred(alloc)?,
        };
        self.rebuilds(alloc, effects, given)
    }

    /// A server sends its fragment of a segment.
    #[tactic(auto, unfolding(crate::specs::Rebuilds::on_found))]
    pub(crate) fn on_found(
        &mut self,
        alloc: Global,
        effects: &mut Effects,
        server: Option<u8>,
        found: &Found,
    ) -> Mem<()>
        ensures state { OnOk result (self.new ≡ (on_found self.old server found.now).state) }
        ensures effects { OnOk result (effects.new ≡ effects.old ++ (on_found self.old server found.now).outs) }
    {
        let Some(server) = server else {
            return Ok(());
        };
        let Some(ask) = fetch_of(&self.rebuilding, found.ask) else {
            return Ok(());
        };
        let given = In::Got {
            ask,
            server,
            generation: found.generation,
            fragment: found.fragment.copy(alloc)?,
        };
        self.rebuilds(alloc, effects, given)
    }

    /// A server holds no fragment of a segment.
    #[tactic(auto, unfolding(crate::specs::Rebuilds::on_missing))]
    pub(crate) fn on_missing(
        &mut self,
        alloc: Global,
        effects: &mut Effects,
        server: Option<u8>,
        missing: Missing,
    ) -> Mem<()>
        ensures state { OnOk result (self.new ≡ (on_missing self.old server missing).state) }
        ensures effects { OnOk result (effects.new ≡ effects.old ++ (on_missing self.old server missing).outs) }
    {
        let Some(server) = server else {
            return Ok(());
        };
        let Some(ask) = fetch_of(&self.rebuilding, missing.ask) else {
            return Ok(());
        };
        let given = In::Missing {
            ask,
            server,
            generation: missing.generation,
        };
        self.rebuilds(alloc, effects, given)
    }
}

// Whether a rebuild awaits lists under this question.
fn awaits_list(rebuilding: &Option<Rebuilding>, ask: u32) -> bool
    ensures { result ≡ awaits_list rebuilding.now ask }
{
    match rebuilding {
        Some(rebuilding) => rebuilding.lists == ask,
        None => false,
    }
}

// The number that the rebuild gave the question that is answered.
fn fetch_of(rebuilding: &Option<Rebuilding>, ask: u32) -> Option<u32>
    ensures { result ≡ fetch_of rebuilding.now ask }
{
    match rebuilding {
        Some(rebuilding) => rebuilding.fetches.own(ask),
        None => None,
    }
}
