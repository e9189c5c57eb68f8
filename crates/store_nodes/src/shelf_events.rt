//! What a storage server does with fragments.
ghost use Rattle.std.specs.Prelude.{◌≡◌, ◌++◌, IfOk, OnOk, is_some, not};
ghost use Rattle.fragment_store.specs.Calls.{refusal, on_list as listed_on};
ghost use Rattle.store_nodes.specs.ServerEvents.{keeps, on_store, on_fetch, of_log, on_fence, on_list, on_delete};

use crate::Server;
use fragment_store::{Shelf, StoreError};
use node_base::Effects;
use std::alloc::{AllocError, Global};
use wire_msg::{
    Body, Delete, Deleted, Fence, Fenced, Fetch, Found, ListAsk, Listed, Missing, Store, Stored,
};
use xfs_base::{FragMeta, Fragment, List, LogId, Mem, NodeId};

impl Server {
    // A fragment comes.
    #[tactic(auto, unfolding(crate::specs::ServerEvents::on_store))]
    pub(crate) fn on_store(
        &mut self,
        alloc: Global,
        effects: &mut Effects,
        from: NodeId,
        store: &Store,
    ) -> Mem<()>
        ensures state { OnOk result (self.new ≡ (on_store self.old from store.now).state) }
        ensures effects { OnOk result (effects.new ≡ effects.old ++ (on_store self.old from store.now).outs) }
    {
        let meta = store.fragment.meta;
        let generation = store.generation;
        let fragment = store.fragment.copy(alloc)?;
        if !keeps(alloc, &mut self.shelf, fragment, generation)? {
            return Ok(());
        }
        let stored = Stored {
            name: meta.name,
            index: meta.index,
            generation,
        };
        effects.send(from, Body::Stored(stored))
    }

    // A fragment is asked for.
    pub(crate) fn on_fetch(
        &self,
        alloc: Global,
        effects: &mut Effects,
        from: NodeId,
        fetch: Fetch,
    ) -> Mem<()>
        ensures { OnOk result (effects.new ≡ effects.old ++ on_fetch self.now from fetch) }
    {
        let Fetch { name, ask } = fetch;
        let generation = self.shelf.generation();
        match self.shelf.fetch(name) {
            Ok(fragment) => {
                let fragment = fragment.copy(alloc)?;
                let found = Found {
                    ask,
                    generation,
                    fragment,
                };
                effects.send(from, Body::Fragment(found))
            }
            Err(_) => {
                let missing = Missing {
                    name,
                    ask,
                    generation,
                };
                effects.send(from, Body::Missing(missing))
            }
        }
    }

    // A log is barred below a pass.
    #[tactic(auto, unfolding(crate::specs::ServerEvents::on_fence))]
    pub(crate) fn on_fence(
        &mut self,
        alloc: Global,
        effects: &mut Effects,
        from: NodeId,
        fence: Fence,
    ) -> Mem<()>
        ensures state { OnOk result (self.new ≡ (on_fence self.old from fence).state) }
        ensures effects { OnOk result (effects.new ≡ effects.old ++ (on_fence self.old from fence).outs) }
    {
        let Fence { log, pass } = fence;
        let kept = self.shelf.fence(alloc, log, pass)?;
        if !kept.order(pass).is_eq() {
            return Ok(());
        }
        let fenced = Fenced {
            log,
            pass,
            generation: self.shelf.generation(),
            held: self.held_of(alloc, log)?,
        };
        effects.send(from, Body::Fenced(fenced))
    }

    // What is held of a log.
    fn held_of(&self, alloc: Global, log: LogId) -> Mem<List<FragMeta>>
        ensures { IfOk result (λ held. held ≡ of_log log (listed_on self.now.shelf)) }
    {
        let all = self.shelf.list(alloc)?;
        of_log(alloc, all.as_slice(), log)
    }

    // All that is held is asked for.
    pub(crate) fn on_list(
        &self,
        alloc: Global,
        effects: &mut Effects,
        from: NodeId,
        list: ListAsk,
    ) -> Mem<()>
        ensures { OnOk result (effects.new ≡ effects.old ++ on_list self.now from list) }
    {
        let listed = Listed {
            ask: list.ask,
            generation: self.shelf.generation(),
            held: self.shelf.list(alloc)?,
        };
        effects.send(from, Body::Listed(listed))
    }

    // A segment is deleted.
    #[tactic(auto, unfolding(crate::specs::ServerEvents::on_delete))]
    pub(crate) fn on_delete(
        &mut self,
        alloc: Global,
        effects: &mut Effects,
        from: NodeId,
        delete: Delete,
    ) -> Mem<()>
        ensures state { OnOk result (self.new ≡ (on_delete self.old from delete).state) }
        ensures effects { OnOk result (effects.new ≡ effects.old ++ (on_delete self.old from delete).outs) }
    {
        let name = delete.name;
        self.shelf.delete(alloc, name)?;
        let generation = self.shelf.generation();
        effects.send(from, Body::Deleted(Deleted { name, generation }))
    }
}

// Keeps a fragment, and says whether it does: it does where nothing speaks against it.
fn keeps(alloc: Global, shelf: &mut Shelf, fragment: Fragment, generation: u32) -> Mem<bool>
    ensures shelf { OnOk result (shelf.new ≡ keeps shelf.old fragment generation) }
    ensures kept { IfOk result (λ kept. kept ≡ not (is_some (refusal shelf.old fragment.meta.name generation))) }
{
    match shelf.store(alloc, fragment, generation) {
        Ok(()) => Ok(true),
        Err(StoreError::WrongGeneration(_)) => Ok(false),
        Err(StoreError::Marked) => Ok(false),
        Err(StoreError::Fenced(_)) => Ok(false),
        Err(StoreError::Memory) => Err(AllocError),
    }
}

// What is held of a log.
fn of_log(alloc: Global, metas: &[FragMeta], log: LogId) -> Mem<List<FragMeta>>
    ensures { IfOk result (λ held. held ≡ of_log log metas.now) }
{
    let mut held = List::new(alloc);
    for meta in metas {
        if meta.name.log.0 == log.0 {
            held.push(*meta)?;
        }
    }
    Ok(held)
}
