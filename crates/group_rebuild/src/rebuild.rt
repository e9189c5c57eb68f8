//! The rebuild.
ghost use Rattle.std.specs.Prelude.{◌≡◌, ◌++◌, ◌==◌, IfOk, OnOk, Some, None};
ghost use Rattle.std.specs.List.{list_any};
ghost use Rattle.group_rebuild.specs.RebuildState.{rebuild_start};
ghost use Rattle.group_rebuild.specs.Transition.{awaited, listed_with, remove_names, awaits, lists, rebuild_begin, on_listed, on_told, on_tick, transition};

use crate::input::In;
use crate::output::Out;
use crate::reads::Reads;
use crate::wanted::wanted_in;
use group_map::GroupMap;
use std::alloc::Global;
use std::collections::BTreeMap;
use std::marker::Model;
use stripe_code::Told;
use xfs_base::{Crosses, FragMeta, List, Mem, SegName};

/// The rebuild of what a server kept before its disk was lost: first all other servers are asked what they
/// hold; then each segment of theirs that is striped over this server too, and that it neither holds nor has
/// marked, is read from the others by one round, and this server's fragment of it is filled in or counted
/// gone. Contracts see it as a record.
pub struct Rebuild {
    server: u8,
    groups: GroupMap,
    heard: List<u8>,
    listed: BTreeMap<SegName, FragMeta>,
    reads: Option<Reads>,
}

impl Drop for Rebuild {
    fn drop(self) {
        let Rebuild {
            server: _,
            groups,
            heard,
            listed,
            reads,
        } = self;
        drop(groups);
        drop(heard);
        drop(listed);
        drop(reads);
    }
}

impl Model for Rebuild {
    ghost use Rattle.group_rebuild.specs.RebuildState.{RebuildState};

    ghost Value = { RebuildState };

    ghost view = { λ r. record { server = r.server; groups = r.groups; heard = r.heard; listed = r.listed.entries; reads = r.reads } };
}

impl Crosses for Rebuild {}

impl Rebuild {
    /// A rebuild of this server, of which nothing is known yet. Its first Tick asks the others for their lists.
    pub fn start(alloc: Global, server: u8, groups: GroupMap) -> Mem<Rebuild>
        ensures { IfOk result (λ rebuild. rebuild ≡ rebuild_start server groups) }
    {
        Ok(Rebuild {
            server,
            groups,
            heard: List::new(alloc),
            listed: BTreeMap::new(alloc),
            reads: None,
        })
    }

    /// One step: what the rebuild is after the input, and what it says. After want of memory nothing is said
    /// of the rebuild.
    pub fn take(&mut self, alloc: Global, input: In) -> Mem<List<Out>>
        ensures state { OnOk result (self.new ≡ (transition self.old input).state) }
        ensures outs { IfOk result (λ outs. outs ≡ (transition self.old input).outs) }
    {
        let mut outs = List::new(alloc);
        match input {
            In::Listed {
                server,
                metas,
                barred,
            } => self.listed(alloc, &mut outs, server, &metas, &barred)?,
            In::Got {
                ask,
                server,
                generation: _,
                fragment,
            } => self.told(alloc, &mut outs, ask, server, Told::Held(fragment))?,
            In::Missing {
                ask,
                server,
                generation,
            } => self.told(alloc, &mut outs, ask, server, Told::Missing(generation))?,
            In::Maps(groups) => self.groups = groups,
            In::Tick => self.tick(alloc, &mut outs)?,
        }
        Ok(outs)
    }

    // What a server lists. When all lists are in the reading begins.
    #[tactic(auto, unfolding(crate::specs::Transition::on_listed))]
    fn listed(
        &mut self,
        alloc: Global,
        outs: &mut List<Out>,
        server: u8,
        metas: &List<FragMeta>,
        barred: &List<SegName>,
    ) -> Mem<()>
        ensures state { OnOk result (self.new ≡ (on_listed self.old server metas.now barred.now).state) }
        ensures outs { OnOk result (outs.new ≡ outs.old ++ (on_listed self.old server metas.now barred.now).outs) }
    {
        if self.reads.is_some() || !self.awaits(server) {
            return Ok(());
        }
        self.heard.push(server)?;
        add_metas(&mut self.listed, metas.as_slice())?;
        if self.awaited(alloc)?.is_empty() {
            self.begin(alloc, outs, barred.as_slice())?;
        }
        Ok(())
    }

    // The names that are barred are passed over, and the first of the others is read.
    fn begin(&mut self, alloc: Global, outs: &mut List<Out>, barred: &[SegName]) -> Mem<()>
        ensures state { OnOk result (self.new ≡ (rebuild_begin self.old barred.now).state) }
        ensures outs { OnOk result (outs.new ≡ outs.old ++ (rebuild_begin self.old barred.now).outs) }
    {
        remove_names(&mut self.listed, barred);
        let wanted = wanted_in(alloc, self.server, &self.groups, &self.listed)?;
        let mut reads = Reads::of(wanted);
        reads.go_on(alloc, outs)?;
        self.reads = Some(reads);
        Ok(())
    }

    fn told(
        &mut self,
        alloc: Global,
        outs: &mut List<Out>,
        ask: u32,
        server: u8,
        told: Told,
    ) -> Mem<()>
        ensures state { OnOk result (self.new ≡ (on_told self.old ask server told).state) }
        ensures outs { OnOk result (outs.new ≡ outs.old ++ (on_told self.old ask server told).outs) }
    {
        match self.reads.take() {
            None => Ok(()),
            Some(mut reads) => {
                reads.take(alloc, outs, ask, server, told)?;
                self.reads = Some(reads);
                Ok(())
            }
        }
    }

    fn tick(&self, alloc: Global, outs: &mut List<Out>) -> Mem<()>
        ensures { OnOk result (outs.new ≡ outs.old ++ on_tick self.now) }
    {
        match &self.reads {
            Some(reads) => reads.tick(alloc, outs),
            None => add_lists(outs, self.awaited(alloc)?.as_slice()),
        }
    }

    // The other servers whose lists are not in, in order.
    fn awaited(&self, alloc: Global) -> Mem<List<u8>>
        ensures { IfOk result (λ servers. servers ≡ awaited self.now) }
    {
        let mut servers = List::new(alloc);
        for before in 0..self.groups.servers() {
            if self.awaits(before + 1) {
                servers.push(before + 1)?;
            }
        }
        Ok(servers)
    }

    // Whether this is another server whose list is not in.
    fn awaits(&self, server: u8) -> bool
        ensures { result ≡ awaits self.now server }
    {
        1 <= server
            && server <= self.groups.servers()
            && server != self.server
            && !has(self.heard.as_slice(), server)
    }
}

fn has(servers: &[u8], server: u8) -> bool
    ensures { result ≡ list_any (λ s. s == server) servers.now }
{
    servers.iter().any(|other| *other == server)
}

// Asks these servers for their lists.
fn add_lists(outs: &mut List<Out>, servers: &[u8]) -> Mem<()>
    ensures { OnOk result (outs.new ≡ outs.old ++ lists servers.now) }
{
    for server in servers {
        outs.push(Out::List(*server))?;
    }
    Ok(())
}

// Of each name what was listed last stays.
fn add_metas(listed: &mut BTreeMap<SegName, FragMeta>, metas: &[FragMeta]) -> Mem<()>
    ensures { OnOk result (listed.new.entries ≡ listed_with metas.now listed.old.entries) }
{
    for meta in metas {
        listed.insert(meta.name, *meta)?;
    }
    Ok(())
}

fn remove_names(listed: &mut BTreeMap<SegName, FragMeta>, names: &[SegName])
    ensures { listed.new.entries ≡ remove_names names.now listed.old.entries }
{
    for name in names {
        listed.remove(name);
    }
}
