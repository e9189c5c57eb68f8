//! The registry.
ghost use Rattle.std.specs.Prelude.{◌≡◌, ◌+◌, ◌≤◌, ◌++◌, None, All, IfOk, OnOk, length, map, nat_eq};
ghost use Rattle.std.specs.List.{IsDistinct};
ghost use Rattle.xfs_base.specs.Limits.{u32_end};
ghost use Rattle.group_map.specs.Sizes.{IsParity, bad_size};
ghost use Rattle.group_map.specs.WellFormed.{IsServer};
ghost use Rattle.registry.specs.Board.{inc_of, has_room, may_lose, hears_manager, manager_hello, hears_server, server_hello, hello, can_move, reassign, is_kept, keep, done, transition, board_start, slot_news, board_slots};

use crate::checkpoint::{Checkpoint, covers_kept, first_checkpoints, horizon_at, parts_at};
use crate::input::In;
use crate::output::Out;
use crate::slots::{SLOTS, can_rise, entry_of, raise};
use group_map::GroupMap;
use manager_map::ManagerMap;
use std::alloc::{AllocError, Global};
use std::collections::BTreeMap;
use std::marker::Model;
use xfs_base::limits::SLOT_COUNT;
use xfs_base::{Crosses, List, Mem, NodeId, SegRef, Setup, SlotNews};

/// Where a map has a group of this id, it takes no further loss.
const LAST_GROUP: u32 = 2_147_483_648;

/// The maps as they are now. Contracts see their version, the manager and epoch of each slot, the newest
/// checkpoint of each slot, the incarnation that is kept of each manager, and the stripe groups.
pub struct Board {
    version: u32,
    managers: ManagerMap,
    checkpoints: Vec<Checkpoint>,
    incs: BTreeMap<u8, u32>,
    groups: GroupMap,
}

impl Drop for Board {
    fn drop(self) {
        let Board {
            version: _,
            managers: _,
            checkpoints,
            incs,
            groups,
        } = self;
        drop(checkpoints);
        drop(incs);
        drop(groups);
    }
}

impl Model for Board {
    ghost use Rattle.group_map.specs.WellFormed.{IsGroupMap};
    ghost use Rattle.registry.specs.BoardState.{BoardState};

    ghost Value = { BoardState };

    ghost view = { λ b. record { version = b.version; entries = b.managers; checkpoints = b.checkpoints.items; incs = b.incs.entries; groups = b.groups } };

    ghost invariant = { λ b. IsGroupMap b.groups };
}

impl Crosses for Board {}

// The incarnation that is kept of a manager; 1 at the start.
fn inc_of(incs: &BTreeMap<u8, u32>, manager: u8) -> u32
    ensures { result ≡ inc_of incs.now.entries manager }
{
    match incs.get(&manager) {
        Some(inc) => *inc,
        None => 1,
    }
}

// Whether there is room for the groups that follow a loss.
fn has_room(groups: &GroupMap) -> bool
    ensures { result ≡ has_room groups.now }
{
    match groups.lookup(LAST_GROUP) {
        Ok(_) => false,
        Err(_) => true,
    }
}

// Whether a server exists and tells of a loss that is not known yet.
fn may_lose(groups: &GroupMap, server: u8, generation: u32) -> bool
    ensures { result ≡ may_lose groups.now server generation }
{
    if server == 0 || groups.servers() < server {
        return false;
    }
    groups.generation(server) < generation && has_room(groups)
}

impl Board {
    /// The maps at the start of a run: version 1, all epochs, incarnations and generations 1, and no
    /// checkpoint. The setup must have a manager, and groups of one to eight servers each that exist and
    /// differ, of a size that their parity allows.
    pub fn start(alloc: Global, setup: &Setup) -> Mem<Board>
        requires managers { 1 ≤ setup.now.managers }
        requires count { (1 ≤ length setup.now.groups) × (length setup.now.groups ≤ u32_end) }
        requires exist { All (λ g. All (IsServer setup.now.servers) g.servers) setup.now.groups }
        requires differ { All (λ g. IsDistinct nat_eq g.servers) setup.now.groups }
        requires parity { All (λ g. IsParity g.parity) setup.now.groups }
        requires sizes { bad_size setup.now.groups ≡ None }
        ensures { IfOk result (λ board. board ≡ board_start setup.now) }
    {
        match GroupMap::start(alloc, setup.servers, setup.groups.as_slice()) {
            Ok(groups) => Ok(Board {
                version: 1,
                managers: ManagerMap::start(setup.managers),
                checkpoints: first_checkpoints(alloc, &SLOTS)?,
                incs: BTreeMap::new(alloc),
                groups,
            }),
            Err(_) => Err(AllocError),
        }
    }

    /// The version of the maps, which rises by one with each change of what is kept. Takes no memory.
    pub fn version(&self) -> u32
        ensures { result ≡ self.now.version }
    {
        self.version
    }

    /// The stripe groups. Takes no memory.
    pub fn groups(&self) -> &GroupMap
        ensures { result.now ≡ self.now.groups }
    {
        &self.groups
    }

    /// The slots 0 to 7, in order, each with its newest checkpoint.
    pub fn slots(&self, alloc: Global) -> Mem<List<SlotNews>>
        ensures { IfOk result (λ news. news ≡ board_slots self.now) }
    {
        self.news_of(alloc, &SLOTS)
    }

    fn news_of(&self, alloc: Global, slots: &[u8]) -> Mem<List<SlotNews>>
        ensures { IfOk result (λ news. news ≡ map (slot_news self.now) slots.now) }
    {
        let mut news = List::new(alloc);
        for slot in slots {
            news.push(self.slot_news(alloc, *slot)?)?;
        }
        Ok(news)
    }

    fn slot_news(&self, alloc: Global, slot: u8) -> Mem<SlotNews>
        ensures { IfOk result (λ news. news ≡ slot_news self.now slot) }
    {
        let entry = entry_of(&self.managers, slot);
        Ok(SlotNews {
            slot,
            epoch: entry.epoch,
            manager: entry.manager,
            parts: parts_at(alloc, &self.checkpoints, slot)?,
            horizon: horizon_at(alloc, &self.checkpoints, slot)?,
        })
    }

    /// What the registry does on an input, and what it then sends, in order.
    ///
    /// - The Hello of a manager of a greater incarnation than the one that is kept gives each of its slots
    ///   the next epoch.
    /// - The Hello of a server of a greater generation than the one that is kept tells of a loss: each
    ///   current group that has the server is followed by a new one.
    /// - A reassignment gives a slot to a manager under its next epoch, which is the answer.
    /// - A checkpoint of the slot's epoch whose horizon has nine numbers, none below the kept one, is kept.
    ///   Each checkpoint is answered with the epoch that is kept of its slot, also one that is not kept, but
    ///   for two: that of a slot above 7, and one that would be kept where the version could not rise.
    ///
    /// Each change gives the maps the next version; all but that of a checkpoint go to all nodes at once. Where
    /// a version, an epoch or the ids of groups could not rise, nothing changes and nothing is sent. A
    /// slot above 7 and a horizon of other than nine numbers change nothing. Where memory is wanting nothing is
    /// said of the maps.
    pub fn take(&mut self, alloc: Global, input: In) -> Mem<List<Out>>
        ensures state { OnOk result (self.new ≡ (transition self.old input).state) }
        ensures outs { IfOk result (λ outs. outs ≡ (transition self.old input).outs) }
    {
        let mut outs = List::new(alloc);
        match input {
            In::Hello { node, inc } => self.hello(alloc, &mut outs, node, inc)?,
            In::Reassign { slot, manager } => self.reassign(&mut outs, slot, manager)?,
            In::Done {
                slot,
                epoch,
                parts,
                horizon,
            } => self.done(&mut outs, slot, epoch, parts, horizon)?,
        }
        Ok(outs)
    }

    fn hello(&mut self, alloc: Global, outs: &mut List<Out>, node: NodeId, inc: u32) -> Mem<()>
        ensures state { OnOk result (self.new ≡ (hello self.old node inc).state) }
        ensures outs { OnOk result (outs.new ≡ outs.old ++ (hello self.old node inc).outs) }
    {
        match node {
            NodeId::Manager(manager) => self.manager_hello(outs, manager, inc),
            NodeId::Server(server) => self.server_hello(alloc, outs, server, inc),
            NodeId::Client(_) | NodeId::Cleaner | NodeId::Registry => Ok(()),
        }
    }

    fn hears_manager(&self, manager: u8, inc: u32) -> bool
        ensures { result ≡ hears_manager self.now manager inc }
    {
        self.version < u32::MAX
            && inc_of(&self.incs, manager) < inc
            && can_rise(&self.managers, manager)
    }

    #[tactic(auto, unfolding(crate::specs::Board::manager_hello))]
    fn manager_hello(&mut self, outs: &mut List<Out>, manager: u8, inc: u32) -> Mem<()>
        ensures state { OnOk result (self.new ≡ (manager_hello self.old manager inc).state) }
        ensures outs { OnOk result (outs.new ≡ outs.old ++ (manager_hello self.old manager inc).outs) }
    {
        if !self.hears_manager(manager, inc) {
            return Ok(());
        }
        outs.push(Out::Changed)?;
        self.incs.insert(manager, inc)?;
        raise(&mut self.managers, &SLOTS, manager);
        self.version += 1;
        Ok(())
    }

    fn hears_server(&self, server: u8, generation: u32) -> bool
        ensures { result ≡ hears_server self.now server generation }
    {
        self.version < u32::MAX && may_lose(&self.groups, server, generation)
    }

    #[tactic(auto, unfolding(crate::specs::Board::server_hello))]
    fn server_hello(
        &mut self,
        alloc: Global,
        outs: &mut List<Out>,
        server: u8,
        generation: u32,
    ) -> Mem<()>
        ensures state { OnOk result (self.new ≡ (server_hello self.old server generation).state) }
        ensures outs { OnOk result (outs.new ≡ outs.old ++ (server_hello self.old server generation).outs) }
    {
        if !self.hears_server(server, generation) {
            return Ok(());
        }
        outs.push(Out::Changed)?;
        self.groups.after_loss(alloc, server, generation)?;
        self.version += 1;
        Ok(())
    }

    fn can_move(&self, slot: u8) -> bool
        ensures { result ≡ can_move self.now slot }
    {
        slot < SLOT_COUNT
            && self.version < u32::MAX
            && entry_of(&self.managers, slot).epoch < u32::MAX
    }

    #[tactic(auto, unfolding(crate::specs::Board::reassign))]
    fn reassign(&mut self, outs: &mut List<Out>, slot: u8, manager: u8) -> Mem<()>
        ensures state { OnOk result (self.new ≡ (reassign self.old slot manager).state) }
        ensures outs { OnOk result (outs.new ≡ outs.old ++ (reassign self.old slot manager).outs) }
    {
        if !self.can_move(slot) {
            return Ok(());
        }
        match self.managers.advance(slot, manager) {
            Ok(epoch) => {
                self.version += 1;
                outs.push(Out::Changed)?;
                outs.push(Out::Epoch { epoch })?;
                Ok(())
            }
            Err(_) => Ok(()),
        }
    }

    fn is_kept(&self, slot: u8, epoch: u32, horizon: &[u32]) -> bool
        ensures { result ≡ is_kept self.now slot epoch horizon.now }
    {
        entry_of(&self.managers, slot).epoch == epoch
            && covers_kept(&self.checkpoints, slot, horizon)
    }

    #[tactic(auto, unfolding(crate::specs::Board::done))]
    fn done(
        &mut self,
        outs: &mut List<Out>,
        slot: u8,
        epoch: u32,
        parts: List<SegRef>,
        horizon: List<u32>,
    ) -> Mem<()>
        ensures state { OnOk result (self.new ≡ (done self.old slot epoch parts horizon).state) }
        ensures outs { OnOk result (outs.new ≡ outs.old ++ (done self.old slot epoch parts horizon).outs) }
    {
        if slot > 7 {
            return Ok(());
        }
        if self.is_kept(slot, epoch, horizon.as_slice()) {
            return self.keep(outs, slot, epoch, parts, horizon);
        }
        let epoch = entry_of(&self.managers, slot).epoch;
        outs.push(Out::Kept { epoch })?;
        Ok(())
    }

    #[tactic(auto, unfolding(crate::specs::Board::keep))]
    fn keep(
        &mut self,
        outs: &mut List<Out>,
        slot: u8,
        epoch: u32,
        parts: List<SegRef>,
        horizon: List<u32>,
    ) -> Mem<()>
        ensures state { OnOk result (self.new ≡ (keep self.old slot epoch parts horizon).state) }
        ensures outs { OnOk result (outs.new ≡ outs.old ++ (keep self.old slot epoch parts horizon).outs) }
    {
        if self.version == u32::MAX {
            return Ok(());
        }
        outs.push(Out::Kept { epoch })?;
        if let Some(kept) = self.checkpoints.get_mut(usize::from(slot)) {
            *kept = Checkpoint { parts, horizon };
        }
        self.version += 1;
        Ok(())
    }
}
