//! The slots of a manager.
ghost use Rattle.std.specs.Prelude.{◌≡◌, ◌++◌, ◌≤◌, IfOk, OnOk, map, find, slice_get};
ghost use Rattle.xfs_base.specs.Steps.{steps};
ghost use Rattle.checkpoint.specs.Plan.{plan_of};
ghost use Rattle.slot_beliefs.specs.Index.{pages_of};
ghost use Rattle.manager_slots.specs.SlotTable.{first_phase, slot_table_first, unknown_phase, slot_table_unknown, slot_table_has_room, is_active_at, is_next, next_active, on_want, on_gave, on_deltas, on_check, on_usage_ask, usage_in, slot_table_recall, recall_again, next_of, begin_with, begin_in, begin_at, phase_clean, phase_name, slot_table_clean, slot_table_name};

use crate::slot_phase::{Active, SlotPhase, first_active};
use crate::tokens;
use checkpoint::{In, Plan, plan_of};
use manager_map::ManagerMap;
use node_base::Effects;
use std::alloc::Global;
use std::marker::Model;
use std::mem;
use token_manager::Slot;
use wire_msg::{Check, Deltas, Gave, UsageAsk, Want};
use xfs_base::limits::{BY_LOG, BY_SLOT};
use xfs_base::{Ino, List, LogId, Mem, SegRef};

/// All slots.
pub(crate) const SLOTS: [u8; BY_SLOT] = [0, 1, 2, 3, 4, 5, 6, 7];

/// The logs of the clients and the cleaner.
const LOGS: [u8; BY_LOG] = [1, 2, 3, 4, 5, 6, 7, 8, 9];

/// What a manager has of each slot. Contracts see the list, from slot 0 on.
pub struct SlotTable {
    pub(crate) phases: Vec<SlotPhase>,
}

impl Drop for SlotTable {
    fn drop(self) {
        let SlotTable { phases } = self;
        drop(phases);
    }
}

impl Model for SlotTable {
    ghost use Rattle.std.specs.Prelude as prelude;
    ghost use Rattle.manager_slots.specs.declared.slot_phase.SlotPhase.{SlotPhase};

    ghost Value = { prelude.List SlotPhase };

    ghost view = { λ t. t.phases.items };
}

impl SlotTable {
    /// The slots at the start of a run, in which each manager manages its own.
    pub fn first(alloc: Global, number: u8, managers: u8) -> Mem<SlotTable>
        requires { 1 ≤ managers }
        ensures { IfOk result (λ table. table ≡ slot_table_first number managers) }
    {
        let entries = ManagerMap::start(managers);
        let phases = first_phases(alloc, number, &entries, &SLOTS)?;
        Ok(SlotTable { phases })
    }

    /// The slots of which nothing is known.
    pub fn unknown(alloc: Global) -> Mem<SlotTable>
        ensures { IfOk result (λ table. table ≡ slot_table_unknown) }
    {
        let phases = unknown_phases(alloc, &SLOTS)?;
        Ok(SlotTable { phases })
    }

    /// Whether each counter is at least 65,536 below its end.
    pub fn has_room(&self) -> bool
        ensures { result ≡ slot_table_has_room self.now }
    {
        self.phases.iter().all(|phase| phase.has_room())
    }

    /// The next slot from a number on that is managed.
    pub fn next_active(&self, from: u8) -> Option<u8>
        ensures { result ≡ next_active self.now from }
    {
        next_active(&self.phases, &SLOTS, from)
    }

    /// A client wants a block.
    #[tactic(auto, unfolding(crate::specs::SlotTable::on_want))]
    pub fn on_want(
        &mut self,
        alloc: Global,
        effects: &mut Effects,
        client: u8,
        want: Want,
    ) -> Mem<()>
        ensures state { OnOk result (self.new ≡ (on_want self.old client want).state) }
        ensures effects { OnOk result (effects.new ≡ effects.old ++ (on_want self.old client want).outs) }
    {
        let slot = want.block.ino.slot();
        match self.phases.get_mut(usize::from(slot)) {
            Some(phase) => tokens::on_want(alloc, effects, phase, client, want),
            None => Ok(()),
        }
    }

    /// A client has given a block up.
    #[tactic(auto, unfolding(crate::specs::SlotTable::on_gave))]
    pub fn on_gave(
        &mut self,
        alloc: Global,
        effects: &mut Effects,
        client: u8,
        gave: Gave,
    ) -> Mem<()>
        ensures state { OnOk result (self.new ≡ (on_gave self.old client gave).state) }
        ensures effects { OnOk result (effects.new ≡ effects.old ++ (on_gave self.old client gave).outs) }
    {
        let slot = gave.block.ino.slot();
        match self.phases.get_mut(usize::from(slot)) {
            Some(phase) => tokens::on_gave(alloc, effects, phase, client, gave),
            None => Ok(()),
        }
    }

    /// A log tells what its segments say of a slot's blocks.
    #[tactic(auto, unfolding(crate::specs::SlotTable::on_deltas))]
    pub fn on_deltas(
        &mut self,
        alloc: Global,
        effects: &mut Effects,
        log: LogId,
        deltas: &Deltas,
    ) -> Mem<()>
        ensures state { OnOk result (self.new ≡ (on_deltas self.old log deltas.now).state) }
        ensures effects { OnOk result (effects.new ≡ effects.old ++ (on_deltas self.old log deltas.now).outs) }
    {
        match self.phases.get_mut(usize::from(deltas.slot)) {
            Some(phase) => tokens::on_deltas(alloc, effects, phase, log, deltas),
            None => Ok(()),
        }
    }

    /// The cleaner asks whether a block's newest version lies at a place.
    #[tactic(auto, unfolding(crate::specs::SlotTable::on_check))]
    pub fn on_check(&mut self, alloc: Global, effects: &mut Effects, check: Check) -> Mem<()>
        ensures state { OnOk result (self.new ≡ (on_check self.old check).state) }
        ensures effects { OnOk result (effects.new ≡ effects.old ++ (on_check self.old check).outs) }
    {
        let slot = check.block.ino.slot();
        match self.phases.get_mut(usize::from(slot)) {
            Some(phase) => tokens::on_check(alloc, effects, phase, check),
            None => Ok(()),
        }
    }

    /// The cleaner asks how many live blocks each segment has.
    #[tactic(auto, unfolding(crate::specs::SlotTable::on_usage_ask))]
    pub fn on_usage_ask(&self, alloc: Global, effects: &mut Effects, asked: UsageAsk) -> Mem<()>
        ensures { OnOk result (effects.new ≡ effects.old ++ on_usage_ask self.now asked) }
    {
        say_usage(alloc, effects, &self.phases, asked)
    }

    /// Recalls that aren't answered are sent again.
    pub fn recall_again(&mut self, alloc: Global, effects: &mut Effects) -> Mem<()>
        ensures state { OnOk result (self.new ≡ (recall_again self.old).state) }
        ensures effects { OnOk result (effects.new ≡ effects.old ++ (recall_again self.old).outs) }
    {
        self.recall_each(alloc, effects, &SLOTS)
    }

    fn recall_each(&mut self, alloc: Global, effects: &mut Effects, slots: &[u8]) -> Mem<()>
        ensures state { OnOk result (self.new ≡ (steps slot_table_recall self.old slots.now).state) }
        ensures effects { OnOk result (effects.new ≡ effects.old ++ (steps slot_table_recall self.old slots.now).outs) }
    {
        for slot in slots {
            self.recall(alloc, effects, *slot)?;
        }
        Ok(())
    }

    #[tactic(auto, unfolding(crate::specs::SlotTable::slot_table_recall))]
    fn recall(&mut self, alloc: Global, effects: &mut Effects, slot: u8) -> Mem<()>
        ensures state { OnOk result (self.new ≡ (slot_table_recall self.old slot).state) }
        ensures effects { OnOk result (effects.new ≡ effects.old ++ (slot_table_recall self.old slot).outs) }
    {
        match self.phases.get_mut(usize::from(slot)) {
            Some(phase) => tokens::on_tick(alloc, effects, phase, slot),
            None => Ok(()),
        }
    }

    /// What the writer is to write of a slot, by the pages and the horizon of this moment. From here on no
    /// page of it has changed. None where the slot isn't managed.
    pub fn begin(&mut self, alloc: Global, slot: u8) -> Mem<Option<In>>
        ensures input { IfOk result (λ input. input ≡ begin_at self.old slot) }
        ensures state { OnOk result (self.new ≡ slot_table_clean self.old slot) }
    {
        let input = begin_at(alloc, &self.phases, slot)?;
        self.clean(slot);
        Ok(input)
    }

    #[tactic(auto, unfolding(crate::specs::SlotTable::slot_table_clean))]
    fn clean(&mut self, slot: u8)
        ensures { self.new ≡ slot_table_clean self.old slot }
    {
        if let Some(phase) = self.phases.get_mut(usize::from(slot)) {
            clean(phase);
        }
    }

    /// The segments of the checkpoint of a slot that is sent, in the epoch in which it was begun.
    #[tactic(auto, unfolding(crate::specs::SlotTable::slot_table_name))]
    pub fn name(&mut self, slot: u8, epoch: u32, parts: List<SegRef>)
        ensures { self.new ≡ slot_table_name self.old slot epoch parts }
    {
        match self.phases.get_mut(usize::from(slot)) {
            Some(phase) => name(phase, epoch, parts),
            None => drop(parts),
        }
    }
}

fn first_phases(
    alloc: Global,
    number: u8,
    entries: &ManagerMap,
    slots: &[u8],
) -> Mem<Vec<SlotPhase>>
    ensures { IfOk result (λ phases. phases.items ≡ map (first_phase number entries.now) slots.now) }
{
    let mut phases = List::new(alloc);
    for slot in slots {
        phases.push(first_phase(alloc, number, entries, *slot)?)?;
    }
    Ok(phases.into_vec())
}

fn first_phase(alloc: Global, number: u8, entries: &ManagerMap, slot: u8) -> Mem<SlotPhase>
    ensures { IfOk result (λ phase. phase ≡ first_phase number entries.now slot) }
{
    if entries.of(Ino(u32::from(slot))).manager == number {
        first_active(alloc)
    } else {
        Ok(SlotPhase::Away { epoch: 1 })
    }
}

fn unknown_phases(alloc: Global, slots: &[u8]) -> Mem<Vec<SlotPhase>>
    ensures { IfOk result (λ phases. phases.items ≡ map unknown_phase slots.now) }
{
    let mut phases = List::new(alloc);
    for _slot in slots {
        phases.push(SlotPhase::Away { epoch: 0 })?;
    }
    Ok(phases.into_vec())
}

fn next_active(phases: &[SlotPhase], slots: &[u8], from: u8) -> Option<u8>
    ensures { result ≡ find (is_next phases.now from) slots.now }
{
    for slot in slots {
        if is_next(phases, from, *slot) {
            return Some(*slot);
        }
    }
    None
}

fn is_next(phases: &[SlotPhase], from: u8, slot: u8) -> bool
    ensures { result ≡ is_next phases.now from slot }
{
    from <= slot && is_active(phases, slot)
}

fn is_active(phases: &[SlotPhase], slot: u8) -> bool
    ensures { result ≡ is_active_at phases.now slot }
{
    match phases.get(usize::from(slot)) {
        Some(phase) => phase.is_active(),
        None => false,
    }
}

fn say_usage(alloc: Global, effects: &mut Effects, phases: &[SlotPhase], asked: UsageAsk) -> Mem<()>
    ensures { OnOk result (effects.new ≡ effects.old ++ usage_in asked (slice_get phases.now asked.slot)) }
{
    match phases.get(usize::from(asked.slot)) {
        Some(phase) => tokens::on_usage_ask(alloc, effects, phase, asked),
        None => Ok(()),
    }
}

fn begin_at(alloc: Global, phases: &[SlotPhase], slot: u8) -> Mem<Option<In>>
    ensures { IfOk result (λ input. input ≡ begin_at phases.now slot) }
{
    match phases.get(usize::from(slot)) {
        Some(phase) => begin_in(alloc, slot, phase),
        None => Ok(None),
    }
}

fn begin_in(alloc: Global, slot: u8, phase: &SlotPhase) -> Mem<Option<In>>
    ensures { IfOk result (λ input. input ≡ begin_in slot phase.now) }
{
    match phase {
        SlotPhase::Active(active) => Ok(Some(begin_with(alloc, slot, active)?)),
        _ => Ok(None),
    }
}

fn begin_with(alloc: Global, slot: u8, active: &Active) -> Mem<In>
    ensures { IfOk result (λ input. input ≡ begin_with slot active.now) }
{
    let horizon = horizon_over(alloc, &active.slot, &LOGS)?;
    match planned(alloc, active) {
        Ok(Plan { pages, parts }) => Ok(In::Begin {
            slot,
            epoch: active.slot.epoch(),
            pages,
            parts,
            horizon,
        }),
        Err(error) => {
            drop(horizon);
            Err(error)
        }
    }
}

fn planned(alloc: Global, active: &Active) -> Mem<Plan>
    ensures { IfOk result (λ plan. plan ≡ plan_of (pages_of active.now.slot.index) active.now.parts) }
{
    let parts = active.parts.copy(alloc)?;
    plan_of(alloc, active.slot.pages(), parts)
}

#[tactic(auto, unfolding(crate::specs::SlotTable::phase_clean))]
fn clean(phase: &mut SlotPhase)
    ensures { phase.new ≡ phase_clean phase.old }
{
    match phase {
        SlotPhase::Active(active) => active.slot.clean(),
        _ => {}
    }
}

#[tactic(auto, unfolding(crate::specs::SlotTable::phase_name))]
fn name(phase: &mut SlotPhase, epoch: u32, parts: List<SegRef>)
    ensures { phase.new ≡ phase_name epoch parts phase.old }
{
    match phase {
        SlotPhase::Active(active) => {
            if active.slot.epoch() == epoch {
                drop(mem::replace(&mut active.parts, parts));
            } else {
                drop(parts);
            }
        }
        _ => drop(parts),
    }
}

// For each of these logs the first segment that the index of the slot does not cover.
fn horizon_over(alloc: Global, slot: &Slot, logs: &[u8]) -> Mem<List<u32>>
    ensures { IfOk result (λ horizon. horizon ≡ map (next_of slot.now) logs.now) }
{
    let mut horizon = List::new(alloc);
    for log in logs {
        horizon.push(next_of(slot, *log))?;
    }
    Ok(horizon)
}

fn next_of(slot: &Slot, log: u8) -> u32
    ensures { result ≡ next_of slot.now log }
{
    slot.applied(LogId(log)).saturating_add(1)
}
