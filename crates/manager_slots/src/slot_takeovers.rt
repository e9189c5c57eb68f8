//! How the slots of a manager are taken over.
ghost use Rattle.std.specs.Prelude.{◌≡◌, ◌++◌, OnOk};
ghost use Rattle.xfs_base.specs.Steps.{steps};
ghost use Rattle.manager_slots.specs.Takeovers.{asker};
ghost use Rattle.manager_slots.specs.SlotTable.{table_asker, hearer, all_slots, slot_table_take, on_report, slot_table_ask, slot_table_ask_again, regroup_one, slot_table_regroup, hear_of, slot_table_hear, hear_each, fetch_at, fetch_among};

use crate::slot_phase::SlotPhase;
use crate::slot_table::{SLOTS, SlotTable};
use crate::takeovers;
use group_map::GroupMap;
use node_base::{Effects, Questions};
use std::alloc::Global;
use std::mem;
use wire_msg::Report;
use xfs_base::{Mem, NodeId, SlotNews};

/// Who hears of slots.
#[derive(Clone, Copy)]
pub struct Ears {
    /// The number of the manager.
    pub number: u8,
    /// How many clients there are.
    pub clients: u8,
}

impl SlotTable {
    /// The takeover of a slot takes an input.
    #[tactic(auto, unfolding(crate::specs::SlotTable::slot_table_take))]
    pub fn take(
        &mut self,
        alloc: Global,
        effects: &mut Effects,
        questions: &mut Questions,
        slot: u8,
        input: takeover::In,
    ) -> Mem<()>
        ensures state { OnOk result (self.new ≡ (slot_table_take (table_asker self.old questions.old) slot input).state.table) }
        ensures questions { OnOk result (questions.new ≡ (slot_table_take (table_asker self.old questions.old) slot input).state.questions) }
        ensures effects { OnOk result (effects.new ≡ effects.old ++ (slot_table_take (table_asker self.old questions.old) slot input).outs) }
    {
        match self.phases.get_mut(usize::from(slot)) {
            Some(phase) => takeovers::take(alloc, effects, questions, phase, slot, input),
            None => Ok(()),
        }
    }

    /// A client or the cleaner says what it holds.
    #[tactic(auto, unfolding(crate::specs::SlotTable::on_report))]
    pub fn on_report(
        &mut self,
        alloc: Global,
        effects: &mut Effects,
        questions: &mut Questions,
        from: NodeId,
        report: &Report,
    ) -> Mem<()>
        ensures state { OnOk result (self.new ≡ (on_report (table_asker self.old questions.old) from report.now).state.table) }
        ensures questions { OnOk result (questions.new ≡ (on_report (table_asker self.old questions.old) from report.now).state.questions) }
        ensures effects { OnOk result (effects.new ≡ effects.old ++ (on_report (table_asker self.old questions.old) from report.now).outs) }
    {
        match self.phases.get_mut(usize::from(report.slot)) {
            Some(phase) => takeovers::on_report(alloc, effects, questions, phase, from, report),
            None => Ok(()),
        }
    }

    /// The takeovers' polls are sent again, or what else they ask.
    pub fn ask_again(
        &mut self,
        alloc: Global,
        effects: &mut Effects,
        questions: &mut Questions,
        polls: bool,
    ) -> Mem<()>
        ensures state { OnOk result (self.new ≡ (slot_table_ask_again polls (table_asker self.old questions.old)).state.table) }
        ensures questions { OnOk result (questions.new ≡ (slot_table_ask_again polls (table_asker self.old questions.old)).state.questions) }
        ensures effects { OnOk result (effects.new ≡ effects.old ++ (slot_table_ask_again polls (table_asker self.old questions.old)).outs) }
    {
        self.ask_each(alloc, effects, questions, polls, &SLOTS)
    }

    fn ask_each(
        &mut self,
        alloc: Global,
        effects: &mut Effects,
        questions: &mut Questions,
        polls: bool,
        slots: &[u8],
    ) -> Mem<()>
        ensures state { OnOk result (self.new ≡ (steps (slot_table_ask polls) (table_asker self.old questions.old) slots.now).state.table) }
        ensures questions { OnOk result (questions.new ≡ (steps (slot_table_ask polls) (table_asker self.old questions.old) slots.now).state.questions) }
        ensures effects { OnOk result (effects.new ≡ effects.old ++ (steps (slot_table_ask polls) (table_asker self.old questions.old) slots.now).outs) }
    {
        for slot in slots {
            self.ask(alloc, effects, questions, polls, *slot)?;
        }
        Ok(())
    }

    #[tactic(auto, unfolding(crate::specs::SlotTable::slot_table_ask))]
    fn ask(
        &mut self,
        alloc: Global,
        effects: &mut Effects,
        questions: &mut Questions,
        polls: bool,
        slot: u8,
    ) -> Mem<()>
        ensures state { OnOk result (self.new ≡ (slot_table_ask polls (table_asker self.old questions.old) slot).state.table) }
        ensures questions { OnOk result (questions.new ≡ (slot_table_ask polls (table_asker self.old questions.old) slot).state.questions) }
        ensures effects { OnOk result (effects.new ≡ effects.old ++ (slot_table_ask polls (table_asker self.old questions.old) slot).outs) }
    {
        match self.phases.get_mut(usize::from(slot)) {
            Some(phase) => takeovers::ask_again(alloc, effects, questions, phase, slot, polls),
            None => Ok(()),
        }
    }

    /// Newer groups are told to each takeover.
    pub fn regroup(
        &mut self,
        alloc: Global,
        effects: &mut Effects,
        questions: &mut Questions,
        groups: &GroupMap,
    ) -> Mem<()>
        ensures state { OnOk result (self.new ≡ (slot_table_regroup groups.now (table_asker self.old questions.old)).state.table) }
        ensures questions { OnOk result (questions.new ≡ (slot_table_regroup groups.now (table_asker self.old questions.old)).state.questions) }
        ensures effects { OnOk result (effects.new ≡ effects.old ++ (slot_table_regroup groups.now (table_asker self.old questions.old)).outs) }
    {
        self.regroup_each(alloc, effects, questions, groups, &SLOTS)
    }

    fn regroup_each(
        &mut self,
        alloc: Global,
        effects: &mut Effects,
        questions: &mut Questions,
        groups: &GroupMap,
        slots: &[u8],
    ) -> Mem<()>
        ensures state { OnOk result (self.new ≡ (steps (regroup_one groups.now) (table_asker self.old questions.old) slots.now).state.table) }
        ensures questions { OnOk result (questions.new ≡ (steps (regroup_one groups.now) (table_asker self.old questions.old) slots.now).state.questions) }
        ensures effects { OnOk result (effects.new ≡ effects.old ++ (steps (regroup_one groups.now) (table_asker self.old questions.old) slots.now).outs) }
    {
        for slot in slots {
            self.regroup_one(alloc, effects, questions, groups, *slot)?;
        }
        Ok(())
    }

    #[tactic(auto, unfolding(crate::specs::SlotTable::slot_table_take))]
    fn regroup_one(
        &mut self,
        alloc: Global,
        effects: &mut Effects,
        questions: &mut Questions,
        groups: &GroupMap,
        slot: u8,
    ) -> Mem<()>
        ensures state { OnOk result (self.new ≡ (regroup_one groups.now (table_asker self.old questions.old) slot).state.table) }
        ensures questions { OnOk result (questions.new ≡ (regroup_one groups.now (table_asker self.old questions.old) slot).state.questions) }
        ensures effects { OnOk result (effects.new ≡ effects.old ++ (regroup_one groups.now (table_asker self.old questions.old) slot).outs) }
    {
        match self.phases.get_mut(usize::from(slot)) {
            Some(phase) => takeovers::regroup(alloc, effects, questions, phase, slot, groups),
            None => Ok(()),
        }
    }

    /// The maps tell of slots, in order.
    pub fn hear_each(
        &mut self,
        alloc: Global,
        effects: &mut Effects,
        questions: &mut Questions,
        ears: Ears,
        groups: &GroupMap,
        slots: &[SlotNews],
    ) -> Mem<()>
        ensures state { OnOk result (self.new ≡ (hear_each (hearer ears groups.now) (table_asker self.old questions.old) slots.now).state.table) }
        ensures questions { OnOk result (questions.new ≡ (hear_each (hearer ears groups.now) (table_asker self.old questions.old) slots.now).state.questions) }
        ensures effects { OnOk result (effects.new ≡ effects.old ++ (hear_each (hearer ears groups.now) (table_asker self.old questions.old) slots.now).outs) }
    {
        for news in slots {
            self.hear(alloc, effects, questions, ears, groups, news)?;
        }
        Ok(())
    }

    #[tactic(auto, unfolding(crate::specs::SlotTable::slot_table_hear))]
    fn hear(
        &mut self,
        alloc: Global,
        effects: &mut Effects,
        questions: &mut Questions,
        ears: Ears,
        groups: &GroupMap,
        news: &SlotNews,
    ) -> Mem<()>
        ensures state { OnOk result (self.new ≡ (slot_table_hear (hearer ears groups.now) (table_asker self.old questions.old) news.now).state.table) }
        ensures questions { OnOk result (questions.new ≡ (slot_table_hear (hearer ears groups.now) (table_asker self.old questions.old) news.now).state.questions) }
        ensures effects { OnOk result (effects.new ≡ effects.old ++ (slot_table_hear (hearer ears groups.now) (table_asker self.old questions.old) news.now).outs) }
    {
        match self.phases.get_mut(usize::from(news.slot)) {
            Some(phase) => hear_of(alloc, effects, questions, ears, groups, phase, news),
            None => Ok(()),
        }
    }

    /// The first slot whose takeover awaits the answer to this question, and its number of the question.
    pub fn fetch_of(&self, ask: u32) -> Option<(u8, u32)>
        ensures { result ≡ fetch_among self.now ask all_slots }
    {
        fetch_among(&self.phases, &SLOTS, ask)
    }
}

fn fetch_among(phases: &[SlotPhase], slots: &[u8], ask: u32) -> Option<(u8, u32)>
    ensures { result ≡ fetch_among phases.now ask slots.now }
{
    for slot in slots {
        if let Some(own) = fetch_at(phases, *slot, ask) {
            return Some((*slot, own));
        }
    }
    None
}

fn fetch_at(phases: &[SlotPhase], slot: u8, ask: u32) -> Option<u32>
    ensures { result ≡ fetch_at phases.now ask slot }
{
    match phases.get(usize::from(slot)) {
        Some(phase) => phase.fetch_of(ask),
        None => None,
    }
}

// The maps name a slot: where its epoch is greater, and they give it to this manager, it takes the slot over,
// and else it leaves it.
#[tactic(auto, unfolding(crate::specs::SlotTable::hear_of))]
fn hear_of(
    alloc: Global,
    effects: &mut Effects,
    questions: &mut Questions,
    ears: Ears,
    groups: &GroupMap,
    phase: &mut SlotPhase,
    news: &SlotNews,
) -> Mem<()>
    ensures state { OnOk result (phase.new ≡ (hear_of (hearer ears groups.now) news.now (asker phase.old questions.old)).state.phase) }
    ensures questions { OnOk result (questions.new ≡ (hear_of (hearer ears groups.now) news.now (asker phase.old questions.old)).state.questions) }
    ensures effects { OnOk result (effects.new ≡ effects.old ++ (hear_of (hearer ears groups.now) news.now (asker phase.old questions.old)).outs) }
{
    if news.epoch <= phase.epoch() {
        return Ok(());
    }
    let next = takeovers::phase_of(alloc, ears.number, news, groups, ears.clients)?;
    drop(mem::replace(phase, next));
    takeovers::take(
        alloc,
        effects,
        questions,
        phase,
        news.slot,
        takeover::In::Tick,
    )
}
