//! How a manager takes slots over.
ghost use Rattle.std.specs.Prelude.{◌≡◌, ◌++◌, ◌∷◌, [], IfOk, OnOk, All, filter};
ghost use Rattle.takeover.specs.Course.{StartsSlot};
ghost use Rattle.takeover.specs.TakeState.{take_start};
ghost use Rattle.node_base.specs.Asking.{number_for, asked_as, drawn_for};
ghost use Rattle.log_owner.specs.Sending.{fetch};
ghost use Rattle.manager_slots.specs.Takeovers.{asker, takeovers_fetch, takeovers_say, say_each, outs_of, takeovers_take, is_poll, is_wanted, takeovers_keep, takeovers_ask_again, on_report, phase_of, told_groups};

use crate::slot_phase::{Active, SlotPhase, Taking};
use group_map::GroupMap;
use log_owner::send_fetch;
use node_base::{Asked, Effects, Questions};
use std::alloc::Global;
use std::mem;
use takeover::{In, Out, Take};
use token_manager::Slot;
use wire_msg::{Body, Poll, Report};
use xfs_base::{List, Mem, NodeId, SegName, SlotNews};

/// What a manager has of a slot of which it hears of a new epoch: it takes the slot over where it is given
/// to it.
pub(crate) fn phase_of(
    alloc: Global,
    number: u8,
    news: &SlotNews,
    groups: &GroupMap,
    clients: u8,
) -> Mem<SlotPhase>
    ensures { IfOk result (λ phase. phase ≡ phase_of number news.now groups.now clients) }
{
    let epoch = news.epoch;
    if news.manager != number {
        return Ok(SlotPhase::Away { epoch });
    }
    Ok(SlotPhase::Taking(Taking {
        epoch,
        take: first_take(alloc, news, groups, clients)?,
        fetches: Asked::new(),
    }))
}

fn first_take(alloc: Global, news: &SlotNews, groups: &GroupMap, clients: u8) -> Mem<Take>
    ensures { IfOk result (λ take. take ≡ take_start news.now groups.now clients) }
{
    let news = news.copy(alloc)?;
    match groups.copy(alloc) {
        Ok(groups) => Take::start(alloc, news, groups, clients),
        Err(error) => {
            drop(news);
            Err(error)
        }
    }
}

/// A client or the cleaner says what it holds.
pub(crate) fn on_report(
    alloc: Global,
    effects: &mut Effects,
    questions: &mut Questions,
    phase: &mut SlotPhase,
    from: NodeId,
    report: &Report,
) -> Mem<()>
    ensures state { OnOk result (phase.new ≡ (on_report (asker phase.old questions.old) from report.now).state.phase) }
    ensures questions { OnOk result (questions.new ≡ (on_report (asker phase.old questions.old) from report.now).state.questions) }
    ensures effects { OnOk result (effects.new ≡ effects.old ++ (on_report (asker phase.old questions.old) from report.now).outs) }
{
    if report.epoch != phase.epoch() {
        return Ok(());
    }
    let input = In::Report {
        from,
        held: report.held.copy(alloc)?,
        end: report.end,
    };
    take(alloc, effects, questions, phase, report.slot, input)
}

/// A takeover that is under way takes an input, and what it says is done.
#[tactic(auto, unfolding(crate::specs::Takeovers::takeovers_take))]
pub(crate) fn take(
    alloc: Global,
    effects: &mut Effects,
    questions: &mut Questions,
    phase: &mut SlotPhase,
    slot: u8,
    input: In,
) -> Mem<()>
    ensures state { OnOk result (phase.new ≡ (takeovers_take (asker phase.old questions.old) slot input).state.phase) }
    ensures questions { OnOk result (questions.new ≡ (takeovers_take (asker phase.old questions.old) slot input).state.questions) }
    ensures effects { OnOk result (effects.new ≡ effects.old ++ (takeovers_take (asker phase.old questions.old) slot input).outs) }
{
    let outs = outs_of(alloc, phase, input)?;
    say_each(alloc, effects, questions, phase, slot, outs)
}

/// A takeover that is under way hears of newer groups, which are copied for it alone.
#[tactic(auto, unfolding(crate::specs::Takeovers::takeovers_take, crate::specs::Takeovers::outs_of, crate::specs::Takeovers::say_each))]
pub(crate) fn regroup(
    alloc: Global,
    effects: &mut Effects,
    questions: &mut Questions,
    phase: &mut SlotPhase,
    slot: u8,
    groups: &GroupMap,
) -> Mem<()>
    ensures state { OnOk result (phase.new ≡ (takeovers_take (asker phase.old questions.old) slot (told_groups groups.now)).state.phase) }
    ensures questions { OnOk result (questions.new ≡ (takeovers_take (asker phase.old questions.old) slot (told_groups groups.now)).state.questions) }
    ensures effects { OnOk result (effects.new ≡ effects.old ++ (takeovers_take (asker phase.old questions.old) slot (told_groups groups.now)).outs) }
{
    if !phase.is_taking() {
        return Ok(());
    }
    take(
        alloc,
        effects,
        questions,
        phase,
        slot,
        In::Maps(groups.copy(alloc)?),
    )
}

/// Time passes: a takeover's polls are sent again, or what else it asks.
#[tactic(auto, unfolding(crate::specs::Takeovers::takeovers_ask_again))]
pub(crate) fn ask_again(
    alloc: Global,
    effects: &mut Effects,
    questions: &mut Questions,
    phase: &mut SlotPhase,
    slot: u8,
    polls: bool,
) -> Mem<()>
    ensures state { OnOk result (phase.new ≡ (takeovers_ask_again (asker phase.old questions.old) slot polls).state.phase) }
    ensures questions { OnOk result (questions.new ≡ (takeovers_ask_again (asker phase.old questions.old) slot polls).state.questions) }
    ensures effects { OnOk result (effects.new ≡ effects.old ++ (takeovers_ask_again (asker phase.old questions.old) slot polls).outs) }
{
    let outs = outs_of(alloc, phase, In::Tick)?;
    let outs = wanted(alloc, outs, polls)?;
    say_each(alloc, effects, questions, phase, slot, outs)
}

// The polls alone, or all else.
fn wanted(alloc: Global, outs: List<Out>, polls: bool) -> Mem<List<Out>>
    ensures { IfOk result (λ kept. kept ≡ filter (is_wanted polls) outs) }
{
    let mut kept = List::new(alloc);
    for out in outs.into_vec() {
        keep(&mut kept, polls, out)?;
    }
    Ok(kept)
}

fn keep(kept: &mut List<Out>, polls: bool, out: Out) -> Mem<()>
    ensures { OnOk result (kept.new ≡ kept.old ++ takeovers_keep polls out) }
{
    if is_wanted(polls, &out) {
        kept.push(out)?;
    }
    Ok(())
}

fn is_wanted(polls: bool, out: &Out) -> bool
    ensures { result ≡ is_wanted polls out.now }
{
    if polls { is_poll(out) } else { !is_poll(out) }
}

fn is_poll(out: &Out) -> bool
    ensures { result ≡ is_poll out.now }
{
    matches!(out, Out::Poll { .. })
}

// What a takeover that is under way says to an input.
#[tactic(auto, unfolding(crate::specs::Takeovers::outs_of))]
fn outs_of(alloc: Global, phase: &mut SlotPhase, input: In) -> Mem<List<Out>>
    ensures state { OnOk result (phase.new ≡ (outs_of phase.old input).state) }
    ensures outs { IfOk result (λ outs. outs ≡ (outs_of phase.old input).outs) }
    ensures starts { IfOk result (λ outs. All StartsSlot outs) }
{
    match phase {
        SlotPhase::Taking(taking) => taking.take.take(alloc, input),
        _ => {
            drop(input);
            Ok(List::new(alloc))
        }
    }
}

#[tactic(auto, unfolding(crate::specs::Takeovers::say_each))]
fn say_each(
    alloc: Global,
    effects: &mut Effects,
    questions: &mut Questions,
    phase: &mut SlotPhase,
    slot: u8,
    outs: List<Out>,
) -> Mem<()>
    requires { All StartsSlot outs }
    ensures state { OnOk result (phase.new ≡ (say_each slot (asker phase.old questions.old) outs).state.phase) }
    ensures questions { OnOk result (questions.new ≡ (say_each slot (asker phase.old questions.old) outs).state.questions) }
    ensures effects { OnOk result (effects.new ≡ effects.old ++ (say_each slot (asker phase.old questions.old) outs).outs) }
{
    for out in outs.into_vec() {
        say(alloc, effects, questions, phase, slot, out)?;
    }
    Ok(())
}

// What a takeover says is done.
#[tactic(auto, unfolding(crate::specs::Takeovers::takeovers_say))]
fn say(
    alloc: Global,
    effects: &mut Effects,
    questions: &mut Questions,
    phase: &mut SlotPhase,
    slot: u8,
    out: Out,
) -> Mem<()>
    requires { StartsSlot out }
    ensures state { OnOk result (phase.new ≡ (takeovers_say slot (asker phase.old questions.old) out).state.phase) }
    ensures questions { OnOk result (questions.new ≡ (takeovers_say slot (asker phase.old questions.old) out).state.questions) }
    ensures effects { OnOk result (effects.new ≡ effects.old ++ (takeovers_say slot (asker phase.old questions.old) out).outs) }
{
    let epoch = phase.epoch();
    match out {
        Out::Poll { to } => effects.send(to, Body::Poll(Poll { slot, epoch })),
        Out::Fetch { server, name, ask } => fetch(effects, questions, phase, server, name, ask),
        Out::Active {
            epoch,
            index,
            beliefs,
            applied,
        } => {
            let slot = Slot::start(alloc, epoch, index, beliefs, applied)?;
            let parts = List::new(alloc);
            end(phase, SlotPhase::Active(Active { slot, parts }));
            Ok(())
        }
        Out::Lost { name: seg } => {
            end(phase, SlotPhase::Broken { epoch, seg });
            effects.lose(seg)
        }
    }
}

// A takeover ends so.
fn end(phase: &mut SlotPhase, next: SlotPhase)
    ensures { phase.new ≡ next }
{
    drop(mem::replace(phase, next));
}

fn fetch(
    effects: &mut Effects,
    questions: &mut Questions,
    phase: &mut SlotPhase,
    server: u8,
    name: SegName,
    own: u32,
) -> Mem<()>
    ensures state { OnOk result (phase.new ≡ (takeovers_fetch phase.old questions.old server name own).state.phase) }
    ensures questions { OnOk result (questions.new ≡ (takeovers_fetch phase.old questions.old server name own).state.questions) }
    ensures effects { OnOk result (effects.new ≡ effects.old ++ (takeovers_fetch phase.old questions.old server name own).outs) }
{
    match phase {
        SlotPhase::Taking(taking) => {
            fetch_as(effects, questions, &mut taking.fetches, server, name, own)
        }
        _ => Ok(()),
    }
}

// A server is asked under the question of the manager's that is out for the takeover's.
fn fetch_as(
    effects: &mut Effects,
    questions: &mut Questions,
    asked: &mut Asked,
    server: u8,
    name: SegName,
    own: u32,
) -> Mem<()>
    ensures asked { asked.new ≡ asked_as asked.old questions.old own }
    ensures questions { questions.new ≡ drawn_for asked.old questions.old own }
    ensures effects { OnOk result (effects.new ≡ effects.old ++ fetch name (number_for asked.old questions.old own) server ∷ []) }
{
    let ask = asked.number(questions, own);
    send_fetch(effects, server, name, ask)
}
