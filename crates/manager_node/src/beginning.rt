//! The next item of a manager begins.
ghost use Rattle.std.specs.Prelude.{◌≡◌, ◌++◌, ◌∷◌, [], IfOk, OnOk};
ghost use Rattle.log_owner.specs.Sending as sending;
ghost use Rattle.node_base.specs.declared.effects.Effect.TheVariants.{Answer as Answers};
ghost use Rattle.version_model.specs.declared.answer.Answer.TheVariants.{Done};
ghost use Rattle.manager_node.specs.Phases.{manager_answer, serves, wish_of, crash, restart, serving_wish, begin_down, begin_waiting, begin_serving};
ghost use Rattle.manager_slots.specs.Lasting.{lasting_answer};
ghost use Rattle.manager_serving.specs.Checkpoints as checkpoints;

use crate::phase::Phase;
use log_owner::sending::send_hello;
use manager_serving::Serving;
use manager_slots::Lasting;
use node_base::Effects;
use std::alloc::Global;
use version_model::{Answer, Work};
use xfs_base::Mem;

/// What an item asks for.
#[derive(Clone, Copy)]
pub(crate) enum Wish {
    /// That the manager crashes.
    Crash,
    /// That it starts again.
    Restart,
    /// A checkpoint of its slots.
    Checkpoint,
}

fn wish_of(lasting: &Lasting, number: u32) -> Wish
    ensures { result ≡ wish_of lasting.now number }
{
    match lasting.items.work(number) {
        Some(Work::Crash { node: _ }) => Wish::Crash,
        Some(Work::Restart { node: _ }) => Wish::Restart,
        _ => Wish::Checkpoint,
    }
}

/// The next item of a manager that is down: a restart is begun, and all else is refused.
#[tactic(auto, unfolding(crate::specs::Phases::begin_down))]
pub(crate) fn begin_down(effects: &mut Effects, lasting: Lasting) -> Mem<Phase>
    ensures state { IfOk result (λ phase. phase ≡ (begin_down lasting).state) }
    ensures effects { OnOk result (effects.new ≡ effects.old ++ (begin_down lasting).outs) }
{
    let mut lasting = lasting;
    let Some(number) = lasting.items.begin() else {
        return Ok(Phase::Down(lasting));
    };
    match wish_of(&lasting, number) {
        Wish::Restart => restart(effects, lasting, number),
        Wish::Crash | Wish::Checkpoint => {
            answer(effects, Phase::Down(lasting), number, Answer::Down)
        }
    }
}

/// The next item of a manager that awaits its Welcome: it manages no slot yet.
#[tactic(auto, unfolding(crate::specs::Phases::begin_waiting))]
pub(crate) fn begin_waiting(effects: &mut Effects, lasting: Lasting, hello: u32) -> Mem<Phase>
    ensures state { IfOk result (λ phase. phase ≡ (begin_waiting lasting hello).state) }
    ensures effects { OnOk result (effects.new ≡ effects.old ++ (begin_waiting lasting hello).outs) }
{
    let mut lasting = lasting;
    let Some(number) = lasting.items.begin() else {
        return Ok(Phase::Waiting(lasting, hello));
    };
    match wish_of(&lasting, number) {
        Wish::Crash => crash(effects, lasting, number),
        Wish::Restart => answer(effects, Phase::Waiting(lasting, hello), number, Answer::Up),
        Wish::Checkpoint => {
            answer(
                effects,
                Phase::Waiting(lasting, hello),
                number,
                Answer::Count(0),
            )
        }
    }
}

/// The next item of a manager that serves.
#[tactic(auto, unfolding(crate::specs::Phases::begin_serving))]
pub(crate) fn begin_serving(alloc: Global, effects: &mut Effects, serving: Serving) -> Mem<Phase>
    ensures state { IfOk result (λ phase. phase ≡ (begin_serving serving).state) }
    ensures effects { OnOk result (effects.new ≡ effects.old ++ (begin_serving serving).outs) }
{
    let mut serving = serving;
    let Some(number) = serving.lasting.items.begin() else {
        return Ok(Phase::Serving(serving));
    };
    let wish = wish_of(&serving.lasting, number);
    serving_wish(alloc, effects, serving, number, wish)
}

fn serving_wish(
    alloc: Global,
    effects: &mut Effects,
    serving: Serving,
    number: u32,
    wish: Wish,
) -> Mem<Phase>
    ensures state { IfOk result (λ phase. phase ≡ (serving_wish serving number wish).state) }
    ensures effects { OnOk result (effects.new ≡ effects.old ++ (serving_wish serving number wish).outs) }
{
    match wish {
        Wish::Crash => crash_serving(effects, serving, number),
        Wish::Restart => answer(effects, Phase::Serving(serving), number, Answer::Up),
        Wish::Checkpoint => begin_checkpoint(alloc, effects, serving, number),
    }
}

// The item is answered at its begin, and nothing changes. What isn't held on is dropped by a call, here and
// below, so that each part of it is dropped in one proof.
fn answer(effects: &mut Effects, phase: Phase, number: u32, answer: Answer) -> Mem<Phase>
    ensures state { IfOk result (λ after. after ≡ (manager_answer phase number answer).state) }
    ensures effects { OnOk result (effects.new ≡ effects.old ++ (manager_answer phase number answer).outs) }
{
    match effects.answer(number, answer) {
        Ok(()) => Ok(phase),
        Err(error) => {
            drop(phase);
            Err(error)
        }
    }
}

fn crash_serving(effects: &mut Effects, serving: Serving, number: u32) -> Mem<Phase>
    ensures state { IfOk result (λ phase. phase ≡ (crash serving.lasting number).state) }
    ensures effects { OnOk result (effects.new ≡ effects.old ++ (crash serving.lasting number).outs) }
{
    crash(effects, serving.into_lasting(), number)
}

fn begin_checkpoint(
    alloc: Global,
    effects: &mut Effects,
    serving: Serving,
    number: u32,
) -> Mem<Phase>
    ensures state { IfOk result (λ phase. phase ≡ (serves (checkpoints.on_checkpoint serving number)).state) }
    ensures effects { OnOk result (effects.new ≡ effects.old ++ (checkpoints.on_checkpoint serving number).outs) }
{
    let mut serving = serving;
    match serving.on_checkpoint(alloc, effects, number) {
        Ok(()) => Ok(Phase::Serving(serving)),
        Err(error) => {
            drop(serving);
            Err(error)
        }
    }
}

// All is lost but what outlives a crash: the item that is open is cut.
#[tactic(auto, unfolding(crate::specs::Phases::crash))]
fn crash(effects: &mut Effects, lasting: Lasting, number: u32) -> Mem<Phase>
    ensures state { IfOk result (λ phase. phase ≡ (crash lasting number).state) }
    ensures effects { OnOk result (effects.new ≡ effects.old ++ (crash lasting number).outs) }
{
    let mut lasting = lasting;
    match cut(effects, &mut lasting, number) {
        Ok(()) => Ok(Phase::Down(lasting)),
        Err(error) => {
            drop(lasting);
            Err(error)
        }
    }
}

// The item that is open is cut, and that of the crash is answered.
#[tactic(auto, unfolding(crate::specs::Phases::crash))]
fn cut(effects: &mut Effects, lasting: &mut Lasting, number: u32) -> Mem<()>
    ensures lasting { OnOk result (lasting.new ≡ lasting_answer lasting.old) }
    ensures effects { OnOk result (effects.new ≡ effects.old ++ (crash lasting.old number).outs) }
{
    lasting.answer(effects, Answer::Cut)?;
    effects.answer(number, Answer::Done)
}

// The next incarnation begins: it asks for the maps.
#[tactic(auto, unfolding(crate::specs::Phases::restart))]
fn restart(effects: &mut Effects, lasting: Lasting, number: u32) -> Mem<Phase>
    ensures state { IfOk result (λ phase. phase ≡ (restart lasting number).state) }
    ensures effects { OnOk result (effects.new ≡ effects.old ++ (restart lasting number).outs) }
{
    let mut lasting = lasting;
    lasting.inc = lasting.inc.saturating_add(1);
    let hello = lasting.questions.draw();
    match greet(effects, lasting.inc, hello, number) {
        Ok(()) => Ok(Phase::Waiting(lasting, hello)),
        Err(error) => {
            drop(lasting);
            Err(error)
        }
    }
}

// The restart is answered, and the maps are asked for.
fn greet(effects: &mut Effects, inc: u32, ask: u32, number: u32) -> Mem<()>
    ensures { OnOk result (effects.new ≡ effects.old ++ (Answers number Done ∷ sending.hello inc ask ∷ [])) }
{
    effects.answer(number, Answer::Done)?;
    send_hello(effects, inc, ask)
}
