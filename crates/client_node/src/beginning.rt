//! The next item of a client begins.
ghost use Rattle.std.specs.Prelude.{◌≡◌, ◌++◌, ℕ, IfOk, OnOk};
ghost use Rattle.client_node.specs.declared.phase.Phase.TheVariants.{Down, Opening as Opens, Serving as Serves};
ghost use Rattle.client_node.specs.Parts.{after_down, after_opening, after_serving};
ghost use Rattle.client_node.specs.Phases.{wish_at, on_begin, cut, restart};
ghost use Rattle.client_serving.specs.Lasting.{live_on};
ghost use Rattle.log_owner.specs.declared.opening.Opening.{Opening as AnOpening};
ghost use Rattle.node_base.specs.Beginning.{items_answer};

use crate::crash::fall;
use client_running::open;
use client_serving::{Lasting, Serving};
use log_owner::{Opening, Owner};
use node_base::Effects;
use std::alloc::Global;
use version_model::{Answer, Work};
use xfs_base::Mem;

/// What an item asks for.
#[derive(Clone, Copy)]
pub(crate) enum Wish {
    /// That the client crashes.
    Crash,
    /// That it starts again.
    Restart,
    /// A call.
    Call,
}

fn wish_at(lasting: &Lasting, number: u32) -> Wish
    ensures { result ≡ wish_at lasting.now number }
{
    match lasting.items.work(number) {
        Some(Work::Crash { .. }) => Wish::Crash,
        Some(Work::Restart { .. }) => Wish::Restart,
        _ => Wish::Call,
    }
}

/// The next item of a client that is down: a restart, and all else is refused. The opening of its log, where
/// it restarts.
#[tactic(auto, unfolding(crate::specs::Phases::on_begin))]
pub(crate) fn begin_down(
    alloc: Global,
    effects: &mut Effects,
    servers: u8,
    lasting: &mut Lasting,
) -> Mem<Option<Opening>>
    ensures phase { IfOk result (λ opening. after_down lasting.new opening ≡ (on_begin servers (Down lasting.old)).state) }
    ensures effects { OnOk result (effects.new ≡ effects.old ++ (on_begin servers (Down lasting.old)).outs) }
{
    let Some(number) = lasting.items.begin() else {
        return Ok(None);
    };
    match wish_at(lasting, number) {
        Wish::Restart => Ok(Some(restart(alloc, effects, servers, lasting, number)?)),
        Wish::Crash | Wish::Call => {
            effects.answer(number, Answer::Down)?;
            Ok(None)
        }
    }
}

// The client starts again: its log is opened again.
fn restart(
    alloc: Global,
    effects: &mut Effects,
    servers: u8,
    lasting: &mut Lasting,
    number: u32,
) -> Mem<Opening>
    ensures phase { IfOk result (λ opening. Opens lasting.new opening ≡ (restart servers (live_on lasting.old number)).state) }
    ensures effects { OnOk result (effects.new ≡ effects.old ++ (restart servers (live_on lasting.old number)).outs) }
{
    lasting.live_on(number);
    let owner = Owner {
        log: lasting.log(),
        inc: lasting.inc,
    };
    Opening::start(alloc, effects, &mut lasting.questions, owner, servers)
}

/// The next item of a client that opens its log: a crash, and all else is refused. Whether it crashed.
#[tactic(auto, unfolding(crate::specs::Phases::on_begin))]
pub(crate) fn begin_opening(effects: &mut Effects, lasting: &mut Lasting) -> Mem<bool>
    ensures phase { IfOk result (λ down. (servers : ℕ) (o : AnOpening) → after_opening lasting.new o down ≡ (on_begin servers (Opens lasting.old o)).state) }
    ensures effects { OnOk result ((servers : ℕ) (o : AnOpening) → effects.new ≡ effects.old ++ (on_begin servers (Opens lasting.old o)).outs) }
{
    let Some(number) = lasting.items.begin() else {
        return Ok(false);
    };
    match wish_at(lasting, number) {
        Wish::Crash => {
            cut(effects, lasting, number)?;
            Ok(true)
        }
        Wish::Restart => {
            effects.answer(number, Answer::Up)?;
            Ok(false)
        }
        Wish::Call => {
            effects.answer(number, Answer::Down)?;
            Ok(false)
        }
    }
}

/// The next item of a client that serves. Whether it crashed.
#[tactic(auto, unfolding(crate::specs::Phases::on_begin))]
pub(crate) fn begin_serving(
    alloc: Global,
    effects: &mut Effects,
    servers: u8,
    serving: &mut Serving,
) -> Mem<bool>
    ensures phase { IfOk result (λ down. after_serving serving.new down ≡ (on_begin servers (Serves serving.old)).state) }
    ensures effects { OnOk result (effects.new ≡ effects.old ++ (on_begin servers (Serves serving.old)).outs) }
{
    let Some(number) = serving.lasting.items.begin() else {
        return Ok(false);
    };
    match wish_at(&serving.lasting, number) {
        Wish::Crash => {
            fall(alloc, effects, serving)?;
            cut(effects, &mut serving.lasting, number)?;
            Ok(true)
        }
        Wish::Restart => {
            effects.answer(number, Answer::Up)?;
            Ok(false)
        }
        Wish::Call => {
            open(alloc, effects, serving, number)?;
            Ok(false)
        }
    }
}

// The client crashes: the item that is open is cut, and that of the crash is answered.
fn cut(effects: &mut Effects, lasting: &mut Lasting, number: u32) -> Mem<()>
    ensures lasting { OnOk result (lasting.new ≡ record lasting.old { items = items_answer lasting.old.items }) }
    ensures effects { OnOk result (effects.new ≡ effects.old ++ (cut lasting.old number).outs) }
{
    lasting.answer(effects, Answer::Cut)?;
    effects.answer(number, Answer::Done)
}
