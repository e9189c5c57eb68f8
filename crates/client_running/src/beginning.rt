//! A call begins at a client that serves.
ghost use Rattle.std.specs.Prelude.{◌≡◌, ◌++◌, IfOk, OnOk};
ghost use Rattle.client_running.specs.Opens.{begin_call, call_at, opens};
ghost use Rattle.node_base.specs.Beginning.{work_at};

use crate::running::{go_on, run};
use client_call::{Call, Going};
use client_serving::Serving;
use node_base::Effects;
use std::alloc::Global;
use version_model::Answer;
use xfs_base::Mem;

/// Opens the call of an item. One that comes while another is open is refused.
#[tactic(auto, unfolding(crate::specs::Opens::opens))]
pub fn open(alloc: Global, effects: &mut Effects, serving: &mut Serving, number: u32) -> Mem<()>
    ensures state { OnOk result (serving.new ≡ (opens serving.old number).state) }
    ensures effects { OnOk result (effects.new ≡ effects.old ++ (opens serving.old number).outs) }
{
    if serving.lasting.items.open().is_some() {
        return effects.answer(number, Answer::Busy);
    }
    let going = call_at(alloc, serving, number)?;
    begin_call(alloc, effects, serving, number, going)
}

// The call of an item; none where the item is no call.
fn call_at(alloc: Global, serving: &Serving, number: u32) -> Mem<Option<Going>>
    ensures { IfOk result (λ going. going ≡ call_at serving.now number (work_at serving.now.lasting.items number)) }
{
    match serving.lasting.items.work(number) {
        Some(work) => Call::of(alloc, work, number, serving.lasting.number),
        None => Ok(None),
    }
}

fn begin_call(
    alloc: Global,
    effects: &mut Effects,
    serving: &mut Serving,
    number: u32,
    going: Option<Going>,
) -> Mem<()>
    ensures state { OnOk result (serving.new ≡ (begin_call serving.old number going).state) }
    ensures effects { OnOk result (effects.new ≡ effects.old ++ (begin_call serving.old number going).outs) }
{
    let Some(going) = going else {
        return effects.answer(number, Answer::Done);
    };
    serving.lasting.items.wait(number);
    go_on(effects, serving, going)?;
    run(alloc, effects, serving)
}
