//! The open call: it is looked at at the end of each event.
ghost use Rattle.std.specs.Prelude.{◌≡◌, ◌++◌, IfOk, OnOk};
ghost use Rattle.client_running.specs.Running.{running_go_on, run_once, take_answer, run_upto, run};

use crate::blocks::make;
use client_call::call::hold;
use client_call::{Call, Going};
use client_serving::Serving;
use file_plan::BlockAnswer;
use node_base::Effects;
use std::alloc::Global;
use xfs_base::Mem;

/// How many calls on blocks a call makes in one event at most.
const MOST_STEPS: u32 = 4096;

/// Runs the open call until it must wait or is answered.
#[tactic(auto, unfolding(crate::specs::Running::run))]
pub fn run(alloc: Global, effects: &mut Effects, serving: &mut Serving) -> Mem<()>
    ensures state { OnOk result (serving.new ≡ (run serving.old).state) }
    ensures effects { OnOk result (effects.new ≡ effects.old ++ (run serving.old).outs) }
{
    run_upto(alloc, effects, serving, MOST_STEPS)
}

// Makes so many calls on blocks at most.
fn run_upto(alloc: Global, effects: &mut Effects, serving: &mut Serving, limit: u32) -> Mem<()>
    ensures state { OnOk result (serving.new ≡ (run_upto limit serving.old).state) }
    ensures effects { OnOk result (effects.new ≡ effects.old ++ (run_upto limit serving.old).outs) }
{
    let mut left = limit;
    while 0 < left {
        let goes = run_once(alloc, effects, serving)?;
        if !goes {
            return Ok(());
        }
        left -= 1;
    }
    Ok(())
}

// Makes the present call on blocks of the open call; says whether it was answered.
#[tactic(auto, unfolding(crate::specs::Running::run_once))]
fn run_once(alloc: Global, effects: &mut Effects, serving: &mut Serving) -> Mem<bool>
    ensures state { OnOk result (serving.new ≡ (run_once serving.old).done.state) }
    ensures effects { OnOk result (effects.new ≡ effects.old ++ (run_once serving.old).done.outs) }
    ensures goes { IfOk result (λ goes. goes ≡ (run_once serving.old).goes) }
{
    let Some(call) = serving.call.take() else {
        return Ok(false);
    };
    match make(alloc, effects, serving, &call.step) {
        Ok(made) => take_answer(alloc, effects, serving, call, made),
        Err(error) => {
            drop(call);
            Err(error)
        }
    }
}

// The open call was answered so by its call on blocks; says whether it was answered.
fn take_answer(
    alloc: Global,
    effects: &mut Effects,
    serving: &mut Serving,
    call: Call,
    made: Option<BlockAnswer>,
) -> Mem<bool>
    ensures state { OnOk result (serving.new ≡ (take_answer serving.old call made).done.state) }
    ensures effects { OnOk result (effects.new ≡ effects.old ++ (take_answer serving.old call made).done.outs) }
    ensures goes { IfOk result (λ goes. goes ≡ (take_answer serving.old call made).goes) }
{
    match made {
        None => {
            hold(&mut serving.call, call);
            Ok(false)
        }
        Some(answer) => {
            let going = call.into_plan().answered(alloc, answer)?;
            go_on(effects, serving, going)?;
            Ok(true)
        }
    }
}

/// The open call stands so: it goes on, or its item is answered.
#[tactic(auto, unfolding(crate::specs::Running::running_go_on))]
pub(crate) fn go_on(effects: &mut Effects, serving: &mut Serving, going: Going) -> Mem<()>
    ensures state { OnOk result (serving.new ≡ (running_go_on serving.old going).state) }
    ensures effects { OnOk result (effects.new ≡ effects.old ++ (running_go_on serving.old going).outs) }
{
    match going {
        Going::On(call) => {
            hold(&mut serving.call, call);
            Ok(())
        }
        Going::Ends(answer) => serving.lasting.answer(effects, answer),
    }
}
