//! A client whose log is open again.
ghost use Rattle.std.specs.Prelude.{◌≡◌, ◌++◌, ◌∷◌, IfOk, OnOk};
ghost use Rattle.client_node.specs.Phases.{phase_after, back, served};
ghost use Rattle.log_owner.specs.Sending.{push_all};
ghost use Rattle.node_base.specs.Beginning.{items_answer, answers_unanswered};
ghost use Rattle.node_base.specs.declared.effects.Effect.TheVariants.{Does};
ghost use Rattle.version_model.specs.declared.act.Act.TheVariants.{Back};
ghost use Rattle.version_model.specs.declared.answer.Answer.TheVariants as answer;

use crate::Phase;
use crate::serving::serves_again;
use client_serving::{Lasting, Serving};
use log_owner::sending::push_all;
use log_owner::{Opened, Progress};
use node_base::Effects;
use std::alloc::Global;
use version_model::{Act, Answer};
use xfs_base::{List, Mem, SegName};

/// The phase after an event of an opening.
pub(crate) fn phase_after(
    alloc: Global,
    effects: &mut Effects,
    lasting: Lasting,
    cache: u16,
    progress: Progress,
) -> Mem<Phase>
    ensures phase { IfOk result (λ phase. phase ≡ (phase_after lasting cache progress).state) }
    ensures effects { OnOk result (effects.new ≡ effects.old ++ (phase_after lasting cache progress).outs) }
{
    match progress {
        Progress::Opening(opening) => Ok(Phase::Opening(lasting, opening)),
        Progress::Opened(opened) => {
            Ok(Phase::Serving(back(alloc, effects, lasting, cache, opened)?))
        }
        Progress::Lost(seg) => Ok(Phase::Down(lost(effects, lasting, seg)?)),
    }
}

// The log is lost: the client is down, and the restart is answered so.
fn lost(effects: &mut Effects, lasting: Lasting, seg: SegName) -> Mem<Lasting>
    ensures lasting { IfOk result (λ left. left ≡ record lasting { items = items_answer lasting.items }) }
    ensures effects { OnOk result (effects.new ≡ effects.old ++ answers_unanswered lasting.items.unanswered (answer.Lost seg)) }
{
    let mut lasting = lasting;
    match lasting.answer(effects, Answer::Lost(seg)) {
        Ok(()) => Ok(lasting),
        Err(error) => {
            drop(lasting);
            Err(error)
        }
    }
}

// The log is open: the client serves again, and tells all slots of its log.
fn back(
    alloc: Global,
    effects: &mut Effects,
    lasting: Lasting,
    cache: u16,
    opened: Opened,
) -> Mem<Serving>
    ensures serving { IfOk result (λ serving. serving ≡ served lasting cache opened) }
    ensures effects { OnOk result (effects.new ≡ effects.old ++ (back lasting cache opened).outs) }
{
    let (maps, promised, log, feed, chain) = opened.into_parts();
    match serves_again(alloc, lasting, cache, maps, promised, log, feed) {
        Ok(serving) => {
            let mut serving = serving;
            match say_back(alloc, effects, &mut serving, chain) {
                Ok(()) => Ok(serving),
                Err(error) => {
                    drop(serving);
                    Err(error)
                }
            }
        }
        Err(error) => {
            drop(chain);
            Err(error)
        }
    }
}

// That the client is back is acted, all slots are told of its log, and the restart is answered.
fn say_back(
    alloc: Global,
    effects: &mut Effects,
    serving: &mut Serving,
    chain: List<SegName>,
) -> Mem<()>
    ensures serving { OnOk result (serving.new ≡ record serving.old { lasting = record serving.old.lasting { items = items_answer serving.old.lasting.items } }) }
    ensures effects { OnOk result
        (effects.new ≡ effects.old
        ++ (Does (Back serving.old.lasting.number chain)
        ∷ (push_all serving.old.managers serving.old.feed ++ answers_unanswered serving.old.lasting.items.unanswered answer.Done))) }
{
    effects.act(Act::Back {
        client: serving.lasting.number,
        chain,
    })?;
    push_all(alloc, effects, &mut serving.feed, serving.managers)?;
    serving.lasting.answer(effects, Answer::Done)
}
