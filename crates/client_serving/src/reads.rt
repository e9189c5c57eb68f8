//! Reading a block from a log.
ghost use Rattle.std.specs.Prelude.{◌≡◌, ◌++◌, ◌∷◌, OnOk, None};
ghost use Rattle.client_serving.specs.Packets.{end_fetch, on_told};
ghost use Rattle.client_serving.specs.Reads.{ask_after, begin_reading, go_on_reading, serving_confirm, drawn_after, lose_at, serving_read};
ghost use Rattle.node_base.specs.Beginning.{items_answer, answers_unanswered};
ghost use Rattle.node_base.specs.declared.effects.Effect.TheVariants.{Lose};
ghost use Rattle.token_client.specs.Transition.{on_quit};
ghost use Rattle.version_model.specs.declared.answer.Answer.TheVariants.{Lost};

use crate::{Lasting, Serving};
use client_call::Call;
use client_call::reads::{
    ask_reading, block_read, hear, same_target, set_reading, take_reading, target_of, value_at,
};
use node_base::Effects;
use segment_reading::{BlockAt, Next, Reading, Stage, Target};
use std::alloc::Global;
use stripe_code::Told;
use token_client::{In, Tokens};
use version_model::Answer;
use xfs_base::{BlockId, Mem, NodeId, Place, SegName};

impl Serving {
    /// A block is to be read at a place: that is confirmed where it is being read there and was asked for
    /// again, and else it is read anew.
    #[tactic(auto, unfolding(crate::specs::Reads::serving_read))]
    pub(crate) fn read(
        &mut self,
        alloc: Global,
        effects: &mut Effects,
        block: BlockId,
        place: Place,
    ) -> Mem<()>
        ensures state { OnOk result (self.new ≡ (serving_read self.old block place).state) }
        ensures effects { OnOk result (effects.new ≡ effects.old ++ (serving_read self.old block place).outs) }
    {
        if self.call.is_none() {
            return Ok(());
        }
        let target = target_of(block, place);
        let Some(reading) = take_reading(&mut self.call) else {
            return self.begin_reading(alloc, effects, target);
        };
        if same_target(reading.target(), target) {
            self.confirm(alloc, effects, reading)
        } else {
            drop(reading);
            self.begin_reading(alloc, effects, target)
        }
    }

    #[tactic(auto, unfolding(crate::specs::Reads::begin_reading))]
    fn begin_reading(&mut self, alloc: Global, effects: &mut Effects, target: Target) -> Mem<()>
        ensures state { OnOk result (self.new ≡ (begin_reading self.old target).state) }
        ensures effects { OnOk result (effects.new ≡ effects.old ++ (begin_reading self.old target).outs) }
    {
        let Some(groups) = &self.maps.groups else {
            return Ok(());
        };
        let Ok(group) = groups.lookup(target.seg.group) else {
            return Ok(());
        };
        let reading = Reading::start(alloc, target, group, self.lasting.questions.draw())?;
        ask_reading(alloc, effects, &mut self.call, reading)
    }

    // The place of a block was confirmed: a further round begins, or the segment is lost.
    #[tactic(auto, unfolding(crate::specs::Reads::serving_confirm))]
    fn confirm(&mut self, alloc: Global, effects: &mut Effects, reading: Reading) -> Mem<()>
        ensures state { OnOk result (self.new ≡ (serving_confirm self.old reading).state) }
        ensures effects { OnOk result (effects.new ≡ effects.old ++ (serving_confirm self.old reading).outs) }
    {
        let mut reading = reading;
        let ask = self.ask_after(reading.ask(), reading.stage());
        match reading.confirmed(alloc, ask) {
            Ok(next) => self.go_on_reading(alloc, effects, reading, next),
            Err(error) => {
                drop(reading);
                Err(error)
            }
        }
    }

    // The question under which a further round asks.
    fn ask_after(&mut self, ask: u32, stage: Stage) -> u32
        ensures ask { result ≡ ask_after self.old ask stage }
        ensures state { self.new ≡ drawn_after self.old stage }
    {
        match stage {
            Stage::Between => self.lasting.questions.draw(),
            Stage::Asking | Stage::Doubted | Stage::Over => ask,
        }
    }

    fn go_on_reading(
        &mut self,
        alloc: Global,
        effects: &mut Effects,
        reading: Reading,
        next: Next,
    ) -> Mem<()>
        ensures state { OnOk result (self.new ≡ (go_on_reading self.old reading next).state) }
        ensures effects { OnOk result (effects.new ≡ effects.old ++ (go_on_reading self.old reading next).outs) }
    {
        match next {
            Next::Lost => {
                let Target { seg, block } = reading.target();
                drop(reading);
                self.lose_at(alloc, effects, block, seg.name)
            }
            Next::Ask => ask_reading(alloc, effects, &mut self.call, reading),
            Next::Wait | Next::Again | Next::Read(_) => {
                set_reading(&mut self.call, Some(reading));
                Ok(())
            }
        }
    }

    #[tactic(auto, unfolding(crate::specs::Reads::loses))]
    fn lose_at(
        &mut self,
        alloc: Global,
        effects: &mut Effects,
        wanted: Option<BlockAt>,
        seg: SegName,
    ) -> Mem<()>
        ensures state { OnOk result (self.new ≡ (lose_at self.old wanted seg).state) }
        ensures effects { OnOk result (effects.new ≡ effects.old ++ (lose_at self.old wanted seg).outs) }
    {
        match wanted {
            Some(wanted) => lose(
                alloc,
                effects,
                &mut self.lasting,
                &mut self.call,
                &mut self.tokens,
                wanted.block,
                seg,
            ),
            None => Ok(()),
        }
    }

    /// A server has told what it holds of a segment, in answer to a fetch.
    #[tactic(auto, unfolding(crate::specs::Packets::told_by))]
    pub(crate) fn on_told(
        &mut self,
        alloc: Global,
        effects: &mut Effects,
        from: NodeId,
        ask: u32,
        told: Told,
    ) -> Mem<()>
        ensures state { OnOk result (self.new ≡ (on_told self.old from ask told).state) }
        ensures effects { OnOk result (effects.new ≡ effects.old ++ (on_told self.old from ask told).outs) }
    {
        let NodeId::Server(server) = from else {
            drop(told);
            return Ok(());
        };
        let Some(wanted) = block_read(&self.call) else {
            drop(told);
            return Ok(());
        };
        let next = hear(alloc, &mut self.call, &self.maps.groups, ask, server, told)?;
        self.end_fetch(alloc, effects, wanted, next)
    }

    // The segment is read, and with it the block; or its place is to be confirmed.
    fn end_fetch(
        &mut self,
        alloc: Global,
        effects: &mut Effects,
        wanted: BlockAt,
        next: Next,
    ) -> Mem<()>
        ensures state { OnOk result (self.new ≡ (end_fetch self.old wanted next).state) }
        ensures effects { OnOk result (effects.new ≡ effects.old ++ (end_fetch self.old wanted next).outs) }
    {
        match next {
            Next::Again => self.hand(
                alloc,
                effects,
                In::Reask {
                    block: wanted.block,
                },
            ),
            Next::Read(segment) => {
                let value = value_at(alloc, &segment, wanted.item);
                drop(segment);
                let input = In::Fetched {
                    block: wanted.block,
                    value: value?,
                };
                self.hand(alloc, effects, input)
            }
            Next::Wait | Next::Ask | Next::Lost => Ok(()),
        }
    }
}

/// A segment that the open call needs is lost.
pub(crate) fn lose(
    alloc: Global,
    effects: &mut Effects,
    lasting: &mut Lasting,
    call: &mut Option<Call>,
    tokens: &mut Tokens,
    block: BlockId,
    seg: SegName,
) -> Mem<()>
    ensures lasting { OnOk result (lasting.new ≡ record lasting.old { items = items_answer lasting.old.items }) }
    ensures call { OnOk result (call.new ≡ None) }
    ensures tokens { OnOk result (tokens.new ≡ (on_quit tokens.old block).state) }
    ensures effects { OnOk result (effects.new ≡ effects.old ++ Lose seg ∷ answers_unanswered lasting.old.items.unanswered (Lost seg)) }
{
    effects.lose(seg)?;
    lasting.answer(effects, Answer::Lost(seg))?;
    drop(call.take());
    drop(tokens.take(alloc, In::Quit { block })?);
    Ok(())
}
