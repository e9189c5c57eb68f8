//! What the tokens have a client do.
ghost use Rattle.std.specs.Prelude.{◌≡◌, ◌++◌, OnOk, fold};
ghost use Rattle.client_serving.specs.Follow.{evict, serving_follow, follow_one, hand, note_clean, note_copy, note_gone, serving_seal, take_back};

use crate::Serving;
use crate::sends::{send_gave, send_want};
use client_call::reads::end_reading;
use log_owner::sealing;
use node_base::Effects;
use std::alloc::Global;
use token_client::{In, Out, Tokens};
use wire_msg::{Gave, Want};
use xfs_base::{BlockId, List, Mem, Mode, Stamp};

impl Serving {
    /// Hands the tokens an input, and does what they say.
    #[tactic(auto, unfolding(crate::specs::Follow::hand))]
    pub fn hand(&mut self, alloc: Global, effects: &mut Effects, input: In) -> Mem<()>
        ensures state { OnOk result (self.new ≡ (hand self.old input).state) }
        ensures effects { OnOk result (effects.new ≡ effects.old ++ (hand self.old input).outs) }
    {
        let outs = self.tokens.take(alloc, input)?;
        end_reading(&self.tokens, &mut self.call);
        self.follow(alloc, effects, outs)
    }

    /// Does what the tokens say, in order.
    #[tactic(auto, unfolding(crate::specs::Follow::serving_follow))]
    pub(crate) fn follow(
        &mut self,
        alloc: Global,
        effects: &mut Effects,
        outs: List<Out>,
    ) -> Mem<()>
        ensures state { OnOk result (self.new ≡ (serving_follow self.old outs).state) }
        ensures effects { OnOk result (effects.new ≡ effects.old ++ (serving_follow self.old outs).outs) }
    {
        for out in outs.into_vec() {
            self.follow_one(alloc, effects, out)?;
        }
        Ok(())
    }

    // A value that is to be supplied goes to the client that the forward names, so that it is sent there.
    #[tactic(auto, unfolding(crate::specs::Follow::follow_one))]
    fn follow_one(&mut self, alloc: Global, effects: &mut Effects, out: Out) -> Mem<()>
        ensures state { OnOk result (self.new ≡ (follow_one self.old out).state) }
        ensures effects { OnOk result (effects.new ≡ effects.old ++ (follow_one self.old out).outs) }
    {
        match out {
            Out::Want {
                block,
                req,
                again,
                mode,
            } => {
                let want = Want {
                    block,
                    inc: self.lasting.inc,
                    req,
                    again,
                    mode,
                    end: self.log.end().seq,
                };
                send_want(alloc, effects, &mut self.feed, self.managers, want)
            }
            Out::Gave { block, stamp } => {
                let gave = Gave {
                    block,
                    stamp,
                    end: self.log.end().seq,
                };
                send_gave(alloc, effects, &mut self.feed, self.managers, gave)
            }
            Out::Flush { .. } => self.seal(alloc, effects),
            Out::Read { block, place } => self.read(alloc, effects, block, place),
            Out::Ready { block } => self.note_copy(alloc, block),
            Out::Supply { .. } => Ok(()),
        }
    }

    /// Seals the log, where nothing is in flight and something waits to be written.
    #[tactic(auto, unfolding(crate::specs::Follow::serving_seal))]
    pub fn seal(&mut self, alloc: Global, effects: &mut Effects) -> Mem<()>
        ensures state { OnOk result (self.new ≡ (serving_seal self.old).state) }
        ensures effects { OnOk result (effects.new ≡ effects.old ++ (serving_seal self.old).outs) }
    {
        sealing::seal(alloc, effects, &mut self.log)
    }

    /// Takes a block back, as a manager recalls it; one that isn't held then leaves the cache.
    #[tactic(auto, unfolding(crate::specs::Follow::take_back))]
    pub(crate) fn take_back(
        &mut self,
        alloc: Global,
        effects: &mut Effects,
        block: BlockId,
        stamp: Stamp,
        keep: bool,
    ) -> Mem<()>
        ensures state { OnOk result (self.new ≡ (take_back self.old block stamp keep).state) }
        ensures effects { OnOk result (effects.new ≡ effects.old ++ (take_back self.old block stamp keep).outs) }
    {
        self.hand(alloc, effects, In::Recalled { block, stamp, keep })?;
        self.note_gone(alloc, block)
    }

    // A block may be read or written from now on. A copy is clean.
    #[tactic(auto, unfolding(crate::specs::Follow::note_copy))]
    fn note_copy(&mut self, alloc: Global, block: BlockId) -> Mem<()>
        ensures { OnOk result (self.new ≡ note_copy self.old block) }
    {
        if self.tokens.mode(block).is_same(Mode::Copy) {
            self.note_clean(alloc, block)?;
        }
        Ok(())
    }

    /// A block is held and clean: it goes into the cache, and what leaves for it is let go.
    pub(crate) fn note_clean(&mut self, alloc: Global, block: BlockId) -> Mem<()>
        ensures { OnOk result (self.new ≡ note_clean self.old block) }
    {
        let outs = self.cache.take(alloc, coop_cache::In::Clean(block))?;
        evict_all(alloc, &mut self.tokens, outs)
    }

    /// A block that isn't held leaves the cache.
    #[tactic(auto, unfolding(crate::specs::Follow::note_gone))]
    pub fn note_gone(&mut self, alloc: Global, block: BlockId) -> Mem<()>
        ensures { OnOk result (self.new ≡ note_gone self.old block) }
    {
        if self.tokens.mode(block).is_nothing() {
            drop(self.cache.take(alloc, coop_cache::In::Gone(block))?);
        }
        Ok(())
    }
}

// The tokens let go of what leaves the cache.
fn evict_all(alloc: Global, tokens: &mut Tokens, outs: List<coop_cache::Out>) -> Mem<()>
    ensures { OnOk result (tokens.new ≡ fold evict tokens.old outs) }
{
    for out in outs.into_vec() {
        evict(alloc, tokens, out)?;
    }
    Ok(())
}

#[tactic(auto, unfolding(crate::specs::Follow::evict))]
fn evict(alloc: Global, tokens: &mut Tokens, out: coop_cache::Out) -> Mem<()>
    ensures { OnOk result (tokens.new ≡ evict tokens.old out) }
{
    let coop_cache::Out::Victim(block) = out;
    drop(tokens.take(alloc, In::Evict { block })?);
    Ok(())
}
