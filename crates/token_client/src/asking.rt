//! Asking for blocks: needs, what answers them, and what is asked again.
ghost use Rattle.std.specs.Prelude.{◌≡◌, ◌++◌, [], is_some, OnOk};
ghost use Rattle.xfs_base.specs.Steps.{steps};
ghost use Rattle.token_client.specs.Held.{must_ask};
ghost use Rattle.token_client.specs.State.{held_of};
ghost use Rattle.token_client.specs.Transition.{fetched_blocks, is_promised, accepts, tokens_ask, on_need, on_granted, on_supplied, on_fetched, on_reask, on_quit, may_promise, ask_copy, on_promise, ask_again, on_tick};

use crate::held::{Held, Wanted};
use crate::output::Out;
use crate::table::{grant_next, is_answer, is_asking, may_end_fetch, want_of};
use crate::tokens::Tokens;
use std::alloc::Global;
use xfs_base::limits::SLOT_COUNT;
use xfs_base::{BlockId, Entry, List, Mem, Mode, Stamp, Value};

impl Tokens {
    /// Whether a stamp is of the epoch that the block's slot was promised to.
    pub(crate) fn is_promised(&self, block: BlockId, stamp: Stamp) -> bool
        ensures { result ≡ is_promised self.now block stamp }
    {
        self.epochs[usize::from(block.ino.slot())] == stamp.epoch
    }

    /// Whether a call that needs a block in a mode has to ask for it.
    pub(crate) fn must_ask(&self, block: BlockId, mode: Mode) -> bool
        ensures { result ≡ must_ask (held_of self.now.blocks block) mode }
    {
        match self.blocks.get(block) {
            Some(held) => held.must_ask(mode),
            None => Held::new().must_ask(mode),
        }
    }

    /// Whether a grant or a supply is accepted.
    pub(crate) fn accepts(
        &self,
        block: BlockId,
        stamp: Stamp,
        inc: u32,
        req: u32,
        mode: Mode,
    ) -> bool
        ensures { result ≡ accepts self.now block stamp inc req mode }
    {
        self.is_promised(block, stamp)
            && inc == self.inc
            && is_answer(&self.blocks, block, stamp, req, mode)
    }

    /// Whether a block is being fetched.
    pub(crate) fn has_fetch(&self, block: BlockId) -> bool
        ensures { result ≡ is_some (held_of self.now.blocks block).fetch }
    {
        match self.blocks.get(block) {
            Some(held) => held.fetch.is_some(),
            None => false,
        }
    }

    /// A new want, with the next number.
    #[tactic(auto, unfolding(crate::specs::Transition::tokens_ask))]
    pub(crate) fn ask(&mut self, outs: &mut List<Out>, block: BlockId, mode: Mode) -> Mem<()>
        ensures state { OnOk result (self.new ≡ (tokens_ask self.old block mode).state) }
        ensures outs { OnOk result (outs.new ≡ outs.old ++ (tokens_ask self.old block mode).outs) }
    {
        if self.req >= u32::MAX {
            return Ok(());
        }
        let req = self.req + 1;
        let mut held = self.blocks.take(block);
        held.ask(req, mode);
        self.blocks.put(block, held)?;
        self.req = req;
        outs.push(Out::Want {
            block,
            req,
            again: 0,
            mode,
        })?;
        Ok(())
    }

    /// A call needs a block in a mode.
    #[tactic(auto, unfolding(crate::specs::Transition::on_need))]
    pub(crate) fn on_need(&mut self, outs: &mut List<Out>, block: BlockId, mode: Mode) -> Mem<()>
        ensures state { OnOk result (self.new ≡ (on_need self.old block mode).state) }
        ensures outs { OnOk result (outs.new ≡ outs.old ++ (on_need self.old block mode).outs) }
    {
        if !self.must_ask(block, mode) {
            return Ok(());
        }
        self.ask(outs, block, mode)?;
        Ok(())
    }

    /// A manager grants a block.
    #[tactic(auto, unfolding(crate::specs::Transition::on_granted))]
    pub(crate) fn on_granted(
        &mut self,
        outs: &mut List<Out>,
        block: BlockId,
        stamp: Stamp,
        inc: u32,
        req: u32,
        mode: Mode,
        entry: Entry,
    ) -> Mem<()>
        ensures state { OnOk result (self.new ≡ (on_granted self.old block stamp inc req mode entry).state) }
        ensures outs { OnOk result (outs.new ≡ outs.old ++ (on_granted self.old block stamp inc req mode entry).outs) }
    {
        if !self.accepts(block, stamp, inc, req, mode) {
            return Ok(());
        }
        let mut held = self.blocks.take(block);
        held.take_grant(stamp, mode, entry);
        self.blocks.put(block, held)?;
        outs.push(grant_next(block, mode, entry.place))?;
        Ok(())
    }

    /// Another client supplies a block.
    #[tactic(auto, unfolding(crate::specs::Transition::on_supplied))]
    pub(crate) fn on_supplied(
        &mut self,
        outs: &mut List<Out>,
        block: BlockId,
        stamp: Stamp,
        inc: u32,
        req: u32,
        ver: u64,
        value: Value,
    ) -> Mem<()>
        ensures state { OnOk result (self.new ≡ (on_supplied self.old block stamp inc req ver value).state) }
        ensures outs { OnOk result (outs.new ≡ outs.old ++ (on_supplied self.old block stamp inc req ver value).outs) }
    {
        if !self.accepts(block, stamp, inc, req, Mode::Copy) {
            return Ok(());
        }
        let mut held = self.blocks.take(block);
        held.copy_of(stamp, ver, value);
        self.blocks.put(block, held)?;
        outs.push(Out::Ready { block })?;
        Ok(())
    }

    /// A block was read from the log.
    #[tactic(auto, unfolding(crate::specs::Transition::on_fetched))]
    pub(crate) fn on_fetched(
        &mut self,
        outs: &mut List<Out>,
        block: BlockId,
        value: Value,
    ) -> Mem<()>
        ensures state { OnOk result (self.new ≡ (on_fetched self.old block value).state) }
        ensures outs { OnOk result (outs.new ≡ outs.old ++ (on_fetched self.old block value).outs) }
    {
        if !may_end_fetch(&self.blocks, block) {
            return Ok(());
        }
        let mut held = self.blocks.take(block);
        held.end_fetch(value);
        self.blocks.put(block, held)?;
        outs.push(Out::Ready { block })?;
        Ok(())
    }

    /// The place of a block that is being fetched is asked for again.
    #[tactic(auto, unfolding(crate::specs::Transition::on_reask))]
    pub(crate) fn on_reask(&mut self, outs: &mut List<Out>, block: BlockId) -> Mem<()>
        ensures state { OnOk result (self.new ≡ (on_reask self.old block).state) }
        ensures outs { OnOk result (outs.new ≡ outs.old ++ (on_reask self.old block).outs) }
    {
        if !self.has_fetch(block) {
            return Ok(());
        }
        self.ask(outs, block, Mode::Copy)?;
        Ok(())
    }

    /// The call that waits for a block answers that it is lost.
    #[tactic(auto, unfolding(crate::specs::Transition::on_quit))]
    pub(crate) fn on_quit(&mut self, block: BlockId) -> Mem<()>
        ensures state { OnOk result (self.new ≡ (on_quit self.old block).state) }
        ensures outs { (on_quit self.old block).outs ≡ [] }
    {
        if !is_asking(&self.blocks, block) {
            return Ok(());
        }
        let mut held = self.blocks.take(block);
        held.quit();
        self.blocks.put(block, held)?;
        Ok(())
    }

    /// Whether a promise is taken: its epoch is at least the promised one, and each want that it makes
    /// new has a number.
    pub(crate) fn may_promise(&self, slot: u8, epoch: u32, fetches: &List<BlockId>) -> bool
        requires { fetches.now ≡ fetched_blocks slot self.now.blocks }
        ensures { result ≡ may_promise self.now slot epoch }
    {
        slot < SLOT_COUNT
            && self.epochs[usize::from(slot)] <= epoch
            && fetches.len() <= (u32::MAX - self.req) as usize
    }

    /// Wants a copy of each of these blocks.
    pub(crate) fn ask_copies(&mut self, outs: &mut List<Out>, blocks: &List<BlockId>) -> Mem<()>
        ensures state { OnOk result (self.new ≡ (steps ask_copy self.old blocks.now).state) }
        ensures outs { OnOk result (outs.new ≡ outs.old ++ (steps ask_copy self.old blocks.now).outs) }
    {
        for block in blocks.as_slice() {
            self.ask(outs, *block, Mode::Copy)?;
        }
        Ok(())
    }

    /// A slot has this epoch.
    #[tactic(auto, unfolding(crate::specs::Transition::on_promise))]
    pub(crate) fn on_promise(
        &mut self,
        alloc: Global,
        outs: &mut List<Out>,
        slot: u8,
        epoch: u32,
    ) -> Mem<()>
        ensures state { OnOk result (self.new ≡ (on_promise self.old slot epoch).state) }
        ensures outs { OnOk result (outs.new ≡ outs.old ++ (on_promise self.old slot epoch).outs) }
    {
        let fetches = self.blocks.fetched(alloc, slot)?;
        if !self.may_promise(slot, epoch, &fetches) {
            return Ok(());
        }
        self.epochs[usize::from(slot)] = epoch;
        self.blocks.drop_all_in(slot);
        self.ask_copies(outs, &fetches)?;
        Ok(())
    }

    /// Sends the want of a block once more.
    #[tactic(auto, unfolding(crate::specs::Transition::ask_again))]
    pub(crate) fn ask_again(&mut self, outs: &mut List<Out>, block: BlockId) -> Mem<()>
        ensures state { OnOk result (self.new ≡ (ask_again self.old block).state) }
        ensures outs { OnOk result (outs.new ≡ outs.old ++ (ask_again self.old block).outs) }
    {
        let Some(want) = want_of(&self.blocks, block) else {
            return Ok(());
        };
        if want.again >= u32::MAX {
            return Ok(());
        }
        let again = want.again + 1;
        let mut held = self.blocks.take(block);
        held.want = Some(Wanted { again, ..want });
        self.blocks.put(block, held)?;
        outs.push(Out::Want {
            block,
            req: want.req,
            again,
            mode: want.mode,
        })?;
        Ok(())
    }

    /// Time passes.
    #[tactic(auto, unfolding(crate::specs::Transition::on_tick))]
    pub(crate) fn on_tick(&mut self, alloc: Global, outs: &mut List<Out>) -> Mem<()>
        ensures state { OnOk result (self.new ≡ (on_tick self.old).state) }
        ensures outs { OnOk result (outs.new ≡ outs.old ++ (on_tick self.old).outs) }
    {
        if self.blocks.has_spent() {
            return Ok(());
        }
        let blocks = self.blocks.wanted(alloc)?;
        for block in blocks.as_slice() {
            self.ask_again(outs, *block)?;
        }
        Ok(())
    }
}
