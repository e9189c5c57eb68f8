//! Giving blocks: forwards and recalls, and what a block goes through until it is given up.
ghost use Rattle.std.specs.Prelude.{◌≡◌, ◌++◌, [], OnOk};
ghost use Rattle.token_client.specs.State.{held_of};
ghost use Rattle.token_client.specs.Transition.{serves, on_forwarded, refetch, give, recalled_above, was_answered, on_recalled, on_wrote, on_settled, on_evict};

use crate::output::Out;
use crate::table::{is_settled_by, may_evict, may_write};
use crate::tokens::Tokens;
use std::alloc::Global;
use xfs_base::{BlockId, List, Mem, Mode, Stamp, Value};

impl Tokens {
    /// Whether a forward asks for the very version that is held as a copy.
    pub(crate) fn serves(&self, block: BlockId, stamp: Stamp, ver: u64) -> bool
        ensures { result ≡ serves self.now block stamp ver }
    {
        self.is_promised(block, stamp)
            && self.mode(block).is_same(Mode::Copy)
            && self.ver(block) == ver
    }

    /// A manager has a block supplied to another client.
    #[tactic(auto, unfolding(crate::specs::Transition::on_forwarded))]
    pub(crate) fn on_forwarded(
        &mut self,
        alloc: Global,
        outs: &mut List<Out>,
        block: BlockId,
        stamp: Stamp,
        ver: u64,
    ) -> Mem<()>
        ensures state { OnOk result (self.new ≡ (on_forwarded self.old block stamp ver).state) }
        ensures outs { OnOk result (outs.new ≡ outs.old ++ (on_forwarded self.old block stamp ver).outs) }
    {
        if !self.serves(block, stamp, ver) {
            return Ok(());
        }
        if let Some(value) = self.value(block) {
            outs.push(Out::Supply {
                block,
                ver,
                value: value.copy(alloc)?,
            })?;
        }
        Ok(())
    }

    /// Whether a recall was answered before, and nothing is being given.
    pub(crate) fn was_answered(&self, block: BlockId, stamp: Stamp) -> bool
        ensures { result ≡ was_answered (held_of self.now.blocks block) stamp }
    {
        self.stamp(block) == stamp && self.giving(block).is_none()
    }

    /// A call whose fetch is dropped wants its copy again.
    #[tactic(auto, unfolding(crate::specs::Transition::refetch))]
    pub(crate) fn refetch(&mut self, outs: &mut List<Out>, block: BlockId) -> Mem<()>
        ensures state { OnOk result (self.new ≡ (refetch self.old block).state) }
        ensures outs { OnOk result (outs.new ≡ outs.old ++ (refetch self.old block).outs) }
    {
        if !self.has_fetch(block) {
            return Ok(());
        }
        let mut held = self.blocks.take(block);
        held.fetch = None;
        self.blocks.put(block, held)?;
        self.ask(outs, block, Mode::Copy)?;
        Ok(())
    }

    /// Gives a block up, or puts that off where it is dirty.
    #[tactic(auto, unfolding(crate::specs::Transition::give))]
    pub(crate) fn give(
        &mut self,
        outs: &mut List<Out>,
        block: BlockId,
        stamp: Stamp,
        keep: bool,
    ) -> Mem<()>
        ensures state { OnOk result (self.new ≡ (give self.old block stamp keep).state) }
        ensures outs { OnOk result (outs.new ≡ outs.old ++ (give self.old block stamp keep).outs) }
    {
        let dirty = self.is_dirty(block);
        let mut held = self.blocks.take(block);
        if dirty {
            held.put_off(stamp, keep);
            self.blocks.put(block, held)?;
            outs.push(Out::Flush { block })?;
            Ok(())
        } else {
            held.give_up(stamp, keep);
            self.blocks.put(block, held)?;
            outs.push(Out::Gave { block, stamp })?;
            Ok(())
        }
    }

    /// Takes a recall above the block's stamp.
    #[tactic(auto, unfolding(crate::specs::Transition::recalled_above))]
    pub(crate) fn recalled_above(
        &mut self,
        outs: &mut List<Out>,
        block: BlockId,
        stamp: Stamp,
        keep: bool,
    ) -> Mem<()>
        ensures state { OnOk result (self.new ≡ (recalled_above self.old block stamp keep).state) }
        ensures outs { OnOk result (outs.new ≡ outs.old ++ (recalled_above self.old block stamp keep).outs) }
    {
        if self.has_fetch(block) && self.req >= u32::MAX {
            return Ok(());
        }
        self.refetch(outs, block)?;
        self.give(outs, block, stamp, keep)?;
        Ok(())
    }

    /// A manager takes a block back. A recall that was answered is answered again, and an older one is dropped.
    #[tactic(auto, unfolding(crate::specs::Transition::on_recalled, crate::specs::Transition::recalled, crate::specs::Transition::recalled_again))]
    pub(crate) fn on_recalled(
        &mut self,
        outs: &mut List<Out>,
        block: BlockId,
        stamp: Stamp,
        keep: bool,
    ) -> Mem<()>
        ensures state { OnOk result (self.new ≡ (on_recalled self.old block stamp keep).state) }
        ensures outs { OnOk result (outs.new ≡ outs.old ++ (on_recalled self.old block stamp keep).outs) }
    {
        if !self.is_promised(block, stamp) {
            return Ok(());
        }
        if stamp.is_after(self.stamp(block)) {
            self.recalled_above(outs, block, stamp, keep)?;
        } else if self.was_answered(block, stamp) {
            outs.push(Out::Gave { block, stamp })?;
        }
        Ok(())
    }

    /// The call writes a block.
    #[tactic(auto, unfolding(crate::specs::Transition::on_wrote))]
    pub(crate) fn on_wrote(&mut self, block: BlockId, value: Value) -> Mem<()>
        ensures state { OnOk result (self.new ≡ (on_wrote self.old block value).state) }
        ensures outs { (on_wrote self.old block value).outs ≡ [] }
    {
        if !may_write(&self.blocks, block) {
            return Ok(());
        }
        let mut held = self.blocks.take(block);
        held.write(value);
        self.blocks.put(block, held)?;
        Ok(())
    }

    /// A version of a block is settled.
    #[tactic(auto, unfolding(crate::specs::Transition::on_settled))]
    pub(crate) fn on_settled(&mut self, block: BlockId, ver: u64) -> Mem<()>
        ensures state { OnOk result (self.new ≡ (on_settled self.old block ver).state) }
        ensures outs { (on_settled self.old block ver).outs ≡ [] }
    {
        if !is_settled_by(&self.blocks, block, ver) {
            return Ok(());
        }
        let mut held = self.blocks.take(block);
        held.settled = ver;
        self.blocks.put(block, held)?;
        Ok(())
    }

    /// A block leaves the cache.
    #[tactic(auto, unfolding(crate::specs::Transition::on_evict))]
    pub(crate) fn on_evict(&mut self, block: BlockId) -> Mem<()>
        ensures state { OnOk result (self.new ≡ (on_evict self.old block).state) }
        ensures outs { (on_evict self.old block).outs ≡ [] }
    {
        if !may_evict(&self.blocks, block) {
            return Ok(());
        }
        let mut held = self.blocks.take(block);
        held.let_go();
        self.blocks.put(block, held)?;
        Ok(())
    }
}
