//! What a cleaner that serves does for its job.
ghost use Rattle.std.specs.Prelude.{◌≡◌, ◌++◌, IfOk, OnOk};
ghost use Rattle.xfs_base.specs.Steps.{steps};
ghost use Rattle.cleaner_serving.specs.Jobs.{emptying_clean, emptying_take, says, ask_maps, ask_list, ask_usage, ask_check, emptying_check, emptying_hold, emptying_read, move_all, emptying_put, put_block, emptying_delete, emptying_finish, on_listed, on_usage, on_live, on_dead, on_deleted};

use crate::emptying::Emptying;
use cleaner_job::job::{check_of, is_out, lists_of, usages_of};
use cleaner_job::stores::{act_dropped, send_stores};
use log_owner::sending::send_hello;
use node_base::Effects;
use std::alloc::Global;
use stripe_cleaner::{In, Out};
use version_model::Answer;
use wire_msg::{Body, Check, Dead, Delete, Deleted, ListAsk, Listed, Live, Usage, UsageAsk};
use xfs_base::{BlockId, Entry, List, Mem, NodeId, Place, SegName, SegRef, Value};

impl Emptying {
    /// The job that is under way takes an input, and what it says is done.
    #[tactic(auto, unfolding(crate::specs::Jobs::emptying_clean))]
    pub(crate) fn clean(&mut self, alloc: Global, effects: &mut Effects, given: In) -> Mem<()>
        ensures state { OnOk result (self.new ≡ (emptying_clean self.old given).state) }
        ensures effects { OnOk result (effects.new ≡ effects.old ++ (emptying_clean self.old given).outs) }
    {
        let outs = self.take(alloc, given)?;
        self.say_all(alloc, effects, outs)
    }

    // What the job that is under way says to an input.
    #[tactic(auto, unfolding(crate::specs::Jobs::emptying_take))]
    fn take(&mut self, alloc: Global, given: In) -> Mem<List<Out>>
        ensures state { OnOk result (self.new ≡ (emptying_take self.old given).state) }
        ensures outs { IfOk result (λ outs. outs ≡ (emptying_take self.old given).outs) }
    {
        match &mut self.job {
            // It is dropped by a call, so that each part of it is dropped in one proof.
            None => {
                drop(given);
                Ok(List::new(alloc))
            }
            Some(job) => job.cleaning.take(alloc, given),
        }
    }

    fn say_all(&mut self, alloc: Global, effects: &mut Effects, outs: List<Out>) -> Mem<()>
        ensures state { OnOk result (self.new ≡ (steps says self.old outs).state) }
        ensures effects { OnOk result (effects.new ≡ effects.old ++ (steps says self.old outs).outs) }
    {
        for out in outs.into_vec() {
            self.says(alloc, effects, out)?;
        }
        Ok(())
    }

    #[tactic(auto, unfolding(crate::specs::Jobs::says))]
    fn says(&mut self, alloc: Global, effects: &mut Effects, out: Out) -> Mem<()>
        ensures state { OnOk result (self.new ≡ (says self.old out).state) }
        ensures effects { OnOk result (effects.new ≡ effects.old ++ (says self.old out).outs) }
    {
        match out {
            Out::Hello => self.ask_maps(effects),
            Out::List { server } => self.ask_list(effects, server),
            Out::UsageAsk { slot } => self.ask_usage(effects, slot),
            Out::Fetch(seg) => self.read(alloc, effects, seg),
            Out::Check { block, place } => self.ask_check(effects, block, place),
            Out::Move(blocks) => self.move_all(alloc, effects, blocks),
            Out::Delete { server, name } => self.delete(effects, server, name),
            Out::Finished(count) => self.finish(effects, count),
        }
    }

    // The registry is asked for the maps.
    fn ask_maps(&mut self, effects: &mut Effects) -> Mem<()>
        ensures state { OnOk result (self.new ≡ (ask_maps self.old self.old.job).state) }
        ensures effects { OnOk result (effects.new ≡ effects.old ++ (ask_maps self.old self.old.job).outs) }
    {
        match &mut self.job {
            None => Ok(()),
            Some(job) => {
                let ask = job.ask_maps(&mut self.lasting.questions);
                send_hello(effects, self.lasting.inc, ask)
            }
        }
    }

    // A server is asked for its list.
    fn ask_list(&mut self, effects: &mut Effects, server: u8) -> Mem<()>
        ensures state { OnOk result (self.new ≡ (ask_list self.old self.old.job server).state) }
        ensures effects { OnOk result (effects.new ≡ effects.old ++ (ask_list self.old self.old.job server).outs) }
    {
        match &mut self.job {
            None => Ok(()),
            Some(job) => {
                let ask = job.ask_lists(&mut self.lasting.questions);
                effects.send(NodeId::Server(server), Body::List(ListAsk { ask }))
            }
        }
    }

    // The manager of a slot is asked for its counts.
    fn ask_usage(&mut self, effects: &mut Effects, slot: u8) -> Mem<()>
        ensures state { OnOk result (self.new ≡ (ask_usage self.old self.old.job slot).state) }
        ensures effects { OnOk result (effects.new ≡ effects.old ++ (ask_usage self.old self.old.job slot).outs) }
    {
        match &mut self.job {
            None => Ok(()),
            Some(job) => {
                let ask = job.ask_usages(&mut self.lasting.questions);
                let manager = self.promised.managers.of(slot);
                effects.send(manager, Body::UsageAsk(UsageAsk { slot, ask }))
            }
        }
    }

    // The manager of a block is asked whether it lies at a place of the segment in hand.
    #[tactic(auto, unfolding(crate::specs::Jobs::ask_check))]
    fn ask_check(&mut self, effects: &mut Effects, block: BlockId, place: Place) -> Mem<()>
        ensures state { OnOk result (self.new ≡ (ask_check self.old block place).state) }
        ensures effects { OnOk result (effects.new ≡ effects.old ++ (ask_check self.old block place).outs) }
    {
        let Some(ask) = self.check(block)? else {
            return Ok(());
        };
        let manager = self.promised.managers.of(block.ino.slot());
        effects.send(manager, Body::Check(Check { block, place, ask }))
    }

    // The question of a check of a block, where a segment is in hand.
    #[tactic(auto, unfolding(crate::specs::Jobs::emptying_check))]
    fn check(&mut self, block: BlockId) -> Mem<Option<u32>>
        ensures state { OnOk result (self.new ≡ (emptying_check self.old block).state) }
        ensures ask { IfOk result (λ ask. ask ≡ (emptying_check self.old block).ask) }
    {
        match &mut self.job {
            None => Ok(None),
            Some(job) => job.check(&mut self.lasting.questions, block),
        }
    }

    // A segment is read, and is then the one in hand.
    #[tactic(auto, unfolding(crate::specs::Jobs::emptying_read))]
    fn read(&mut self, alloc: Global, effects: &mut Effects, seg: SegRef) -> Mem<()>
        ensures state { OnOk result (self.new ≡ (emptying_read self.old seg).state) }
        ensures effects { OnOk result (effects.new ≡ effects.old ++ (emptying_read self.old seg).outs) }
    {
        self.hold(alloc, seg)?;
        self.fetch(alloc, effects)
    }

    #[tactic(auto, unfolding(crate::specs::Jobs::emptying_hold))]
    fn hold(&mut self, alloc: Global, seg: SegRef) -> Mem<()>
        ensures { OnOk result (self.new ≡ emptying_hold self.old seg) }
    {
        match &mut self.job {
            None => Ok(()),
            Some(job) => job.hold(alloc, &self.maps.groups, &mut self.lasting.questions, seg),
        }
    }

    // Live blocks are written to the cleaner's log. Nothing is in flight, so that nothing is settled by it.
    #[tactic(auto, unfolding(crate::specs::Jobs::move_all))]
    fn move_all(
        &mut self,
        alloc: Global,
        effects: &mut Effects,
        blocks: List<(BlockId, Entry, Value)>,
    ) -> Mem<()>
        ensures state { OnOk result (self.new ≡ (move_all self.old blocks).state) }
        ensures effects { OnOk result (effects.new ≡ effects.old ++ (move_all self.old blocks).outs) }
    {
        self.put_all(alloc, effects, blocks)?;
        self.put(alloc, effects, client_log::In::Seal)
    }

    fn put_all(
        &mut self,
        alloc: Global,
        effects: &mut Effects,
        blocks: List<(BlockId, Entry, Value)>,
    ) -> Mem<()>
        ensures state { OnOk result (self.new ≡ (steps put_block self.old blocks).state) }
        ensures effects { OnOk result (effects.new ≡ effects.old ++ (steps put_block self.old blocks).outs) }
    {
        for moved in blocks.into_vec() {
            self.put_block(alloc, effects, moved)?;
        }
        Ok(())
    }

    #[tactic(auto, unfolding(crate::specs::Jobs::put_block))]
    fn put_block(
        &mut self,
        alloc: Global,
        effects: &mut Effects,
        moved: (BlockId, Entry, Value),
    ) -> Mem<()>
        ensures state { OnOk result (self.new ≡ (put_block self.old moved).state) }
        ensures effects { OnOk result (effects.new ≡ effects.old ++ (put_block self.old moved).outs) }
    {
        let (block, entry, value) = moved;
        let given = client_log::In::Put {
            block,
            entry,
            value,
        };
        self.put(alloc, effects, given)
    }

    // The log takes an input, and what it writes is sent.
    #[tactic(auto, unfolding(crate::specs::Jobs::emptying_put))]
    fn put(&mut self, alloc: Global, effects: &mut Effects, given: client_log::In) -> Mem<()>
        ensures state { OnOk result (self.new ≡ (emptying_put self.old given).state) }
        ensures effects { OnOk result (effects.new ≡ effects.old ++ (emptying_put self.old given).outs) }
    {
        let outs = self.log.take(alloc, given)?;
        send_stores(effects, outs)
    }

    // A server is to delete the segment in hand, which is dropped with the first such word.
    fn delete(&mut self, effects: &mut Effects, server: u8, name: SegName) -> Mem<()>
        ensures state { OnOk result (self.new ≡ (emptying_delete self.old self.old.job server name).state) }
        ensures effects { OnOk result (effects.new ≡ effects.old ++ (emptying_delete self.old self.old.job server name).outs) }
    {
        match &mut self.job {
            None => Ok(()),
            Some(job) => {
                let is_first = job.is_whole();
                job.note_dropped();
                act_dropped(effects, is_first, name)?;
                effects.send(NodeId::Server(server), Body::Delete(Delete { name }))
            }
        }
    }

    // The job is over, and its item is answered.
    fn finish(&mut self, effects: &mut Effects, count: u32) -> Mem<()>
        ensures state { OnOk result (self.new ≡ (emptying_finish self.old count).state) }
        ensures effects { OnOk result (effects.new ≡ effects.old ++ (emptying_finish self.old count).outs) }
    {
        drop(self.job.take());
        self.lasting.items.answer(effects, Answer::Count(count))
    }

    /// A server says what it holds.
    #[tactic(auto, unfolding(crate::specs::Jobs::on_listed))]
    pub(crate) fn on_listed(
        &mut self,
        alloc: Global,
        effects: &mut Effects,
        server: Option<u8>,
        listed: &Listed,
    ) -> Mem<()>
        ensures state { OnOk result (self.new ≡ (on_listed self.old server listed.now).state) }
        ensures effects { OnOk result (effects.new ≡ effects.old ++ (on_listed self.old server listed.now).outs) }
    {
        let Some(server) = server else {
            return Ok(());
        };
        if !is_out(lists_of(&self.job), listed.ask) {
            return Ok(());
        }
        let held = listed.held.copy(alloc)?;
        self.clean(alloc, effects, In::Listed { server, held })
    }

    /// A manager says how many live blocks each segment has.
    #[tactic(auto, unfolding(crate::specs::Jobs::on_usage))]
    pub(crate) fn on_usage(
        &mut self,
        alloc: Global,
        effects: &mut Effects,
        usage: &Usage,
    ) -> Mem<()>
        ensures state { OnOk result (self.new ≡ (on_usage self.old usage.now).state) }
        ensures effects { OnOk result (effects.new ≡ effects.old ++ (on_usage self.old usage.now).outs) }
    {
        if !is_out(usages_of(&self.job), usage.ask) {
            return Ok(());
        }
        let given = In::Usage {
            slot: usage.slot,
            epoch: usage.epoch,
            counts: usage.counts.copy(alloc)?,
        };
        self.clean(alloc, effects, given)
    }

    /// A block lies where it was asked for.
    #[tactic(auto, unfolding(crate::specs::Jobs::on_live))]
    pub(crate) fn on_live(&mut self, alloc: Global, effects: &mut Effects, live: Live) -> Mem<()>
        ensures state { OnOk result (self.new ≡ (on_live self.old live).state) }
        ensures effects { OnOk result (effects.new ≡ effects.old ++ (on_live self.old live).outs) }
    {
        if !is_out(check_of(&self.job, live.block), live.ask) {
            return Ok(());
        }
        let given = In::Live {
            block: live.block,
            epoch: live.epoch,
            entry: live.entry,
        };
        self.clean(alloc, effects, given)
    }

    /// A block doesn't lie where it was asked for.
    #[tactic(auto, unfolding(crate::specs::Jobs::on_dead))]
    pub(crate) fn on_dead(&mut self, alloc: Global, effects: &mut Effects, dead: Dead) -> Mem<()>
        ensures state { OnOk result (self.new ≡ (on_dead self.old dead).state) }
        ensures effects { OnOk result (effects.new ≡ effects.old ++ (on_dead self.old dead).outs) }
    {
        if !is_out(check_of(&self.job, dead.block), dead.ask) {
            return Ok(());
        }
        let given = In::Dead {
            block: dead.block,
            epoch: dead.epoch,
        };
        self.clean(alloc, effects, given)
    }

    /// A server has deleted a segment.
    #[tactic(auto, unfolding(crate::specs::Jobs::on_deleted))]
    pub(crate) fn on_deleted(
        &mut self,
        alloc: Global,
        effects: &mut Effects,
        server: Option<u8>,
        deleted: Deleted,
    ) -> Mem<()>
        ensures state { OnOk result (self.new ≡ (on_deleted self.old server deleted).state) }
        ensures effects { OnOk result (effects.new ≡ effects.old ++ (on_deleted self.old server deleted).outs) }
    {
        let Some(server) = server else {
            return Ok(());
        };
        let name = deleted.name;
        self.clean(alloc, effects, In::Deleted { server, name })
    }
}
