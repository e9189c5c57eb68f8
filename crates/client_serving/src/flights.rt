//! The log of a client: sealing it, and what is settled.
ghost use Rattle.std.specs.Prelude.{◌≡◌, ◌++◌, OnOk, fold};
ghost use Rattle.client_serving.specs.Flights.{feeds, give_if_clean, keep_row, settle_rows, serving_settle, serving_write, write_one};
ghost use Rattle.log_owner.specs.Sending.{push_all};
ghost use Rattle.xfs_base.specs.Steps.{steps};

use crate::Serving;
use client_log::{In, Out};
use log_owner::name_of;
use log_owner::sealing::{feed_rows, is_any_settling};
use log_owner::sending::{push_all, send_store};
use node_base::Effects;
use std::alloc::Global;
use version_model::Act;
use xfs_base::{BlockId, End, Entry, List, Mem};

impl Serving {
    /// Hands the log an input, and does what it says. After a segment is settled the log is sealed again
    /// where a block is still to be given up.
    #[tactic(auto, unfolding(crate::specs::Flights::serving_write))]
    pub fn write(&mut self, alloc: Global, effects: &mut Effects, input: In) -> Mem<()>
        ensures state { OnOk result (self.new ≡ (serving_write self.old input).state) }
        ensures effects { OnOk result (effects.new ≡ effects.old ++ (serving_write self.old input).outs) }
    {
        let outs = self.log.take(alloc, input)?;
        let settling = is_any_settling(outs.as_slice());
        self.write_all(alloc, effects, outs)?;
        if settling && self.tokens.is_giving(alloc)? {
            self.seal(alloc, effects)?;
        }
        Ok(())
    }

    fn write_all(&mut self, alloc: Global, effects: &mut Effects, outs: List<Out>) -> Mem<()>
        ensures state { OnOk result (self.new ≡ (steps write_one self.old outs).state) }
        ensures effects { OnOk result (effects.new ≡ effects.old ++ (steps write_one self.old outs).outs) }
    {
        for out in outs.into_vec() {
            self.write_one(alloc, effects, out)?;
        }
        Ok(())
    }

    #[tactic(auto, unfolding(crate::specs::Flights::write_one))]
    fn write_one(&mut self, alloc: Global, effects: &mut Effects, out: Out) -> Mem<()>
        ensures state { OnOk result (self.new ≡ (write_one self.old out).state) }
        ensures effects { OnOk result (effects.new ≡ effects.old ++ (write_one self.old out).outs) }
    {
        match out {
            Out::Send { fragment, member } => send_store(effects, fragment, member),
            Out::Settled { end, rows } => self.settle(alloc, effects, end, rows),
        }
    }

    // A segment is settled.
    #[tactic(auto, unfolding(crate::specs::Flights::serving_settle))]
    fn settle(
        &mut self,
        alloc: Global,
        effects: &mut Effects,
        end: End,
        rows: List<(BlockId, Entry)>,
    ) -> Mem<()>
        ensures state { OnOk result (self.new ≡ (serving_settle self.old end rows).state) }
        ensures effects { OnOk result (effects.new ≡ effects.old ++ (serving_settle self.old end rows).outs) }
    {
        let seg = name_of(self.lasting.log(), end);
        effects.act(Act::Filed { seg })?;
        let dirty = self.tokens.dirty(alloc)?;
        self.take_rows(alloc, end, rows)?;
        self.tell_settled(alloc, effects, dirty.as_slice())
    }

    // These rows are settled: clean blocks go into the cache, and the feed takes the rows.
    fn take_rows(&mut self, alloc: Global, end: End, rows: List<(BlockId, Entry)>) -> Mem<()>
        ensures { OnOk result (self.new ≡ feeds (settle_rows self.old rows) end rows) }
    {
        match self.settle_rows(alloc, rows.as_slice()) {
            Ok(()) => feed_rows(alloc, &mut self.feed, end.seq, rows),
            Err(error) => {
                drop(rows);
                Err(error)
            }
        }
    }

    // All slots are told, and then those of these blocks that are clean and to be given up are given up.
    fn tell_settled(&mut self, alloc: Global, effects: &mut Effects, blocks: &[BlockId]) -> Mem<()>
        ensures state { OnOk result (self.new ≡ (steps give_if_clean self.old blocks.now).state) }
        ensures effects { OnOk result
            (effects.new ≡ effects.old ++ (push_all self.old.managers self.old.feed ++ (steps give_if_clean self.old blocks.now).outs)) }
    {
        push_all(alloc, effects, &mut self.feed, self.managers)?;
        self.give_clean(alloc, effects, blocks)
    }

    fn settle_rows(&mut self, alloc: Global, rows: &[(BlockId, Entry)]) -> Mem<()>
        ensures { OnOk result (self.new ≡ settle_rows self.old rows.now) }
    {
        self.tokens.note_settled(rows)?;
        self.keep_clean(alloc, rows)
    }

    // Those of these blocks that are clean go into the cache.
    fn keep_clean(&mut self, alloc: Global, rows: &[(BlockId, Entry)]) -> Mem<()>
        ensures { OnOk result (self.new ≡ fold keep_row self.old rows.now) }
    {
        for row in rows {
            self.keep_row(alloc, *row)?;
        }
        Ok(())
    }

    #[tactic(auto, unfolding(crate::specs::Flights::keep_row))]
    fn keep_row(&mut self, alloc: Global, row: (BlockId, Entry)) -> Mem<()>
        ensures { OnOk result (self.new ≡ keep_row self.old row) }
    {
        if !self.tokens.is_dirty(row.0) && self.tokens.mode(row.0).is_held() {
            self.note_clean(alloc, row.0)?;
        }
        Ok(())
    }

    // Those of these blocks that are clean and to be given up are given up.
    fn give_clean(&mut self, alloc: Global, effects: &mut Effects, blocks: &[BlockId]) -> Mem<()>
        ensures state { OnOk result (self.new ≡ (steps give_if_clean self.old blocks.now).state) }
        ensures effects { OnOk result (effects.new ≡ effects.old ++ (steps give_if_clean self.old blocks.now).outs) }
    {
        for block in blocks {
            self.give_if_clean(alloc, effects, *block)?;
        }
        Ok(())
    }

    #[tactic(auto, unfolding(crate::specs::Flights::give_if_clean))]
    fn give_if_clean(&mut self, alloc: Global, effects: &mut Effects, block: BlockId) -> Mem<()>
        ensures state { OnOk result (self.new ≡ (give_if_clean self.old block).state) }
        ensures effects { OnOk result (effects.new ≡ effects.old ++ (give_if_clean self.old block).outs) }
    {
        if self.tokens.is_dirty(block) {
            return Ok(());
        }
        match self.tokens.giving(block) {
            Some((stamp, keep)) => self.take_back(alloc, effects, block, stamp, keep),
            None => Ok(()),
        }
    }
}
