//! One slot.
ghost use Rattle.std.specs.Prelude.{◌≡◌, ◌+◌, ◌^◌, ◌<◌, ◌≤◌, ◌==◌, ◌||◌, not, length, OnOk, IfOk, IsTrue, ◌∷◌, ◌++◌, []};
ghost use Rattle.xfs_base.specs.Modes.{is_own};
ghost use Rattle.xfs_base.specs.Steps.{steps};
ghost use Rattle.xfs_base.specs.declared.segment.SegName.{SegName};
ghost use Rattle.xfs_base.specs.Limits.{block_logs};
ghost use Rattle.slot_beliefs.specs.Index.{pages_of, live_in, has_room};
ghost use Rattle.slot_beliefs.specs.Recalls.{applied_of, ready_blocks, is_followed, applied_upto};
ghost use Rattle.token_manager.specs.Transition.{slot_start, slot_clean, has_turns, passers, answer, slot_finish, recall_or_finish, recall, is_dropped, on_want, gave_last, gave_noted, on_gave, finish_job, apply, slot_apply, on_deltas, transition};

use crate::input::In;
use crate::output::{Out, found};
use crate::recalls::{await_all, send_all};
use index_pages::Pages;
use slot_beliefs::beliefs::{all_believed, give_way, meet_want, others};
use slot_beliefs::recalls::{
    applied_of, applied_upto, is_awaited, is_ready, nine, noted, ready_blocks, recalls, take_want,
    wait,
};
use slot_beliefs::{Awaited, BlockIndex, Holder, Job, Wanted};
use std::alloc::Global;
use std::collections::BTreeMap;
use std::marker::Model;
use xfs_base::limits::{BLOCK_LOGS, BY_LOG};
use xfs_base::{BlockId, Crosses, Entry, List, LogId, Mem, Mode, SegName, Stamp};

/// The tokens of one slot of the manager map, in one epoch (the 1996 paper, "Cache Consistency"). Contracts see
/// it as its state: the epoch, the index with the live blocks of each segment, who is believed to hold
/// each block, the wants that wait, the last turn, and how much of each log is applied.
pub struct Slot {
    epoch: u32,
    index: BlockIndex,
    beliefs: BTreeMap<Holder, bool>,
    jobs: BTreeMap<BlockId, Job>,
    turn: u64,
    applied: [u32; BY_LOG],
}

impl Drop for Slot {
    fn drop(self) {
        let Slot {
            epoch: _,
            index,
            beliefs,
            jobs,
            turn: _,
            applied: _,
        } = self;
        drop(index);
        drop(beliefs);
        drop(jobs);
    }
}

impl Model for Slot {
    ghost use Rattle.token_manager.specs.SlotState.{SlotState};

    ghost Value = { SlotState };

    ghost view = { λ a. record { epoch = a.epoch; index = a.index; beliefs = a.beliefs.entries; jobs = a.jobs.entries; turn = a.turn; applied = a.applied } };
}

impl Crosses for Slot {}

// Whether a want is answered from the log alone: it wants to write, or it was said before.
fn is_served_alone(want: Wanted) -> bool
    ensures { result ≡ is_own want.mode || not (want.again == 0) }
{
    want.mode.is_own() || want.again != 0
}

// Whether so many more turns can be given out.
fn has_turns(turn: u64, count: usize) -> bool
    ensures { result ≡ has_turns turn count }
{
    count as u64 <= u64::MAX - turn
}

impl Slot {
    /// A slot at the start of an epoch. `index` is what is known of where blocks lie, `beliefs` is who
    /// holds what, where `Nothing` says nothing, and `applied` is how much of each log, from log 1, the
    /// index covers. It may be asked only with nine numbers in `applied` and where no segment is named by
    /// more than 4,294,967,295 rows of the index. A slot that would need more than 4,294,967,295 pages is in
    /// want of memory.
    pub fn start(
        alloc: Global,
        epoch: u32,
        index: List<(BlockId, Entry)>,
        beliefs: List<(BlockId, u8, Mode)>,
        applied: List<u32>,
    ) -> Mem<Slot>
        requires nine { length applied ≡ block_logs }
        requires room { (seg : SegName) → live_in seg index < 2 ^ 32 }
        ensures { IfOk result (λ slot. slot ≡ slot_start epoch index beliefs applied) }
    {
        let applied = nine(applied.as_slice());
        Slot::start_with(alloc, epoch, index.as_slice(), beliefs.as_slice(), applied)
    }

    fn start_with(
        alloc: Global,
        epoch: u32,
        index: &[(BlockId, Entry)],
        beliefs: &[(BlockId, u8, Mode)],
        applied: [u32; BY_LOG],
    ) -> Mem<Slot>
        requires { (seg : SegName) → live_in seg index.now < 2 ^ 32 }
        ensures { IfOk result (λ slot. slot ≡ slot_start epoch index.now beliefs.now applied) }
    {
        let beliefs = all_believed(alloc, beliefs)?;
        let mut rows = BlockIndex::new(alloc);
        rows.merge_all(alloc, index)?;
        Ok(Slot {
            epoch,
            index: rows,
            beliefs,
            jobs: BTreeMap::new(alloc),
            turn: 0,
            applied,
        })
    }

    /// The epoch of the slot. Takes no memory.
    pub fn epoch(&self) -> u32
        ensures { result ≡ self.now.epoch }
    {
        self.epoch
    }

    /// The last turn that was given out. Takes no memory.
    pub fn turn(&self) -> u64
        ensures { result ≡ self.now.turn }
    {
        self.turn
    }

    /// The last segment number of a log whose deltas are applied: 0 of a log above 9, and of log 0, which
    /// there is not, that of log 1. Takes no memory.
    pub fn applied(&self, log: LogId) -> u32
        ensures { result ≡ applied_of self.now.applied log.0 }
    {
        applied_of(&self.applied, log.0)
    }

    /// The index in pages. Takes no memory.
    pub fn pages(&self) -> &Pages
        ensures { result.now ≡ pages_of self.now.index }
    {
        self.index.pages()
    }

    /// From here on no page of the index has changed; nothing else changes. Takes no memory.
    pub fn clean(&mut self)
        ensures { self.new ≡ slot_clean self.old }
    {
        self.index.clean();
    }

    /// The live blocks of each segment that has one, by segment.
    pub fn usage(&self, alloc: Global) -> Mem<List<(SegName, u32)>>
        ensures { IfOk result (λ counts. counts ≡ self.now.index.usage) }
    {
        self.index.counts(alloc)
    }

    /// What a slot does on an input, and what its manager then sends, in order.
    ///
    /// - A want is dropped where it is of mode `Nothing`, where another want waits for the block, or where
    ///   the asker's log is not applied up to the end that it names. Else the block is recalled from the
    ///   other owner, or to write from all other holders, and the want waits; where there are none, it is
    ///   answered at once.
    /// - An answer to a recall counts where its stamp is that of an unanswered recall of the want. The
    ///   want is answered when all are in and what each named is applied.
    /// - Deltas are merged where they join on to what is applied of their log and lead beyond it; the log
    ///   is told how much is applied, and then the wants that need wait no longer are answered, in order
    ///   of blocks. A log that is no client's and not the cleaner's is not followed. Deltas are dropped as a
    ///   whole where the count of a segment that one of the rows names could not rise by as many live blocks
    ///   as there are rows.
    /// - A check is answered `Live` exactly where the index has the block at the place.
    /// - A tick sends the unanswered recalls again.
    ///
    /// Where a turn or a count of live blocks could not rise, nothing changes and nothing is sent. A slot
    /// that would need more than 4,294,967,295 pages is in want of memory. After want of memory nothing is
    /// said of the slot.
    pub fn take(&mut self, alloc: Global, input: In) -> Mem<List<Out>>
        ensures state { OnOk result (self.new ≡ (transition self.old input).state) }
        ensures outs { IfOk result (λ outs. outs ≡ (transition self.old input).outs) }
    {
        let mut outs = List::new(alloc);
        self.take_in(alloc, &mut outs, &input)?;
        Ok(outs)
    }

    fn take_in(&mut self, alloc: Global, outs: &mut List<Out>, input: &In) -> Mem<()>
        ensures state { OnOk result (self.new ≡ (transition self.old input.now).state) }
        ensures outs { OnOk result (outs.new ≡ outs.old ++ (transition self.old input.now).outs) }
    {
        match *input {
            In::Want { want, end } => self.on_want(alloc, outs, want, end),
            In::Gave {
                client,
                block,
                stamp,
                end,
            } => self.on_gave(alloc, outs, client, block, stamp, end),
            In::Deltas {
                log,
                first,
                upto,
                ref rows,
            } => self.on_deltas(alloc, outs, log, first, upto, rows.as_slice()),
            In::Check { block, place } => outs.push(found(self.index.get(block), place)),
            In::Tick => send_all(outs, &self.jobs),
        }
    }

    fn passers(&self, alloc: Global, want: Wanted) -> Mem<List<u8>>
        ensures { IfOk result (λ clients. clients ≡ passers self.now want) }
    {
        if is_served_alone(want) {
            return Ok(List::new(alloc));
        }
        others(alloc, &self.beliefs, want.block, want.client, false)
    }

    // Answers a want under a new turn.
    fn finish(&mut self, alloc: Global, outs: &mut List<Out>, want: Wanted) -> Mem<()>
        requires { IsTrue (has_turns self.old.turn 1) }
        ensures state { OnOk result (self.new ≡ (slot_finish self.old want).state) }
        ensures outs { OnOk result (outs.new ≡ outs.old ++ (slot_finish self.old want).outs) }
    {
        self.send_answer(alloc, outs, want)?;
        self.turn += 1;
        meet_want(&mut self.beliefs, want)
    }

    // Sends what a want is answered under the next turn.
    fn send_answer(&self, alloc: Global, outs: &mut List<Out>, want: Wanted) -> Mem<()>
        requires { IsTrue (has_turns self.now.turn 1) }
        ensures { OnOk result (outs.new ≡ outs.old ++ answer self.now want (passers self.now want) ∷ []) }
    {
        let passers = self.passers(alloc, want)?;
        outs.push(self.answer(want, passers.as_slice()))
    }

    // A word to the lowest client that can pass its copy on, else a grant.
    fn answer(&self, want: Wanted, passers: &[u8]) -> Out
        requires { IsTrue (has_turns self.now.turn 1) }
        ensures { result ≡ answer self.now want passers.now }
    {
        let entry = self.index.get(want.block);
        let stamp = Stamp {
            epoch: self.epoch,
            turn: self.turn + 1,
        };
        match passers.first() {
            Some(passer) => Out::Forward {
                client: *passer,
                block: want.block,
                stamp,
                to: want.client,
                inc: want.inc,
                req: want.req,
                ver: entry.ver,
            },
            None => Out::Grant {
                client: want.client,
                block: want.block,
                stamp,
                inc: want.inc,
                req: want.req,
                mode: want.mode,
                entry,
            },
        }
    }

    // Whether a want is dropped: it wants nothing, another one waits for the block, or the asker's own log
    // isn't applied up to the end that it names.
    fn is_dropped(&self, want: Wanted, end: u32) -> bool
        ensures { result ≡ is_dropped self.now want end }
    {
        want.mode.is_nothing()
            || self.jobs.contains_key(&want.block)
            || applied_of(&self.applied, want.client) < end
    }

    fn on_want(&mut self, alloc: Global, outs: &mut List<Out>, want: Wanted, end: u32) -> Mem<()>
        ensures state { OnOk result (self.new ≡ (on_want self.old want end).state) }
        ensures outs { OnOk result (outs.new ≡ outs.old ++ (on_want self.old want end).outs) }
    {
        if self.is_dropped(want, end) {
            return Ok(());
        }
        let clients = others(
            alloc,
            &self.beliefs,
            want.block,
            want.client,
            !want.mode.is_own(),
        )?;
        self.recall_or_finish(alloc, outs, want, clients.as_slice())
    }

    fn recall_or_finish(
        &mut self,
        alloc: Global,
        outs: &mut List<Out>,
        want: Wanted,
        clients: &[u8],
    ) -> Mem<()>
        ensures state { OnOk result (self.new ≡ (recall_or_finish self.old want clients.now).state) }
        ensures outs { OnOk result (outs.new ≡ outs.old ++ (recall_or_finish self.old want clients.now).outs) }
    {
        if clients.len() == 0 {
            if self.turn == u64::MAX {
                return Ok(());
            }
            return self.finish(alloc, outs, want);
        }
        self.recall(alloc, outs, want, clients)
    }

    fn recall(
        &mut self,
        alloc: Global,
        outs: &mut List<Out>,
        want: Wanted,
        clients: &[u8],
    ) -> Mem<()>
        ensures state { OnOk result (self.new ≡ (recall self.old want clients.now).state) }
        ensures outs { OnOk result (outs.new ≡ outs.old ++ (recall self.old want clients.now).outs) }
    {
        if !has_turns(self.turn, clients.len()) {
            return Ok(());
        }
        let awaited = recalls(alloc, self.epoch, self.turn, !want.mode.is_own(), clients)?;
        self.turn += clients.len() as u64;
        await_all(&mut self.jobs, outs, want, awaited)
    }

    fn on_gave(
        &mut self,
        alloc: Global,
        outs: &mut List<Out>,
        client: u8,
        block: BlockId,
        stamp: Stamp,
        end: u32,
    ) -> Mem<()>
        ensures state { OnOk result (self.new ≡ (on_gave self.old client block stamp end).state) }
        ensures outs { OnOk result (outs.new ≡ outs.old ++ (on_gave self.old client block stamp end).outs) }
    {
        match self.jobs.get(&block) {
            None => Ok(()),
            Some(job) => {
                if !is_awaited(job.awaited.as_slice(), client, stamp) {
                    return Ok(());
                }
                let want = job.want;
                let awaited = noted(alloc, job.awaited.as_slice(), client, stamp, end)?;
                self.gave_noted(alloc, outs, client, block, want, awaited)
            }
        }
    }

    #[tactic(auto, unfolding(crate::specs::Transition::gave_noted))]
    fn gave_noted(
        &mut self,
        alloc: Global,
        outs: &mut List<Out>,
        client: u8,
        block: BlockId,
        want: Wanted,
        awaited: List<Awaited>,
    ) -> Mem<()>
        ensures state { OnOk result (self.new ≡ (gave_noted self.old client block want awaited).state) }
        ensures outs { OnOk result (outs.new ≡ outs.old ++ (gave_noted self.old client block want awaited).outs) }
    {
        if is_ready(&self.applied, awaited.as_slice()) {
            return self.gave_last(alloc, outs, client, block, want);
        }
        give_way(&mut self.beliefs, Holder { block, client }, want.mode);
        wait(&mut self.jobs, block, want, awaited)
    }

    // The last of the recalls is answered, and with it the want.
    fn gave_last(
        &mut self,
        alloc: Global,
        outs: &mut List<Out>,
        client: u8,
        block: BlockId,
        want: Wanted,
    ) -> Mem<()>
        ensures state { OnOk result (self.new ≡ (gave_last self.old client block want).state) }
        ensures outs { OnOk result (outs.new ≡ outs.old ++ (gave_last self.old client block want).outs) }
    {
        if self.turn == u64::MAX {
            return Ok(());
        }
        give_way(&mut self.beliefs, Holder { block, client }, want.mode);
        take_want(&mut self.jobs, block);
        self.finish(alloc, outs, want)
    }

    // Answers the want that waits for a block.
    #[tactic(auto, unfolding(crate::specs::Transition::finish_job))]
    fn finish_job(&mut self, alloc: Global, outs: &mut List<Out>, block: BlockId) -> Mem<()>
        requires { IsTrue (has_turns self.old.turn 1) }
        ensures state { OnOk result (self.new ≡ (finish_job self.old block).state) }
        ensures outs { OnOk result (outs.new ≡ outs.old ++ (finish_job self.old block).outs) }
        ensures turn { OnOk result (self.new.turn ≤ self.old.turn + 1) }
    {
        match take_want(&mut self.jobs, block) {
            Some(want) => self.finish(alloc, outs, want),
            None => Ok(()),
        }
    }

    // Answers the wants that wait for these blocks, in order.
    fn finish_jobs(&mut self, alloc: Global, outs: &mut List<Out>, blocks: &[BlockId]) -> Mem<()>
        requires { IsTrue (has_turns self.old.turn (length blocks.now)) }
        ensures state { OnOk result (self.new ≡ (steps finish_job self.old blocks.now).state) }
        ensures outs { OnOk result (outs.new ≡ outs.old ++ (steps finish_job self.old blocks.now).outs) }
    {
        for block in blocks {
            self.finish_job(alloc, outs, *block)?;
        }
        Ok(())
    }

    fn on_deltas(
        &mut self,
        alloc: Global,
        outs: &mut List<Out>,
        log: LogId,
        first: u32,
        upto: u32,
        rows: &[(BlockId, Entry)],
    ) -> Mem<()>
        ensures state { OnOk result (self.new ≡ (on_deltas self.old log first upto rows.now).state) }
        ensures outs { OnOk result (outs.new ≡ outs.old ++ (on_deltas self.old log first upto rows.now).outs) }
    {
        if log.0 < 1 || BLOCK_LOGS < log.0 {
            return Ok(());
        }
        let applied = applied_of(&self.applied, log.0);
        if u64::from(first) <= u64::from(applied) + 1 && applied < upto {
            return self.apply(alloc, outs, log, upto, rows);
        }
        outs.push(Out::Applied { log, applied })?;
        Ok(())
    }

    fn apply(
        &mut self,
        alloc: Global,
        outs: &mut List<Out>,
        log: LogId,
        upto: u32,
        rows: &[(BlockId, Entry)],
    ) -> Mem<()>
        requires { IsTrue (is_followed log) }
        ensures state { OnOk result (self.new ≡ (slot_apply self.old log upto rows.now).state) }
        ensures outs { OnOk result (outs.new ≡ outs.old ++ (slot_apply self.old log upto rows.now).outs) }
    {
        let applied = applied_upto(&self.applied, log, upto);
        let ready = ready_blocks(alloc, &self.jobs, &applied)?;
        self.apply_for(alloc, outs, log, upto, rows, ready.as_slice())
    }

    // Applies deltas where the wants for these blocks then need wait no longer.
    fn apply_for(
        &mut self,
        alloc: Global,
        outs: &mut List<Out>,
        log: LogId,
        upto: u32,
        rows: &[(BlockId, Entry)],
        ready: &[BlockId],
    ) -> Mem<()>
        requires followed { IsTrue (is_followed log) }
        requires ready { ready.now ≡ ready_blocks self.old.jobs (applied_upto self.old.applied log upto) }
        ensures state { OnOk result (self.new ≡ (slot_apply self.old log upto rows.now).state) }
        ensures outs { OnOk result (outs.new ≡ outs.old ++ (slot_apply self.old log upto rows.now).outs) }
    {
        if !has_turns(self.turn, ready.len()) || !self.index.has_room(rows) {
            return Ok(());
        }
        outs.push(Out::Applied { log, applied: upto })?;
        self.index.merge_all(alloc, rows)?;
        self.applied = applied_upto(&self.applied, log, upto);
        self.finish_jobs(alloc, outs, ready)
    }
}
