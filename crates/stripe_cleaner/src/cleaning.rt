//! The job: its state, its start, and what it takes.
ghost use Rattle.std.specs.Prelude.{◌≡◌, ◌++◌, IfOk, OnOk};
ghost use Rattle.stripe_cleaner.specs.CleaningState.{cleaning_start};
ghost use Rattle.stripe_cleaner.specs.Transition.{on_welcome, on_promise, on_listed, on_usage, on_read, cleaning_hears, on_live, on_dead, moved_in, deleted_in, mapped, turned, transition};

use crate::input::In;
use crate::listing::Listing;
use crate::output::Out;
use crate::phase::Phase;
use crate::promises::{is_above, is_promised, promised_of, promised_with};
use group_map::GroupMap;
use segment_format::Segment;
use std::alloc::Global;
use std::marker::Model;
use std::mem;
use xfs_base::limits::BY_SLOT;
use xfs_base::{BlockId, Crosses, Entry, FragMeta, List, Mem, SegName, SlotNews};

/// A job of the cleaner: so many segments are to be emptied. Contracts see it as a record of its parts
/// (`specs/CleaningState.antt`).
pub struct Cleaning {
    count: u32,
    promised: [u32; BY_SLOT],
    phase: Phase,
}

impl Drop for Cleaning {
    fn drop(self) {
        let Cleaning {
            count: _,
            promised: _,
            phase,
        } = self;
        drop(phase);
    }
}

impl Model for Cleaning {
    ghost use Rattle.stripe_cleaner.specs.CleaningState.{CleaningState};

    ghost Value = { CleaningState };

    ghost view = { λ c. record { count = c.count; promised = c.promised; phase = c.phase } };
}

impl Crosses for Cleaning {}

impl Cleaning {
    /// A job that empties up to so many segments, of which nothing is known yet. Its first Tick says Hello;
    /// what the node had promised before is handed in by Promise.
    pub fn start(_alloc: Global, count: u32) -> Mem<Cleaning>
        ensures { IfOk result (λ made. made ≡ cleaning_start count) }
    {
        Ok(Cleaning {
            count,
            promised: [0; BY_SLOT],
            phase: Phase::Greeting,
        })
    }

    /// What the job does on an input, as `specs/Transition.antt` says for each of them. After want of
    /// memory nothing is said of the job.
    pub fn take(&mut self, alloc: Global, input: In) -> Mem<List<Out>>
        ensures state { OnOk result (self.new ≡ (transition self.old input).state) }
        ensures outs { IfOk result (λ outs. outs ≡ (transition self.old input).outs) }
    {
        let mut outs = List::new(alloc);
        match self.take_one(alloc, &mut outs, input) {
            Ok(()) => Ok(outs),
            Err(error) => {
                drop(outs);
                Err(error)
            }
        }
    }

    fn take_one(&mut self, alloc: Global, outs: &mut List<Out>, input: In) -> Mem<()>
        ensures state { OnOk result (self.new ≡ (transition self.old input).state) }
        ensures outs { OnOk result (outs.new ≡ outs.old ++ (transition self.old input).outs) }
    {
        match input {
            In::Welcome { slots, groups } => self.on_welcome(alloc, outs, slots, groups),
            In::Promise { slot, epoch } => self.on_promise(outs, slot, epoch),
            In::Maps(groups) => {
                self.on_maps(groups);
                Ok(())
            }
            In::Listed { server, held } => self.on_listed(alloc, outs, server, held.as_slice()),
            In::Usage {
                slot,
                epoch,
                counts,
            } => self.on_usage(alloc, outs, slot, epoch, counts),
            In::Read(read) => self.on_read(alloc, outs, read),
            In::Live {
                block,
                epoch,
                entry,
            } => self.on_live(alloc, outs, block, epoch, entry),
            In::Dead { block, epoch } => self.on_dead(alloc, outs, block, epoch),
            In::Moved => self.on_moved(outs),
            In::Deleted { server, name } => self.on_deleted(alloc, outs, server, name),
            In::Tick => self.phase.tick(outs),
        }
    }

    // The phase, which the job then has no more.
    fn leave(&mut self) -> Phase
        ensures phase { result ≡ self.old.phase }
        ensures left { self.new ≡ record self.old { phase = Phase.Over } }
    {
        mem::replace(&mut self.phase, Phase::Over)
    }

    fn enter(&mut self, phase: Phase)
        ensures { self.new ≡ record self.old { phase = phase } }
    {
        self.phase = phase;
    }

    #[tactic(auto, unfolding(crate::specs::Transition::on_welcome))]
    fn on_welcome(
        &mut self,
        alloc: Global,
        outs: &mut List<Out>,
        slots: List<SlotNews>,
        groups: GroupMap,
    ) -> Mem<()>
        ensures state { OnOk result (self.new ≡ (on_welcome self.old slots groups).state) }
        ensures outs { OnOk result (outs.new ≡ outs.old ++ (on_welcome self.old slots groups).outs) }
    {
        if !self.phase.is_greeting() || slots.len() != BY_SLOT {
            return Ok(());
        }
        self.promised = promised_of(slots.as_slice(), &self.promised);
        let listing = Listing::begin(alloc, slots, groups)?;
        self.enter(Phase::Listing(listing));
        self.phase.tick(outs)
    }

    #[tactic(auto, unfolding(crate::specs::Transition::on_promise))]
    fn on_promise(&mut self, outs: &mut List<Out>, slot: u8, epoch: u32) -> Mem<()>
        ensures state { OnOk result (self.new ≡ (on_promise self.old slot epoch).state) }
        ensures outs { OnOk result (outs.new ≡ outs.old ++ (on_promise self.old slot epoch).outs) }
    {
        if !is_above(&self.promised, slot, epoch) {
            return Ok(());
        }
        self.promised = promised_with(&self.promised, slot, epoch);
        let phase = self.leave();
        self.enter(phase.forgetting(outs, slot)?);
        Ok(())
    }

    fn on_maps(&mut self, groups: GroupMap)
        ensures { self.new ≡ record self.old { phase = mapped groups self.old.phase } }
    {
        let phase = self.leave();
        self.enter(phase.mapped(groups));
    }

    fn on_listed(
        &mut self,
        alloc: Global,
        outs: &mut List<Out>,
        server: u8,
        held: &[FragMeta],
    ) -> Mem<()>
        ensures state { OnOk result (self.new ≡ (on_listed self.old server held.now).state) }
        ensures outs { OnOk result (outs.new ≡ outs.old ++ (on_listed self.old server held.now).outs) }
    {
        let phase = self.leave();
        self.enter(phase.listed(alloc, outs, server, held)?);
        Ok(())
    }

    #[tactic(auto, unfolding(crate::specs::Transition::on_usage))]
    fn on_usage(
        &mut self,
        alloc: Global,
        outs: &mut List<Out>,
        slot: u8,
        epoch: u32,
        counts: List<(SegName, u32)>,
    ) -> Mem<()>
        ensures state { OnOk result (self.new ≡ (on_usage self.old slot epoch counts).state) }
        ensures outs { OnOk result (outs.new ≡ outs.old ++ (on_usage self.old slot epoch counts).outs) }
    {
        if !is_promised(&self.promised, slot, epoch) {
            return Ok(());
        }
        let count = self.count;
        let phase = self.leave();
        self.enter(phase.counted(alloc, outs, count, slot, counts)?);
        Ok(())
    }

    fn on_read(&mut self, alloc: Global, outs: &mut List<Out>, read: Option<Segment>) -> Mem<()>
        ensures state { OnOk result (self.new ≡ (on_read self.old read).state) }
        ensures outs { OnOk result (outs.new ≡ outs.old ++ (on_read self.old read).outs) }
    {
        let phase = self.leave();
        self.enter(phase.read(alloc, outs, read)?);
        Ok(())
    }

    // Whether an answer of a block in an epoch counts.
    fn hears(&self, block: BlockId, epoch: u32) -> bool
        ensures { result ≡ cleaning_hears self.now.promised block epoch }
    {
        is_promised(&self.promised, block.ino.slot(), epoch)
    }

    #[tactic(auto, unfolding(crate::specs::Transition::on_live))]
    fn on_live(
        &mut self,
        alloc: Global,
        outs: &mut List<Out>,
        block: BlockId,
        epoch: u32,
        entry: Entry,
    ) -> Mem<()>
        ensures state { OnOk result (self.new ≡ (on_live self.old block epoch entry).state) }
        ensures outs { OnOk result (outs.new ≡ outs.old ++ (on_live self.old block epoch entry).outs) }
    {
        if !self.hears(block, epoch) || entry.hop == u32::MAX {
            return Ok(());
        }
        let phase = self.leave();
        self.enter(phase.live(alloc, outs, block, entry)?);
        Ok(())
    }

    #[tactic(auto, unfolding(crate::specs::Transition::on_dead))]
    fn on_dead(
        &mut self,
        alloc: Global,
        outs: &mut List<Out>,
        block: BlockId,
        epoch: u32,
    ) -> Mem<()>
        ensures state { OnOk result (self.new ≡ (on_dead self.old block epoch).state) }
        ensures outs { OnOk result (outs.new ≡ outs.old ++ (on_dead self.old block epoch).outs) }
    {
        if !self.hears(block, epoch) {
            return Ok(());
        }
        let phase = self.leave();
        self.enter(phase.dead(alloc, outs, block)?);
        Ok(())
    }

    fn on_moved(&mut self, outs: &mut List<Out>) -> Mem<()>
        ensures state { OnOk result (self.new ≡ (turned self.old (moved_in self.old.phase)).state) }
        ensures outs { OnOk result (outs.new ≡ outs.old ++ (moved_in self.old.phase).outs) }
    {
        let phase = self.leave();
        self.enter(phase.moved(outs)?);
        Ok(())
    }

    fn on_deleted(
        &mut self,
        alloc: Global,
        outs: &mut List<Out>,
        server: u8,
        name: SegName,
    ) -> Mem<()>
        ensures state { OnOk result (self.new ≡ (turned self.old (deleted_in server name self.old.phase)).state) }
        ensures outs { OnOk result (outs.new ≡ outs.old ++ (deleted_in server name self.old.phase).outs) }
    {
        let phase = self.leave();
        self.enter(phase.deleted(alloc, outs, server, name)?);
        Ok(())
    }
}
