//! How far a job is.
ghost use Rattle.std.specs.Prelude.{◌≡◌, ◌++◌, ◌<◌, IfOk, OnOk};
ghost use Rattle.xfs_base.specs.Limits.{u32_end};
ghost use Rattle.stripe_cleaner.specs.Checks.{live_at, dead_at};
ghost use Rattle.stripe_cleaner.specs.Transition.{is_greeting, mapped, forgetting, listed_in, counted_in, read_in, answered_in, moved_in, deleted_in, phase_asking};

use crate::checks::{Check, add_questions};
use crate::counting::Counting;
use crate::job::{Job, add_deletes};
use crate::listing::Listing;
use crate::output::Out;
use group_map::GroupMap;
use segment_format::Segment;
use std::alloc::Global;
use xfs_base::{BlockId, Crosses, Entry, FragMeta, List, Mem, SegName, SegRef};

/// How far a job is, with what there is only then.
#[derive(Drop)]
pub enum Phase {
    /// The Welcome is awaited.
    Greeting,
    /// The servers' lists are awaited.
    Listing(Listing),
    /// The slots' counts are awaited.
    Counting(Counting),
    /// A segment is read.
    Reading {
        /// The job.
        job: Job,
        /// The segment.
        segment: SegRef,
    },
    /// The blocks of a segment are asked for, moved, and asked for again.
    Checking {
        /// The job.
        job: Job,
        /// The segment.
        segment: SegRef,
        /// Its blocks.
        checks: List<Check>,
    },
    /// A segment is deleted.
    Deleting {
        /// The job.
        job: Job,
        /// The segment.
        segment: SegRef,
        /// The servers whose answers are awaited.
        servers: List<u8>,
    },
    /// It is over.
    Over,
}

impl Crosses for Phase {}

impl Phase {
    /// Whether the Welcome is awaited.
    pub(crate) fn is_greeting(&self) -> bool
        ensures { result ≡ is_greeting self.now }
    {
        match self {
            Phase::Greeting => true,
            _ => false,
        }
    }

    /// The same with these groups.
    pub(crate) fn mapped(self, groups: GroupMap) -> Phase
        ensures { result ≡ mapped groups self }
    {
        match self {
            Phase::Greeting => Phase::Greeting,
            Phase::Listing(listing) => Phase::Listing(listing.with_groups(groups)),
            Phase::Counting(counting) => Phase::Counting(counting.with_groups(groups)),
            Phase::Reading { job, segment } => Phase::Reading {
                job: job.with_groups(groups),
                segment,
            },
            Phase::Checking {
                job,
                segment,
                checks,
            } => Phase::Checking {
                job: job.with_groups(groups),
                segment,
                checks,
            },
            Phase::Deleting {
                job,
                segment,
                servers,
            } => Phase::Deleting {
                job: job.with_groups(groups),
                segment,
                servers,
            },
            Phase::Over => Phase::Over,
        }
    }

    /// Counts of a slot that are in are forgotten.
    pub(crate) fn forgetting(self, outs: &mut List<Out>, slot: u8) -> Mem<Phase>
        ensures phase { IfOk result (λ phase. phase ≡ (forgetting slot self).state) }
        ensures outs { OnOk result (outs.new ≡ outs.old ++ (forgetting slot self).outs) }
    {
        match self {
            Phase::Counting(counting) => counting.forget(outs, slot),
            phase => Ok(phase),
        }
    }

    /// What a server holds.
    pub(crate) fn listed(
        self,
        alloc: Global,
        outs: &mut List<Out>,
        server: u8,
        held: &[FragMeta],
    ) -> Mem<Phase>
        ensures phase { IfOk result (λ phase. phase ≡ (listed_in server held.now self).state) }
        ensures outs { OnOk result (outs.new ≡ outs.old ++ (listed_in server held.now self).outs) }
    {
        match self {
            Phase::Listing(listing) => listing.on_list(alloc, outs, server, held),
            phase => Ok(phase),
        }
    }

    /// The counts of a slot.
    pub(crate) fn counted(
        self,
        alloc: Global,
        outs: &mut List<Out>,
        count: u32,
        slot: u8,
        counts: List<(SegName, u32)>,
    ) -> Mem<Phase>
        ensures phase { IfOk result (λ phase. phase ≡ (counted_in count slot counts self).state) }
        ensures outs { OnOk result (outs.new ≡ outs.old ++ (counted_in count slot counts self).outs) }
    {
        match self {
            Phase::Counting(counting) => counting.on_counts(alloc, outs, count, slot, counts),
            phase => Ok(phase),
        }
    }

    /// The segment that was to be read.
    pub(crate) fn read(
        self,
        alloc: Global,
        outs: &mut List<Out>,
        read: Option<Segment>,
    ) -> Mem<Phase>
        ensures phase { IfOk result (λ phase. phase ≡ (read_in read self).state) }
        ensures outs { OnOk result (outs.new ≡ outs.old ++ (read_in read self).outs) }
    {
        match self {
            Phase::Reading { job, segment } => job.on_read(alloc, outs, segment, read),
            phase => Ok(phase),
        }
    }

    /// A block is live.
    pub(crate) fn live(
        self,
        alloc: Global,
        outs: &mut List<Out>,
        block: BlockId,
        entry: Entry,
    ) -> Mem<Phase>
        requires { entry.hop < u32_end }
        ensures phase { IfOk result (λ phase. phase ≡ (answered_in (live_at block entry) self).state) }
        ensures outs { OnOk result (outs.new ≡ outs.old ++ (answered_in (live_at block entry) self).outs) }
    {
        match self {
            Phase::Checking {
                job,
                segment,
                checks,
            } => job.on_live(alloc, outs, segment, checks, block, entry),
            phase => Ok(phase),
        }
    }

    /// A block is dead.
    pub(crate) fn dead(self, alloc: Global, outs: &mut List<Out>, block: BlockId) -> Mem<Phase>
        ensures phase { IfOk result (λ phase. phase ≡ (answered_in (dead_at block) self).state) }
        ensures outs { OnOk result (outs.new ≡ outs.old ++ (answered_in (dead_at block) self).outs) }
    {
        match self {
            Phase::Checking {
                job,
                segment,
                checks,
            } => job.on_dead(alloc, outs, segment, checks, block),
            phase => Ok(phase),
        }
    }

    /// The move is settled.
    pub(crate) fn moved(self, outs: &mut List<Out>) -> Mem<Phase>
        ensures phase { IfOk result (λ phase. phase ≡ (moved_in self).state) }
        ensures outs { OnOk result (outs.new ≡ outs.old ++ (moved_in self).outs) }
    {
        match self {
            Phase::Checking {
                job,
                segment,
                checks,
            } => job.on_moved(outs, segment, checks),
            phase => Ok(phase),
        }
    }

    /// A server has deleted a segment.
    pub(crate) fn deleted(
        self,
        alloc: Global,
        outs: &mut List<Out>,
        server: u8,
        name: SegName,
    ) -> Mem<Phase>
        ensures phase { IfOk result (λ phase. phase ≡ (deleted_in server name self).state) }
        ensures outs { OnOk result (outs.new ≡ outs.old ++ (deleted_in server name self).outs) }
    {
        match self {
            Phase::Deleting {
                job,
                segment,
                servers,
            } => job.on_deleted(alloc, outs, segment, servers, server, name),
            phase => Ok(phase),
        }
    }

    /// This phase, in which what is awaited is asked for.
    pub(crate) fn asking(self, outs: &mut List<Out>) -> Mem<Phase>
        ensures phase { IfOk result (λ phase. phase ≡ self) }
        ensures outs { OnOk result (outs.new ≡ outs.old ++ phase_asking self) }
    {
        match self.tick(outs) {
            Ok(()) => Ok(self),
            Err(error) => {
                drop(self);
                Err(error)
            }
        }
    }

    /// Asks again for what is awaited.
    pub(crate) fn tick(&self, outs: &mut List<Out>) -> Mem<()>
        ensures { OnOk result (outs.new ≡ outs.old ++ phase_asking self.now) }
    {
        match self {
            Phase::Greeting => outs.push(Out::Hello),
            Phase::Listing(listing) => listing.ask(outs),
            Phase::Counting(counting) => counting.ask(outs),
            Phase::Reading { segment, .. } => outs.push(Out::Fetch(*segment)),
            Phase::Checking {
                segment,
                checks,
                ..
            } => add_questions(outs, *segment, checks.as_slice()),
            Phase::Deleting {
                segment,
                servers,
                ..
            } => add_deletes(outs, segment.name, servers.as_slice()),
            Phase::Over => Ok(()),
        }
    }
}
