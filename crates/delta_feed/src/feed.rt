//! The feed.
ghost use Rattle.std.specs.Prelude.{◌≡◌, ◌++◌, ◌≤◌, ℕ, length, drop, IfOk, OnOk};
ghost use Rattle.delta_feed.specs.FeedState.{acked_of, feed_start};
ghost use Rattle.std.specs.List.Sorted.{IsNonDecreasingBy};
ghost use Rattle.delta_feed.specs.declared.feed.FiledDeltas.{FiledDeltas};
ghost use Rattle.delta_feed.specs.Transition.{slot_rows, all_rows, rows_after, settled, acknowledged, new_epoch, feed_push, feed_tick, transition};

use crate::{In, Out};
use std::alloc::Global;
use std::marker::Model;
use xfs_base::limits::{BY_SLOT, SLOT_COUNT};
use xfs_base::{BlockId, Crosses, Entry, List, Mem};

/// What one settled segment says of blocks.
pub struct FiledDeltas {
    /// The number of the segment in its log.
    pub seq: u32,
    /// The blocks and their entries, in the segment's order.
    pub rows: List<(BlockId, Entry)>,
}

impl Drop for FiledDeltas {
    fn drop(self) {
        let FiledDeltas { seq: _, rows } = self;
        drop(rows);
    }
}

/// The deltas of one log by segment, above a base, and how far each slot has acknowledged them (the 1996
/// paper, "Writes": once a segment is stored, its writer tells the managers of the files in it what
/// changed). Contracts see it as a record of lists.
pub struct Feed {
    base: u32,
    filed: List<FiledDeltas>,
    end: u32,
    acked: [u32; BY_SLOT],
}

impl Drop for Feed {
    fn drop(self) {
        let Feed {
            base: _,
            filed,
            end: _,
            acked: _,
        } = self;
        drop(filed);
    }
}

impl Model for Feed {
    ghost use Rattle.delta_feed.specs.FeedState.{FeedState, IsInOrder};

    ghost Value = { FeedState };

    ghost view = { λ f. record { base = f.base; filed = f.filed; end = f.end; acked = f.acked } };

    ghost invariant = { λ f. IsInOrder f.filed f.end };
}

impl Crosses for FiledDeltas {}

impl Crosses for Feed {}

impl Feed {
    /// A feed of nothing above the base: what the slots know of the log up to that segment they know from
    /// elsewhere. Each slot has acknowledged the base.
    pub fn start(alloc: Global, base: u32) -> Mem<Feed>
        ensures { IfOk result (λ feed. feed ≡ feed_start base) }
    {
        Ok(Feed {
            base,
            filed: List::new(alloc),
            end: base,
            acked: [base; BY_SLOT],
        })
    }

    /// One step: what the feed is after the input, and what it gives. After want of memory nothing is said
    /// of the feed.
    pub fn take(&mut self, alloc: Global, input: In) -> Mem<List<Out>>
        ensures state { OnOk result (self.new ≡ (transition self.old input).state) }
        ensures outs { IfOk result (λ outs. outs ≡ (transition self.old input).outs) }
    {
        let mut outs = List::new(alloc);
        match input {
            In::Settled { seq, rows } => self.settled(seq, rows)?,
            In::Ack { slot, applied } => self.acknowledged(slot, applied),
            In::NewEpoch { slot } => self.new_epoch(slot),
            In::Push { slot } => self.push(alloc, &mut outs, slot)?,
            In::Tick => self.tick(alloc, &mut outs)?,
        }
        Ok(outs)
    }

    /// Up to which segment the manager of a slot, 0 to 7, has acknowledged the log; the base at a greater
    /// number. Takes no memory.
    pub fn acked(&self, slot: u8) -> u32
        ensures { result ≡ acked_of self.now slot }
    {
        if slot < SLOT_COUNT {
            self.acked[usize::from(slot)]
        } else {
            self.base
        }
    }

    fn settled(&mut self, seq: u32, rows: List<(BlockId, Entry)>) -> Mem<()>
        ensures { OnOk result (self.new ≡ settled self.old seq rows) }
    {
        if self.end < seq {
            self.filed.push(FiledDeltas { seq, rows })?;
            self.end = seq;
        }
        Ok(())
    }

    fn acknowledged(&mut self, slot: u8, applied: u32)
        ensures { self.new ≡ acknowledged self.old slot applied }
    {
        if slot < SLOT_COUNT && self.acked(slot) < applied {
            self.acked[usize::from(slot)] = applied;
        }
    }

    fn new_epoch(&mut self, slot: u8)
        ensures { self.new ≡ new_epoch self.old slot }
    {
        if slot < SLOT_COUNT {
            self.acked[usize::from(slot)] = self.base;
        }
    }

    #[tactic(auto, unfolding(crate::specs::Transition::feed_push))]
    fn push(&self, alloc: Global, outs: &mut List<Out>, slot: u8) -> Mem<()>
        ensures { OnOk result (outs.new ≡ outs.old ++ feed_push self.now slot) }
    {
        let acked = self.acked(slot);
        if slot < SLOT_COUNT && acked < self.end {
            let rows = rows_after(alloc, &self.filed, slot, acked)?;
            outs.push(Out::Range {
                slot,
                first: acked + 1,
                upto: self.end,
                rows,
            })?;
        }
        Ok(())
    }

    fn tick(&self, alloc: Global, outs: &mut List<Out>) -> Mem<()>
        ensures { OnOk result (outs.new ≡ outs.old ++ feed_tick self.now) }
    {
        for slot in 0..SLOT_COUNT {
            self.push(alloc, outs, slot)?;
        }
        Ok(())
    }
}

// The rows of a slot in the segments above a number. It takes time by these segments, and not by those
// below them.
fn rows_after(
    alloc: Global,
    filed: &List<FiledDeltas>,
    slot: u8,
    number: u32,
) -> Mem<List<(BlockId, Entry)>>
    requires { IsNonDecreasingBy (λ (f : FiledDeltas). f.seq) filed.now }
    ensures { IfOk result (λ rows. rows ≡ rows_after slot number filed.now) }
{
    let filed = filed.as_slice();
    all_rows(alloc, &filed[count_upto(filed, number)..], slot)
}

// How many segments have no greater number than this: those after them are all that are above it.
fn count_upto(filed: &[FiledDeltas], number: u32) -> usize
    requires { IsNonDecreasingBy (λ (f : FiledDeltas). f.seq) filed.now }
    ensures within { result ≤ length filed.now }
    ensures rest { (slot : ℕ) → all_rows slot (drop result filed.now) ≡ rows_after slot number filed.now }
{
    filed.partition_point(|segment| segment.seq <= number)
}

// The rows of a slot in these segments.
fn all_rows(alloc: Global, filed: &[FiledDeltas], slot: u8) -> Mem<List<(BlockId, Entry)>>
    ensures { IfOk result (λ rows. rows ≡ all_rows slot filed.now) }
{
    let mut rows = List::from_vec(Vec::with_capacity(alloc, room_for(filed, slot))?);
    for segment in filed {
        add_slot_rows(&mut rows, slot, &segment.rows)?;
    }
    Ok(rows)
}

// How many rows of a slot there are, so that a list of them takes no more room: it stays in a run for good.
fn room_for(filed: &[FiledDeltas], slot: u8) -> usize {
    let mut room: usize = 0;
    for segment in filed {
        room = room.saturating_add(count_rows(&segment.rows, slot));
    }
    room
}

fn count_rows(rows: &List<(BlockId, Entry)>, slot: u8) -> usize {
    rows.as_slice()
        .iter()
        .filter(|row| row.0.ino.slot() == slot)
        .count()
}

fn add_slot_rows(
    rows: &mut List<(BlockId, Entry)>,
    slot: u8,
    more: &List<(BlockId, Entry)>,
) -> Mem<()>
    ensures { OnOk result (rows.new ≡ rows.old ++ slot_rows slot more.now) }
{
    for row in more.as_slice() {
        if row.0.ino.slot() == slot {
            rows.push(*row)?;
        }
    }
    Ok(())
}
