//! The counts of an estate.
ghost use Rattle.std.specs.Prelude.{◌≡◌, ◌+◌, ◌<◌, ◌^◌, ◌++◌, IfOk, OnOk};
ghost use Rattle.transcript.specs.Counts.{counts_with, counts_of, acts_counted, segments_text, counts_text, brief_of};

use crate::replies::{items_in, open_items};
use act_text::piece::add_marked;
use std::alloc::Global;
use version_model::Act;
use world_base::Estate;
use xfs_base::{Mem, Text};

/// How many acts there are of each kind that is counted.
#[derive(Clone, Copy, PartialEq, Eq)]
pub struct Counts {
    /// Writes.
    pub wrote: u64,
    /// Reads.
    pub read: u64,
    /// Segments that were filed.
    pub filed: u64,
    /// Segments that were dropped.
    pub dropped: u64,
    /// Segments that were refused as lost.
    pub lost: u64,
}

impl Counts {
    /// The counts with one act more.
    fn with(self, act: &Act) -> Counts
        requires { acts_counted self + 1 < 2 ^ 64 }
        ensures { result ≡ counts_with self act.now }
    {
        let mut counts = self;
        match act {
            Act::Wrote { .. } => counts.wrote += 1,
            Act::Read { .. } => counts.read += 1,
            Act::Filed { .. } => counts.filed += 1,
            Act::Dropped { .. } => counts.dropped += 1,
            Act::Lost { .. } => counts.lost += 1,
            _ => {}
        }
        counts
    }

    /// The counts of some acts.
    fn of(acts: &[Act]) -> Counts
        ensures { result ≡ counts_of acts.now }
    {
        let mut counts = Counts {
            wrote: 0,
            read: 0,
            filed: 0,
            dropped: 0,
            lost: 0,
        };
        for act in acts {
            counts = counts.with(act);
        }
        counts
    }
}

/// Appends how many segments were filed, dropped and refused as lost.
fn add_segments(alloc: Global, text: &mut Text, counts: Counts) -> Mem<()>
    ensures { OnOk result (text.new ≡ text.old ++ segments_text counts) }
{
    add_marked(alloc, text, b" filed ", counts.filed)?;
    add_marked(alloc, text, b" dropped ", counts.dropped)?;
    add_marked(alloc, text, b" lost ", counts.lost)?;
    text.add(b"\n")
}

/// Appends how many acts there are of each kind.
fn add_counts(alloc: Global, text: &mut Text, counts: Counts) -> Mem<()>
    ensures { OnOk result (text.new ≡ text.old ++ counts_text counts) }
{
    add_marked(alloc, text, b" wrote ", counts.wrote)?;
    add_marked(alloc, text, b" read ", counts.read)?;
    add_segments(alloc, text, counts)
}

/// The line of counts of an estate: of items, of open ones, and of acts of five kinds.
#[tactic(auto, unfolding(crate::specs::Counts::brief_of))]
pub fn brief<N>(alloc: Global, estate: &Estate<N>) -> Mem<Text>
    ensures { IfOk result (λ text. text ≡ brief_of estate.now) }
{
    let counts = Counts::of(estate.world.acts.as_slice());
    let mut text = Text::new(alloc);
    add_marked(alloc, &mut text, b"items ", items_in(estate))?;
    add_marked(alloc, &mut text, b" open ", open_items(estate))?;
    add_counts(alloc, &mut text, counts)?;
    Ok(text)
}
