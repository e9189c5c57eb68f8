//! The table of live blocks.
ghost use Rattle.std.specs.Prelude.{◌≡◌, ◌≢◌, ◌<◌, ◌+◌, ◌↔◌, ℕ, [], OnOk, OnErr, IfOk, Some, Contains};
ghost use Rattle.std.specs.Option.{ForSome};
ghost use Rattle.std.specs.List.Sorted.{IsStrictlySortedBy};
ghost use Rattle.std.specs.Map.{keys_of};
ghost use Rattle.xfs_base.specs.Segments.{seg_cmp};
ghost use Rattle.xfs_base.specs.declared.segment.SegName.{SegName};
ghost use Rattle.xfs_base.specs.Limits.{u32_end};
ghost use Rattle.usage_table.specs.Counts.{count_of, blocks_at, is_same, usage_give, usage_take, usage_shift};

use std::alloc::Global;
use std::collections::BTreeMap;
use std::marker::Model;
use xfs_base::{Crosses, List, Mem, SegName};

/// How many live blocks each segment has: the utilization by which a cleaner chooses. Contracts see it as
/// the counts above 0, by segment.
pub struct Usage {
    counts: BTreeMap<SegName, u32>,
}

impl Drop for Usage {
    fn drop(self) {
        let Usage { counts } = self;
        drop(counts);
    }
}

impl Model for Usage {
    ghost use Rattle.std.specs.Prelude.{List, ℕ};
    ghost use Rattle.xfs_base.specs.declared.segment.SegName.{SegName};
    ghost use Rattle.usage_table.specs.Counts.{IsTable};

    ghost Value = { List (SegName × ℕ) };

    ghost view = { λ u. u.counts.entries };

    ghost invariant = { λ u. IsTable u.counts.entries };
}

impl Crosses for Usage {}

impl Usage {
    /// A table of no live block. Takes no memory.
    pub fn new(alloc: Global) -> Usage
        ensures { result ≡ [] }
    {
        Usage {
            counts: BTreeMap::new(alloc),
        }
    }

    /// Takes one live block from `from`, where there is one, and gives it to `to`, where there is one.
    /// It may be asked only where `from` has a live block and where `to`, if it is another segment, has
    /// less than 4,294,967,295. Where memory is wanting the table is unchanged.
    pub fn shift(&mut self, _alloc: Global, from: Option<SegName>, to: Option<SegName>) -> Mem<()>
        requires held { ForSome from (λ seg. 0 < count_of self.old seg) }
        requires room { ForSome to (λ seg. from ≢ Some seg → count_of self.old seg < u32_end) }
        ensures moved { OnOk result (self.new ≡ usage_shift self.old from to) }
        ensures counted { OnOk result ((seg : SegName)
            → count_of self.new seg + blocks_at from seg ≡ count_of self.old seg + blocks_at to seg) }
        ensures err { OnErr result (self.new ≡ self.old) }
    {
        if is_same(from, to) {
            return Ok(());
        }
        give(&mut self.counts, to)?;
        take(&mut self.counts, from);
        Ok(())
    }

    /// How many live blocks a segment has. Takes no memory.
    pub fn count(&self, seg: SegName) -> u32
        ensures { result ≡ count_of self.now seg }
    {
        count_in(&self.counts, seg)
    }

    /// The counts above 0, by log, number and pass.
    pub fn counts(&self, alloc: Global) -> Mem<List<(SegName, u32)>>
        ensures whole { IfOk result (λ counts. counts ≡ self.now) }
        ensures sorted { IfOk result (λ counts. IsStrictlySortedBy seg_cmp (keys_of counts)) }
        ensures listed { IfOk result (λ counts. (seg : SegName) (count : ℕ)
            → Contains counts (seg, count) ↔ ((0 < count) × (count ≡ count_of self.now seg))) }
    {
        listed(alloc, &self.counts)
    }
}

// Whether both ends are one segment.
fn is_same(from: Option<SegName>, to: Option<SegName>) -> bool
    ensures { result ≡ is_same from to }
{
    match (from, to) {
        (Some(from), Some(to)) => from.is_same(to),
        _ => false,
    }
}

fn count_in(counts: &BTreeMap<SegName, u32>, seg: SegName) -> u32
    ensures { result ≡ count_of counts.now.entries seg }
{
    counts.get(&seg).copied().unwrap_or(0)
}

fn listed(alloc: Global, counts: &BTreeMap<SegName, u32>) -> Mem<List<(SegName, u32)>>
    ensures { IfOk result (λ listed. listed ≡ counts.now.entries) }
{
    let mut listed = List::new(alloc);
    for (seg, count) in counts {
        listed.push((*seg, *count))?;
    }
    Ok(listed)
}

// Memory is taken here, before anything changes, and for a new segment alone.
fn give(counts: &mut BTreeMap<SegName, u32>, to: Option<SegName>) -> Mem<()>
    requires { ForSome to (λ seg. count_of counts.old.entries seg < u32_end) }
    ensures ok { OnOk result (counts.new.entries ≡ usage_give counts.old.entries to) }
    ensures err { OnErr result (counts.new.entries ≡ counts.old.entries) }
{
    if let Some(seg) = to {
        let count = count_in(counts, seg);
        counts.insert(seg, count + 1)?;
    }
    Ok(())
}

fn take(counts: &mut BTreeMap<SegName, u32>, from: Option<SegName>)
    ensures { counts.new.entries ≡ usage_take counts.old.entries from }
{
    if let Some(seg) = from {
        take_one(counts, seg);
    }
}

fn take_one(counts: &mut BTreeMap<SegName, u32>, seg: SegName)
    ensures { counts.new.entries ≡ usage_take counts.old.entries (Some seg) }
{
    let count = count_in(counts, seg);
    if count <= 1 {
        counts.remove(&seg);
        return;
    }
    if let Some(held) = counts.get_mut(&seg) {
        *held = count - 1;
    }
}
