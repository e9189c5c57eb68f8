//! The gathering of usages, and the choice of the segments to empty.
ghost use Rattle.std.specs.Prelude.{◌≡◌, ◌++◌, ◌≤◌, [], IfOk, OnOk, map, not, take, length};
ghost use Rattle.std.specs.List.{list_all};
ghost use Rattle.std.specs.Ordering.{nat_cmp};
ghost use Rattle.std.specs.Map.{remove_entry};
ghost use Rattle.std.specs.BTreeMap.{is_at, insert_entry};
ghost use Rattle.xfs_base.specs.Limits.{u32_end, slot_count};
ghost use Rattle.usage_table.specs.Counts.{count_of};
ghost use Rattle.stripe_cleaner.specs.Counting.{has_usage, is_counted, awaited_among, awaited_slots, live_in, live_among, live_count, fullness_of, by_fullness, chosen, segment_at};
ghost use Rattle.stripe_cleaner.specs.Transition.{usage_asks, forgotten, forgetting, counting_go_on, counting_hear, on_counts};

use crate::job::Job;
use crate::output::Out;
use crate::phase::Phase;
use group_map::GroupMap;
use std::alloc::Global;
use std::collections::{BTreeMap, VecDeque};
use std::marker::Model;
use xfs_base::limits::BY_SLOT;
use xfs_base::{Crosses, List, Mem, SegName, SegRef};

/// The slots, in order.
const SLOTS: [u8; BY_SLOT] = [0, 1, 2, 3, 4, 5, 6, 7];

/// By what the candidates are chosen, the least first: live blocks, then log, number and pass.
#[derive(Clone, Copy, PartialEq, Eq, PartialOrd, Ord)]
pub struct Fullness {
    /// How many live blocks the segment has.
    pub live: u64,
    /// The segment.
    pub name: SegName,
}

/// What is known while the counts of the slots come in. Contracts see it as a record.
pub struct Counting {
    groups: GroupMap,
    candidates: BTreeMap<SegName, u32>,
    usages: BTreeMap<u8, List<(SegName, u32)>>,
}

impl Drop for Counting {
    fn drop(self) {
        let Counting {
            groups,
            candidates,
            usages,
        } = self;
        drop(groups);
        drop(candidates);
        drop(usages);
    }
}

impl Model for Counting {
    ghost use Rattle.stripe_cleaner.specs.Counting.{CountingState};

    ghost Value = { CountingState };

    ghost view = { λ c. record { groups = c.groups; candidates = c.candidates.entries; usages = c.usages.entries } };
}

impl Crosses for Fullness {}

impl Crosses for Counting {}

impl Counting {
    /// The same with these groups.
    pub(crate) fn with_groups(mut self, groups: GroupMap) -> Counting
        ensures { result ≡ record self { groups = groups } }
    {
        self.groups = groups;
        self
    }

    /// No counts are in.
    pub(crate) fn begin(
        alloc: Global,
        groups: GroupMap,
        candidates: BTreeMap<SegName, u32>,
    ) -> Counting
        ensures { result ≡ record { groups = groups; candidates = candidates.entries; usages = [] } }
    {
        Counting {
            groups,
            candidates,
            usages: BTreeMap::new(alloc),
        }
    }

    /// Asks the slots for their counts that are not in.
    pub(crate) fn ask(&self, outs: &mut List<Out>) -> Mem<()>
        ensures { OnOk result (outs.new ≡ outs.old ++ usage_asks (awaited_slots self.now.usages)) }
    {
        add_usage_asks(outs, &self.usages, &SLOTS)
    }

    /// The counts of a slot, where they are in, are forgotten and asked for again.
    pub(crate) fn forget(self, outs: &mut List<Out>, slot: u8) -> Mem<Phase>
        ensures phase { IfOk result (λ phase. phase ≡ (forgetting slot (Phase.Counting self)).state) }
        ensures outs { OnOk result (outs.new ≡ outs.old ++ (forgetting slot (Phase.Counting self)).outs) }
    {
        if !has_usage(&self.usages, slot) {
            return Ok(Phase::Counting(self));
        }
        match outs.push(Out::UsageAsk { slot }) {
            Ok(()) => Ok(Phase::Counting(self.forgotten(slot))),
            Err(error) => {
                drop(self);
                Err(error)
            }
        }
    }

    fn forgotten(mut self, slot: u8) -> Counting
        ensures { result ≡ forgotten slot self }
    {
        remove_usage(&mut self.usages, slot);
        self
    }

    /// The counts of a slot, where none are in.
    pub(crate) fn on_counts(
        mut self,
        alloc: Global,
        outs: &mut List<Out>,
        count: u32,
        slot: u8,
        counts: List<(SegName, u32)>,
    ) -> Mem<Phase>
        ensures phase { IfOk result (λ phase. phase ≡ (on_counts count slot counts self).state) }
        ensures outs { OnOk result (outs.new ≡ outs.old ++ (on_counts count slot counts self).outs) }
    {
        if has_usage(&self.usages, slot) {
            drop(counts);
            return Ok(Phase::Counting(self));
        }
        match self.hear(slot, counts) {
            Ok(()) => self.go_on(alloc, outs, count),
            Err(error) => {
                drop(self);
                Err(error)
            }
        }
    }

    fn hear(&mut self, slot: u8, counts: List<(SegName, u32)>) -> Mem<()>
        ensures { OnOk result (self.new ≡ counting_hear slot counts self.old) }
    {
        put_usage(&mut self.usages, slot, counts)?;
        Ok(())
    }

    // Once all counts are in, the segments are chosen, and the first is read.
    fn go_on(self, alloc: Global, outs: &mut List<Out>, count: u32) -> Mem<Phase>
        ensures phase { IfOk result (λ phase. phase ≡ (counting_go_on count self).state) }
        ensures outs { OnOk result (outs.new ≡ outs.old ++ (counting_go_on count self).outs) }
    {
        if !is_counted(&self.usages) {
            return Ok(Phase::Counting(self));
        }
        match self.chosen(alloc, count) {
            Ok(left) => self.ended(left).next(outs),
            Err(error) => {
                drop(self);
                Err(error)
            }
        }
    }

    fn ended(self, left: VecDeque<SegRef>) -> Job
        ensures { result ≡ record { groups = self.groups; left = left.items; deleted = 0 } }
    {
        let Counting {
            groups,
            candidates,
            usages,
        } = self;
        drop(candidates);
        drop(usages);
        Job::begin(groups, left)
    }

    // The candidates that are least full, so many, in order.
    fn chosen(&self, alloc: Global, count: u32) -> Mem<VecDeque<SegRef>>
        ensures { IfOk result (λ left. left.items ≡ chosen count self.now) }
    {
        let by_fullness = self.by_fullness(alloc)?;
        first_by_fullness(alloc, count, &by_fullness)
    }

    // The candidates, the least full first.
    fn by_fullness(&self, alloc: Global) -> Mem<BTreeMap<Fullness, u32>>
        ensures { IfOk result (λ all. all.entries ≡ by_fullness self.now) }
    {
        let mut all = BTreeMap::new(alloc);
        for (name, group) in &self.candidates {
            all.insert(fullness_of(&self.usages, *name), *group)?;
        }
        Ok(all)
    }
}

/// The counts that are in, by slot.
type Usages = BTreeMap<u8, List<(SegName, u32)>>;

fn has_usage(usages: &Usages, slot: u8) -> bool
    ensures { result ≡ has_usage usages.now.entries slot }
{
    usages.contains_key(&slot)
}

fn remove_usage(usages: &mut Usages, slot: u8)
    ensures { usages.new.entries ≡ remove_entry (is_at (nat_cmp slot)) usages.old.entries }
{
    usages.remove(&slot);
}

fn put_usage(usages: &mut Usages, slot: u8, counts: List<(SegName, u32)>) -> Mem<()>
    ensures { OnOk result (usages.new.entries ≡ insert_entry nat_cmp usages.old.entries slot counts) }
{
    usages.insert(slot, counts)?;
    Ok(())
}

// Whether the counts of all slots are in.
fn is_counted(usages: &Usages) -> bool
    ensures { result ≡ is_counted usages.now.entries }
{
    are_counted(usages, &SLOTS)
}

fn are_counted(usages: &Usages, slots: &[u8]) -> bool
    ensures { result ≡ list_all (has_usage usages.now.entries) slots.now }
{
    slots.iter().all(|slot| has_usage(usages, *slot))
}

fn is_awaited(usages: &Usages, slot: u8) -> bool
    ensures { result ≡ not (has_usage usages.now.entries slot) }
{
    !has_usage(usages, slot)
}

// Asks those of the slots for their counts that are not in.
fn add_usage_asks(outs: &mut List<Out>, usages: &Usages, slots: &[u8]) -> Mem<()>
    ensures { OnOk result (outs.new ≡ outs.old ++ usage_asks (awaited_among usages.now.entries slots.now)) }
{
    for slot in slots {
        if is_awaited(usages, *slot) {
            outs.push(Out::UsageAsk { slot: *slot })?;
        }
    }
    Ok(())
}

fn fullness_of(usages: &Usages, name: SegName) -> Fullness
    ensures { result ≡ fullness_of usages.now.entries name }
{
    Fullness {
        live: live_count(usages, name, &SLOTS),
        name,
    }
}

// The live blocks of a segment in these slots.
fn live_count(usages: &Usages, name: SegName, slots: &[u8]) -> u64
    requires { length slots.now ≤ slot_count }
    ensures { result ≡ live_among usages.now.entries name slots.now }
{
    let mut live = 0;
    for slot in slots {
        live += wide_live_in(usages, name, *slot);
    }
    live
}

fn wide_live_in(usages: &Usages, name: SegName, slot: u8) -> u64
    ensures exact { result ≡ live_in usages.now.entries name slot }
    ensures fits { result ≤ u32_end }
{
    u64::from(live_in(usages, name, slot))
}

// The live blocks of a segment in a slot.
fn live_in(usages: &Usages, name: SegName, slot: u8) -> u32
    ensures { result ≡ live_in usages.now.entries name slot }
{
    match usages.get(&slot) {
        Some(counts) => count_of(counts.as_slice(), name),
        None => 0,
    }
}

// The count of a segment among these; 0 where it is not listed.
fn count_of(counts: &[(SegName, u32)], name: SegName) -> u32
    ensures { result ≡ count_of counts.now name }
{
    for (seg, count) in counts {
        if name.is_same(*seg) {
            return *count;
        }
    }
    0
}

// The first of these, so many.
fn first_by_fullness(
    alloc: Global,
    count: u32,
    by_fullness: &BTreeMap<Fullness, u32>,
) -> Mem<VecDeque<SegRef>>
    ensures { IfOk result (λ left. left.items ≡ map segment_at (take count by_fullness.now.entries)) }
{
    let mut left = VecDeque::new(alloc);
    for (fullness, group) in by_fullness {
        if left.len() < count as usize {
            left.push_back(SegRef {
                name: fullness.name,
                group: *group,
            })?;
        }
    }
    Ok(left)
}
