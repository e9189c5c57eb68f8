//! The gathering of what the storage servers hold.
ghost use Rattle.std.specs.Prelude.{◌≡◌, ◌++◌, [], IfOk, OnOk, slice_index};
ghost use Rattle.stripe_cleaner.specs.Candidates.{horizon_at, least_horizon, is_cleaned, is_candidate, candidates_with};
ghost use Rattle.stripe_cleaner.specs.Listing.{all_servers, listing_begin, is_among, without};
ghost use Rattle.stripe_cleaner.specs.Transition.{lists, listing_hear, listing_go_on, on_list};

use crate::counting::Counting;
use crate::output::Out;
use crate::phase::Phase;
use group_map::GroupMap;
use std::alloc::Global;
use std::collections::BTreeMap;
use std::marker::Model;
use std::mem;
use xfs_base::limits::BLOCK_LOGS;
use xfs_base::{Crosses, FragMeta, List, LogId, Mem, SegName, SlotNews};

/// What is known while the servers' lists come in. Contracts see it as a record.
pub struct Listing {
    groups: GroupMap,
    slots: List<SlotNews>,
    awaited: List<u8>,
    candidates: BTreeMap<SegName, u32>,
}

impl Drop for Listing {
    fn drop(self) {
        let Listing {
            groups,
            slots,
            awaited,
            candidates,
        } = self;
        drop(groups);
        drop(slots);
        drop(awaited);
        drop(candidates);
    }
}

impl Model for Listing {
    ghost use Rattle.stripe_cleaner.specs.Listing.{ListingState};

    ghost Value = { ListingState };

    ghost view = { λ l. record { groups = l.groups; slots = l.slots; awaited = l.awaited; candidates = l.candidates.entries } };
}

impl Crosses for Listing {}

impl Listing {
    /// The same with these groups.
    pub(crate) fn with_groups(mut self, groups: GroupMap) -> Listing
        ensures { result ≡ record self { groups = groups } }
    {
        self.groups = groups;
        self
    }

    /// No list is in, and all servers are awaited.
    pub(crate) fn begin(alloc: Global, slots: List<SlotNews>, groups: GroupMap) -> Mem<Listing>
        ensures { IfOk result (λ listing. listing ≡ listing_begin slots groups) }
    {
        match all_servers(alloc, groups.servers()) {
            Ok(awaited) => Ok(Listing {
                groups,
                slots,
                awaited,
                candidates: BTreeMap::new(alloc),
            }),
            Err(error) => {
                drop(slots);
                drop(groups);
                Err(error)
            }
        }
    }

    /// Asks the servers for their lists that are not in.
    pub(crate) fn ask(&self, outs: &mut List<Out>) -> Mem<()>
        ensures { OnOk result (outs.new ≡ outs.old ++ lists self.now.awaited) }
    {
        add_lists(outs, self.awaited.as_slice())
    }

    /// What a server holds.
    pub(crate) fn on_list(
        mut self,
        alloc: Global,
        outs: &mut List<Out>,
        server: u8,
        held: &[FragMeta],
    ) -> Mem<Phase>
        ensures phase { IfOk result (λ phase. phase ≡ (on_list server held.now self).state) }
        ensures outs { OnOk result (outs.new ≡ outs.old ++ (on_list server held.now self).outs) }
    {
        if !is_among(self.awaited.as_slice(), server) {
            return Ok(Phase::Listing(self));
        }
        match self.hear(alloc, server, held) {
            Ok(()) => self.go_on(alloc, outs),
            Err(error) => {
                drop(self);
                Err(error)
            }
        }
    }

    fn hear(&mut self, alloc: Global, server: u8, held: &[FragMeta]) -> Mem<()>
        ensures { OnOk result (self.new ≡ listing_hear self.old server held.now) }
    {
        let awaited = mem::replace(&mut self.awaited, List::new(alloc));
        let others = without(alloc, awaited, server)?;
        drop(mem::replace(&mut self.awaited, others));
        add_candidates(&mut self.candidates, self.slots.as_slice(), held)
    }

    // Once all lists are in, the slots are asked for their counts.
    fn go_on(self, alloc: Global, outs: &mut List<Out>) -> Mem<Phase>
        ensures phase { IfOk result (λ phase. phase ≡ (listing_go_on self).state) }
        ensures outs { OnOk result (outs.new ≡ outs.old ++ (listing_go_on self).outs) }
    {
        if !self.awaited.is_empty() {
            return Ok(Phase::Listing(self));
        }
        Phase::Counting(self.ended(alloc)).asking(outs)
    }

    fn ended(self, alloc: Global) -> Counting
        ensures { result ≡ record { groups = self.groups; candidates = self.candidates; usages = [] } }
    {
        let Listing {
            groups,
            slots,
            awaited,
            candidates,
        } = self;
        drop(slots);
        drop(awaited);
        Counting::begin(alloc, groups, candidates)
    }
}

// All servers, in order.
fn all_servers(alloc: Global, servers: u8) -> Mem<List<u8>>
    ensures { IfOk result (λ all. all ≡ all_servers servers) }
{
    let mut all = List::new(alloc);
    for before in 0..servers {
        all.push(before + 1)?;
    }
    Ok(all)
}

/// Whether a number is among others.
pub(crate) fn is_among(numbers: &[u8], number: u8) -> bool
    ensures { result ≡ is_among numbers.now number }
{
    for other in numbers {
        if *other == number {
            return true;
        }
    }
    false
}

/// The others.
pub(crate) fn without(alloc: Global, numbers: List<u8>, number: u8) -> Mem<List<u8>>
    ensures { IfOk result (λ others. others ≡ without numbers number) }
{
    let mut others = List::new(alloc);
    match add_others(&mut others, numbers.as_slice(), number) {
        Ok(()) => Ok(others),
        Err(error) => {
            drop(others);
            Err(error)
        }
    }
}

fn add_others(others: &mut List<u8>, numbers: &[u8], number: u8) -> Mem<()>
    ensures { OnOk result (others.new ≡ others.old ++ without numbers.now number) }
{
    for other in numbers {
        if *other != number {
            others.push(*other)?;
        }
    }
    Ok(())
}

fn add_lists(outs: &mut List<Out>, servers: &[u8]) -> Mem<()>
    ensures { OnOk result (outs.new ≡ outs.old ++ lists servers.now) }
{
    for server in servers {
        outs.push(Out::List { server: *server })?;
    }
    Ok(())
}

// Of each name the group that was listed last stays.
fn add_candidates(
    candidates: &mut BTreeMap<SegName, u32>,
    slots: &[SlotNews],
    held: &[FragMeta],
) -> Mem<()>
    ensures { OnOk result (candidates.new.entries ≡ candidates_with slots.now held.now candidates.old.entries) }
{
    for meta in held {
        if is_candidate(slots, meta.name) {
            candidates.insert(meta.name, meta.group)?;
        }
    }
    Ok(())
}

// Whether a segment may be emptied.
fn is_candidate(slots: &[SlotNews], name: SegName) -> bool
    ensures { result ≡ is_candidate slots.now name }
{
    is_cleaned(name.log) && name.seq < least_horizon(slots, name.log)
}

fn is_cleaned(log: LogId) -> bool
    ensures { result ≡ is_cleaned log.0 }
{
    1 <= log.0 && log.0 <= BLOCK_LOGS
}

fn least_horizon(slots: &[SlotNews], log: LogId) -> u32
    ensures { result ≡ least_horizon slots.now log.0 }
{
    let mut least = u32::MAX;
    for news in slots {
        least = least.min(horizon_at(news, log));
    }
    least
}

fn horizon_at(news: &SlotNews, log: LogId) -> u32
    ensures { result ≡ horizon_at news.now log.0 }
{
    number_at(
        news.horizon.as_slice(),
        usize::from(log.0).saturating_sub(1),
    )
}

// The number at a place; 0 past the end.
fn number_at(numbers: &[u32], place: usize) -> u32
    ensures { result ≡ slice_index numbers.now place }
{
    match numbers.get(place) {
        Some(number) => *number,
        None => 0,
    }
}
