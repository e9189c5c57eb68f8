//! The maps as a node has them.
ghost use Rattle.std.specs.Prelude.{◌≡◌, IfOk, OnOk, Some, None};
ghost use Rattle.std.specs.List.{list_all};
ghost use Rattle.group_map.specs.Groups.{group_of};
ghost use Rattle.node_base.specs.Maps.{maps_start, forgotten, knows, knows_prior, is_older, fits, extends, maps_take, has_all, has_below, has_it, same_group, has_parts, is_in};

use group_map::{Group, GroupMap};
use std::alloc::Global;
use wire_msg::News;
use xfs_base::{Mem, Prior, SegRef, SlotNews};

/// The version of the maps that a node has, and their groups. A node that starts again has version 0 and
/// no groups until it takes maps.
pub struct Maps {
    /// The version.
    pub version: u32,
    /// How many servers the setup has.
    pub servers: u8,
    /// The groups.
    pub groups: Option<GroupMap>,
}

impl Drop for Maps {
    fn drop(self) {
        let Maps {
            version: _,
            servers: _,
            groups,
        } = self;
        drop(groups);
    }
}

impl Maps {
    /// The maps of the setup, of version 1.
    pub fn start(groups: GroupMap) -> Maps
        ensures { result ≡ maps_start groups }
    {
        Maps {
            version: 1,
            servers: groups.servers(),
            groups: Some(groups),
        }
    }

    /// Those of a node that starts again.
    pub fn forgotten(servers: u8) -> Maps
        ensures { result ≡ forgotten servers }
    {
        Maps {
            version: 0,
            servers,
            groups: None,
        }
    }

    /// Whether a group of this id is known.
    pub fn knows(&self, group: u32) -> bool
        ensures { result ≡ knows self.now group }
    {
        match &self.groups {
            Some(groups) => groups.lookup(group).is_ok(),
            None => false,
        }
    }

    /// Whether there is no prior, or one in a group that is known.
    pub fn knows_prior(&self, prior: Prior) -> bool
        ensures { result ≡ knows_prior self.now prior }
    {
        prior.names_none() || self.knows(prior.group)
    }

    /// A copy of the groups, for a machine; none where the node has none.
    pub fn copy_groups(&self, alloc: Global) -> Mem<Option<GroupMap>>
        ensures { IfOk result (λ groups. groups ≡ self.now.groups) }
    {
        match &self.groups {
            Some(groups) => Ok(Some(groups.copy(alloc)?)),
            None => Ok(None),
        }
    }

    /// Whether news are newer than what the node has.
    pub fn is_older(&self, news: &News) -> bool
        ensures { result ≡ is_older self.now news.now }
    {
        self.version < news.version
    }

    /// Whether news may be taken: where they are newer, their groups are of the same servers and have all
    /// groups that are known, with the same members; and the parts of their slots name groups that are
    /// known then.
    pub fn fits(&self, news: &News) -> bool
        ensures { result ≡ fits self.now news.now }
    {
        if self.is_older(news) {
            self.extends(&news.groups) && has_parts(&news.groups, news.slots.as_slice())
        } else {
            self.has_parts(news.slots.as_slice())
        }
    }

    fn extends(&self, newer: &GroupMap) -> bool
        ensures { result ≡ extends self.now newer.now }
    {
        newer.servers() == self.servers
            && match &self.groups {
                Some(groups) => has_all(groups, newer),
                None => true,
            }
    }

    // Whether all parts of the slots are in groups that are known.
    fn has_parts(&self, slots: &[SlotNews]) -> bool
        ensures { result ≡ has_parts self.now.groups slots.now }
    {
        slots
            .iter()
            .all(|slot| self.has_each(slot.parts.as_slice()))
    }

    fn has_each(&self, parts: &[SegRef]) -> bool
        ensures { result ≡ list_all (λ part. is_in self.now.groups part.group) parts.now }
    {
        parts.iter().all(|part| self.knows(part.group))
    }

    /// Takes the groups of news that fit, where the news are newer; says whether they were.
    pub fn take(&mut self, alloc: Global, news: &News) -> Mem<bool>
        ensures maps { OnOk result (self.new ≡ maps_take self.old news.now) }
        ensures newer { IfOk result (λ newer. newer ≡ is_older self.old news.now) }
    {
        if !self.is_older(news) {
            return Ok(false);
        }
        self.groups = Some(news.groups.copy(alloc)?);
        self.version = news.version;
        Ok(true)
    }
}

// Whether each group of these is among others, with the same members.
#[tactic(auto, unfolding(crate::specs::Maps::has_all))]
fn has_all(groups: &GroupMap, others: &GroupMap) -> bool
    ensures { result ≡ has_all groups.now others.now }
{
    has_below(groups, others, u32::MAX)
}

// The same of those with an id below this one.
#[tactic(auto, unfolding(crate::specs::Maps::has_below))]
fn has_below(groups: &GroupMap, others: &GroupMap, end: u32) -> bool
    ensures { result ≡ has_below groups.now others.now end }
{
    for id in 1..end {
        let Ok(group) = groups.lookup(id) else {
            return true;
        };
        if !has_it(group, others) {
            return false;
        }
    }
    true
}

fn has_it(group: &Group, others: &GroupMap) -> bool
    ensures { result ≡ has_it group.now (group_of others.now group.now.id) }
{
    match others.lookup(group.id) {
        Ok(other) => is_same(group, other),
        Err(_) => false,
    }
}

fn is_same(group: &Group, other: &Group) -> bool
    ensures { result ≡ same_group group.now other.now }
{
    group.parity == other.parity && group.members.as_slice() == other.members.as_slice()
}

// Whether all parts of the slots are in groups of these.
fn has_parts(groups: &GroupMap, slots: &[SlotNews]) -> bool
    ensures { result ≡ has_parts (Some groups.now) slots.now }
{
    slots
        .iter()
        .all(|slot| has_each(groups, slot.parts.as_slice()))
}

fn has_each(groups: &GroupMap, parts: &[SegRef]) -> bool
    ensures { result ≡ list_all (λ part. is_in (Some groups.now) part.group) parts.now }
{
    parts.iter().all(|part| has_group(groups, part.group))
}

fn has_group(groups: &GroupMap, group: u32) -> bool
    ensures { result ≡ is_in (Some groups.now) group }
{
    groups.lookup(group).is_ok()
}
