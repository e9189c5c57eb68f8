//! The map of groups.
ghost use Rattle.std.specs.Prelude.{◌≡◌, ◌↔◌, ◌+◌, ◌<◌, ◌≤◌, IfOk, OnOk, OnErr, IsErrOf, IsTrue, MatchResult, IsSomeAnd, Some, None, All, length, filter, nat_eq, slice_index};
ghost use Rattle.std.specs.List.{IsDistinct};
ghost use Rattle.xfs_base.specs.Limits.{u32_end};
ghost use Rattle.group_map.specs.Groups.{group_of, generation_at, current_ids, group_map_choose, group_map_start, is_hit, after_loss};
ghost use Rattle.group_map.specs.Sizes.{IsParity, bad_size};
ghost use Rattle.group_map.specs.WellFormed.{IsServer, IsStripe, IsPresent};

use crate::groups::Groups;
use crate::losing::{follow, generation_of, retire};
use crate::starting::{first_bad_size, first_groups};
use crate::{Group, GroupError, NoGroup};
use std::alloc::Global;
use std::marker::Model;
use xfs_base::{Copied, Crosses, GroupSetup, List, LogId, Mem};

/// The stripe group map (the 1996 paper, "The Stripe Group Map"): all groups that were ever made, by id, and the
/// generation of each storage server, which rises with each loss of what the server kept. One group at
/// least is current.
pub struct GroupMap {
    servers: u8,
    generations: List<u32>,
    groups: Groups,
}

impl Drop for GroupMap {
    fn drop(self) {
        let GroupMap {
            servers: _,
            generations,
            groups,
        } = self;
        drop(generations);
        drop(groups);
    }
}

impl Model for GroupMap {
    ghost use Rattle.group_map.specs.GroupMapState.{GroupMapState};
    ghost use Rattle.group_map.specs.WellFormed.{IsGroupMap};

    ghost Value = { GroupMapState };

    ghost view = { λ m. record { servers = m.servers; generations = m.generations; groups = m.groups } };

    ghost invariant = { λ m. IsGroupMap (record { servers = m.servers; generations = m.generations; groups = m.groups }) };
}

impl GroupMap {
    /// The map of these groups: ids count from 1, generations are 1, all groups are current. `BadSize`
    /// exactly where a group has fewer servers than two more than its parity, or more than 8, with the
    /// size of the first such.
    pub fn start(alloc: Global, servers: u8, groups: &[GroupSetup]) -> Result<GroupMap, GroupError>
        requires count { (1 ≤ length groups.now) × (length groups.now ≤ u32_end) }
        requires exist { All (λ g. All (IsServer servers) g.servers) groups.now }
        requires differ { All (λ g. IsDistinct nat_eq g.servers) groups.now }
        requires parity { All (λ g. IsParity g.parity) groups.now }
        ensures ok { IfOk result (λ map. map ≡ group_map_start servers groups.now) }
        ensures bad_size { (n : _) → IsErrOf result (GroupError.BadSize n) ↔ (bad_size groups.now ≡ Some n) }
        ensures fits { OnOk result (bad_size groups.now ≡ None) }
    {
        if let Some(size) = first_bad_size(groups) {
            return Err(GroupError::BadSize(size));
        }
        match GroupMap::of_groups(alloc, servers, groups) {
            Ok(map) => Ok(map),
            Err(_) => Err(GroupError::Memory),
        }
    }

    /// The map of groups whose sizes are right.
    fn of_groups(alloc: Global, servers: u8, groups: &[GroupSetup]) -> Mem<GroupMap>
        requires count { (1 ≤ length groups.now) × (length groups.now ≤ u32_end) }
        requires exist { All (λ g. All (IsServer servers) g.servers) groups.now }
        requires differ { All (λ g. IsDistinct nat_eq g.servers) groups.now }
        requires parity { All (λ g. IsParity g.parity) groups.now }
        requires fits { bad_size groups.now ≡ None }
        ensures { IfOk result (λ map. map ≡ group_map_start servers groups.now) }
    {
        let generations = vec![in alloc; 1u32; usize::from(servers)]?;
        let groups = first_groups(alloc, groups)?;
        Ok(GroupMap {
            servers,
            generations: List::from_vec(generations),
            groups: Groups::from_list(groups)?,
        })
    }

    /// The group of this id, current or obsolete. The members of a current one are at the generations
    /// that their servers have now. `NoGroup` with the id exactly where there is none.
    pub fn lookup(&self, id: u32) -> Result<&Group, NoGroup>
        ensures exact { MatchResult result (λ group. group_of self.now id ≡ Some group.now) (λ e. (e.0 ≡ id) × (group_of self.now id ≡ None)) }
        ensures stripe { IfOk result (λ group. IsStripe self.now.servers group.now.parity group.now.members) }
        ensures present { IfOk result (λ group. IsPresent self.now.generations group.now) }
    {
        let groups = &self.groups;
        if id == 0 {
            return Err(NoGroup(id));
        }
        match groups.get(id as usize - 1) {
            Some(group) => Ok(group),
            None => Err(NoGroup(id)),
        }
    }

    /// How many storage servers there are; they are numbered from 1.
    pub fn servers(&self) -> u8
        ensures { result ≡ self.now.servers }
    {
        self.servers
    }

    /// The generation of a server, which must exist: 1 at first, and greater after each loss.
    pub fn generation(&self, server: u8) -> u32
        requires { IsServer self.now.servers server }
        ensures { result ≡ generation_at self.now.generations server }
    {
        generation_of(self.generations.as_slice(), server)
    }

    /// The id of the group for a segment: of the current groups in order of id the one at place (log +
    /// seq) mod their number.
    pub fn choose(&self, log: LogId, seq: u32) -> u32
        ensures exact { result ≡ group_map_choose self.now.groups log.0 seq }
        ensures current { IsSomeAnd (group_of self.now result) (λ group. IsTrue group.current) }
    {
        let groups = self.groups.as_slice();
        let place = (usize::from(log.0) + seq as usize) % current_count(groups);
        current_at(groups, place)
    }

    /// Makes known that a server lost what it kept and goes on at a greater generation. Each current
    /// group with the server becomes obsolete and is followed, in order of id, by a new current group of
    /// the same servers at their generations; all else of a group stays. Where memory is wanting the map
    /// is unchanged.
    pub fn after_loss(&mut self, alloc: Global, server: u8, generation: u32) -> Mem<()>
        requires exists { IsServer self.old.servers server }
        requires newer { generation_at self.old.generations server < generation }
        requires room { length self.old.groups + length (filter (is_hit server) self.old.groups) ≤ u32_end }
        ensures ok { OnOk result (self.new ≡ after_loss self.old server generation) }
        ensures err { OnErr result (self.new ≡ self.old) }
    {
        let mut generations = self.generations.copy(alloc)?.into_vec();
        generations[usize::from(server) - 1] = generation;
        let mut groups = retire(alloc, self.groups.as_slice(), server)?;
        follow(
            alloc,
            self.groups.as_slice(),
            &generations,
            server,
            &mut groups,
        )?;
        let groups = Groups::from_list(groups)?;
        self.generations = List::from_vec(generations);
        self.groups = groups;
        Ok(())
    }

    /// A map equal to this one.
    pub fn copy(&self, alloc: Global) -> Mem<GroupMap>
        ensures { IfOk result (λ copied. copied ≡ self.now) }
    {
        Ok(GroupMap {
            servers: self.servers,
            generations: self.generations.copy(alloc)?,
            groups: self.groups.copy()?,
        })
    }
}

impl Copied for GroupMap {
    fn copied(&self, alloc: Global) -> Mem<GroupMap> {
        self.copy(alloc)
    }
}

impl Crosses for GroupMap {}

/// How many of the groups are current.
fn current_count(groups: &[Group]) -> usize
    ensures { result ≡ length (current_ids groups.now) }
{
    let mut count = 0;
    for group in groups {
        if group.current {
            count += 1;
        }
    }
    count
}

/// The id of the current group at this place among the current ones.
fn current_at(groups: &[Group], place: usize) -> u32
    requires { place < length (current_ids groups.now) }
    ensures { result ≡ slice_index (current_ids groups.now) place }
{
    let mut left = place;
    for group in groups {
        if group.current {
            if left == 0 {
                return group.id;
            }
            left -= 1;
        }
    }
    0
}
