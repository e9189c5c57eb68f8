//! The groups of a setup.
ghost use Rattle.std.specs.Prelude.{◌≡◌, ◌&&◌, IfOk, IsTrue, nat_eq};
ghost use Rattle.std.specs.List.{list_all, list_any};
ghost use Rattle.group_map.specs.Groups.{group_map_start};
ghost use Rattle.group_map.specs.Sizes.{is_group_size};
ghost use Rattle.node_base.specs.Setups.{IsSetup, is_setup, has_nodes, has_groups, is_group, is_within, are_distinct};

use group_map::GroupMap;
use std::alloc::{AllocError, Global};
use xfs_base::limits::{MOST_CLIENTS, MOST_MANAGERS};
use xfs_base::{GroupSetup, Mem, Setup};

/// The groups of a setup, as each node has them when a run starts.
pub fn groups_of(alloc: Global, setup: &Setup) -> Mem<GroupMap>
    requires { IsSetup setup.now }
    ensures { IfOk result (λ groups. groups ≡ group_map_start setup.now.servers setup.now.groups) }
{
    match GroupMap::start(alloc, setup.servers, setup.groups.as_slice()) {
        Ok(groups) => Ok(groups),
        Err(_) => Err(AllocError),
    }
}

/// Whether a run can be started of a setup.
pub fn is_setup(setup: &Setup) -> bool
    ensures test { result ≡ is_setup setup.now }
    ensures right { IsTrue result → IsSetup setup.now }
{
    passes(setup)
}

fn passes(setup: &Setup) -> bool
    ensures { result ≡ is_setup setup.now }
{
    has_nodes(setup) && is_within(1, 1024, usize::from(setup.cache)) && has_groups(setup)
}

fn has_nodes(setup: &Setup) -> bool
    ensures { result ≡ has_nodes setup.now }
{
    is_within(1, usize::from(MOST_CLIENTS), usize::from(setup.clients))
        && is_within(1, usize::from(MOST_MANAGERS), usize::from(setup.managers))
        && is_within(3, 12, usize::from(setup.servers))
}

fn has_groups(setup: &Setup) -> bool
    ensures { result ≡ has_groups setup.now }
{
    is_within(1, 8, setup.groups.len()) && are_groups(setup.servers, setup.groups.as_slice())
}

fn are_groups(servers: u8, groups: &[GroupSetup]) -> bool
    ensures { result ≡ list_all (is_group servers) groups.now }
{
    groups.iter().all(|group| is_group(servers, group))
}

fn is_group(servers: u8, group: &GroupSetup) -> bool
    ensures { result ≡ is_group servers group.now }
{
    has_servers(servers, group.servers.as_slice()) && is_sized(group.parity, group.servers.len())
}

fn has_servers(servers: u8, those: &[u8]) -> bool
    ensures { result ≡ (list_all (is_within 1 servers) those.now && are_distinct those.now) }
{
    do_exist(servers, those) && are_distinct(those)
}

fn do_exist(servers: u8, those: &[u8]) -> bool
    ensures { result ≡ list_all (is_within 1 servers) those.now }
{
    those.iter().all(|server| is_within(1, usize::from(servers), usize::from(*server)))
}

fn is_sized(parity: u8, size: usize) -> bool
    ensures { result ≡ (is_within 1 2 parity && is_group_size parity size) }
{
    is_within(1, 2, usize::from(parity)) && usize::from(parity) + 2 <= size && size <= 8
}

fn is_within(least: usize, limit: usize, number: usize) -> bool
    ensures { result ≡ is_within least limit number }
{
    least <= number && number <= limit
}

fn are_distinct(numbers: &[u8]) -> bool
    ensures { result ≡ are_distinct numbers.now }
{
    for (place, number) in numbers.iter().enumerate() {
        if is_among(*number, &numbers[place + 1..]) {
            return false;
        }
    }
    true
}

fn is_among(number: u8, numbers: &[u8]) -> bool
    ensures { result ≡ list_any (nat_eq number) numbers.now }
{
    numbers.iter().any(|other| is_same(number, *other))
}

fn is_same(a: u8, b: u8) -> bool
    ensures { result ≡ nat_eq a b }
{
    a == b
}
