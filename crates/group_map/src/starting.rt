//! The parts of a map at its start.
ghost use Rattle.std.specs.Prelude.{◌≡◌, ◌≤◌, IfOk, length, map};
ghost use Rattle.xfs_base.specs.Limits.{u32_end};
ghost use Rattle.group_map.specs.Groups.{first_members, first_layout, numbered};
ghost use Rattle.group_map.specs.Sizes.{bad_size};

use crate::group::is_group_size;
use crate::{Group, Member};
use std::alloc::Global;
use xfs_base::{GroupSetup, List, Mem};

/// The first size of these groups that no group of its parity may have.
pub(crate) fn first_bad_size(groups: &[GroupSetup]) -> Option<usize>
    ensures { result ≡ bad_size groups.now }
{
    for group in groups {
        if !is_group_size(group.parity, group.servers.len()) {
            return Some(group.servers.len());
        }
    }
    None
}

/// These servers at generation 1.
fn members_of(alloc: Global, servers: &[u8]) -> Mem<List<Member>>
    ensures { IfOk result (λ members. members ≡ first_members servers.now) }
{
    let mut members = List::new(alloc);
    for server in servers {
        members.push(Member {
            server: *server,
            generation: 1,
        })?;
    }
    Ok(members)
}

/// Current groups of these setups, with ids from 1.
pub(crate) fn first_groups(alloc: Global, groups: &[GroupSetup]) -> Mem<List<Group>>
    requires { length groups.now ≤ u32_end }
    ensures { IfOk result (λ made. made ≡ numbered 1 (map first_layout groups.now)) }
{
    let mut made = List::new(alloc);
    for group in groups {
        let id = made.len() as u32 + 1;
        let members = members_of(alloc, group.servers.as_slice())?;
        made.push(Group {
            id,
            members,
            parity: group.parity,
            current: true,
        })?;
    }
    Ok(made)
}
