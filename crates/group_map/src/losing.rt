//! The parts of a map after a loss.
ghost use Rattle.std.specs.Prelude.{◌≡◌, ◌+◌, ◌≤◌, ◌++◌, IfOk, OnOk, length, map, filter};
ghost use Rattle.xfs_base.specs.Limits.{u32_end};
ghost use Rattle.group_map.specs.Groups.{generation_at, present_members, retired, is_hit, followers, numbered};

use crate::{Group, Member};
use std::alloc::Global;
use xfs_base::{List, Mem};

/// The generation of a server among these; 0 for one that has none.
pub(crate) fn generation_of(generations: &[u32], server: u8) -> u32
    ensures { result ≡ generation_at generations.now server }
{
    match generations.get(usize::from(server).saturating_sub(1)) {
        Some(generation) => *generation,
        None => 0,
    }
}

/// The same servers at these generations.
fn renewed(alloc: Global, members: &[Member], generations: &[u32]) -> Mem<List<Member>>
    ensures { IfOk result (λ renewed. renewed ≡ present_members generations.now members.now) }
{
    let mut renewed = List::new(alloc);
    for member in members {
        renewed.push(Member {
            server: member.server,
            generation: generation_of(generations, member.server),
        })?;
    }
    Ok(renewed)
}

/// Copies of the groups, of which those that have the server are obsolete.
pub(crate) fn retire(alloc: Global, groups: &[Group], server: u8) -> Mem<List<Group>>
    ensures { IfOk result (λ after. after ≡ map (retired server) groups.now) }
{
    let mut after = List::new(alloc);
    for group in groups {
        after.push(Group {
            id: group.id,
            members: group.members.copy(alloc)?,
            parity: group.parity,
            current: group.current && !group.has(server),
        })?;
    }
    Ok(after)
}

/// Appends for each group that the loss of the server ends the group that follows it.
pub(crate) fn follow(
    alloc: Global,
    groups: &[Group],
    generations: &[u32],
    server: u8,
    after: &mut List<Group>,
) -> Mem<()>
    requires { length after.old + length (filter (is_hit server) groups.now) ≤ u32_end }
    ensures { OnOk result (after.new ≡ after.old ++ numbered (length after.old + 1) (followers generations.now server groups.now)) }
{
    for group in groups {
        if group.is_hit(server) {
            let id = after.len() as u32 + 1;
            let members = renewed(alloc, group.members.as_slice(), generations)?;
            after.push(Group {
                id,
                members,
                parity: group.parity,
                current: true,
            })?;
        }
    }
    Ok(())
}
