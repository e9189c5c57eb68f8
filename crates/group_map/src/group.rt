//! One stripe group.
ghost use Rattle.std.specs.Prelude.{◌≡◌, IfOk};
ghost use Rattle.group_map.specs.Groups.{has_server, is_hit};
ghost use Rattle.group_map.specs.Sizes.{is_group_size};

use std::alloc::Global;
use xfs_base::{Copied, Crosses, List, Mem};

/// A server as a member of a group.
#[derive(Clone, Copy, PartialEq, Eq)]
pub struct Member {
    /// The number of the storage server, from 1.
    pub server: u8,
    /// Its generation when the group was made. A server with a greater one has lost its part of what was
    /// striped over the group.
    pub generation: u32,
}

/// A stripe group: the servers over which segments are striped (the 1996 paper, "The Stripe Group Map"). New
/// segments go to current groups alone; an obsolete one stays, so that old segments can be read.
pub struct Group {
    /// The id, from 1.
    pub id: u32,
    /// The servers, which differ: 3 to 8 where the parity is 1, 4 to 8 where it is 2. Fragment i of a
    /// segment lies at the member at place i.
    pub members: List<Member>,
    /// How many of a segment's fragments are parity, 1 or 2: so many lost fragments are made good.
    pub parity: u8,
    /// Whether new segments go to it.
    pub current: bool,
}

impl Drop for Group {
    fn drop(self) {
        let Group {
            id: _,
            members,
            parity: _,
            current: _,
        } = self;
        drop(members);
    }
}

impl Group {
    /// A group equal to this one.
    pub fn copy(&self, alloc: Global) -> Mem<Group>
        ensures { IfOk result (λ copied. copied ≡ self.now) }
    {
        Ok(Group {
            id: self.id,
            members: self.members.copy(alloc)?,
            parity: self.parity,
            current: self.current,
        })
    }

    /// Whether the server is a member.
    pub fn has(&self, server: u8) -> bool
        ensures { result ≡ has_server server self.now }
    {
        self.members
            .as_slice()
            .iter()
            .any(|member| member.server == server)
    }

    /// Whether a loss of the server ends the group.
    pub(crate) fn is_hit(&self, server: u8) -> bool
        ensures { result ≡ is_hit server self.now }
    {
        self.current && self.has(server)
    }
}

impl Copied for Group {
    fn copied(&self, alloc: Global) -> Mem<Group> {
        self.copy(alloc)
    }
}

impl Crosses for Member {}

impl Crosses for Group {}

/// Whether a group of this parity may have this many servers.
pub(crate) fn is_group_size(parity: u8, size: usize) -> bool
    ensures { result ≡ is_group_size parity size }
{
    usize::from(parity) + 2 <= size && size <= 8
}
