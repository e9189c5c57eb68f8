//! The setup of a run.
ghost use Rattle.std.specs.Prelude.{◌≡◌, IfOk};

use crate::{Copied, List, Mem, copy_each};
use std::alloc::Global;

/// A stripe group (the 1996 paper, "Stripe Groups"): the storage servers over which a segment is striped,
/// and how many fragments of each stripe are parity.
pub struct GroupSetup {
    /// The servers, which differ: 3 to 8 with one parity fragment, 4 to 8 with two.
    pub servers: List<u8>,
    /// The number of parity fragments, 1 or 2: so many lost fragments of a stripe are made good.
    pub parity: u8,
}

impl Drop for GroupSetup {
    fn drop(self) {
        let GroupSetup { servers, parity: _ } = self;
        drop(servers);
    }
}

impl GroupSetup {
    /// A group equal to this one.
    pub fn copy(&self, alloc: Global) -> Mem<GroupSetup>
        ensures { IfOk result (λ copied. copied ≡ self.now) }
    {
        Ok(GroupSetup {
            servers: self.servers.copy(alloc)?,
            parity: self.parity,
        })
    }
}

impl Copied for GroupSetup {
    fn copied(&self, alloc: Global) -> Mem<GroupSetup> {
        self.copy(alloc)
    }
}

/// The nodes of a run and how they are set up. `docs/LANGUAGE.md` has the lines that state it.
pub struct Setup {
    /// How many clients there are, 1 to 8.
    pub clients: u8,
    /// How many managers there are, 1 to 4.
    pub managers: u8,
    /// How many storage servers there are, 3 to 12.
    pub servers: u8,
    /// The stripe groups, one to eight.
    pub groups: List<GroupSetup>,
    /// How many clean blocks a client caches, 1 to 1,024.
    pub cache: u16,
    /// Whether the acts are printed after the answers.
    pub acts: bool,
}

impl Drop for Setup {
    fn drop(self) {
        let Setup {
            clients: _,
            managers: _,
            servers: _,
            groups,
            cache: _,
            acts: _,
        } = self;
        drop(groups);
    }
}

impl Setup {
    /// A setup equal to this one.
    pub fn copy(&self, alloc: Global) -> Mem<Setup>
        ensures { IfOk result (λ copied. copied ≡ self.now) }
    {
        Ok(Setup {
            clients: self.clients,
            managers: self.managers,
            servers: self.servers,
            groups: copy_each(alloc, &self.groups)?,
            cache: self.cache,
            acts: self.acts,
        })
    }
}
