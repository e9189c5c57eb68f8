//! What boards agree on.
ghost use Rattle.std.specs.Prelude.{◌≡◌, IfOk, IsTrue};
ghost use Rattle.board.specs.Heard.{is_heard};

use std::alloc::Global;
use wire_msg::Do;
use xfs_base::{Copied, Crosses, Mem};

/// What happens to the registry, as boards agree on it. It is one that changes the registry or has it send: a Begin,
/// a Tick, or the delivery of a Hello or a CkptDone.
pub struct Command {
    /// What happens.
    pub what: Do,
    /// The number of the item that a Begin begins; 0 otherwise.
    pub item: u32,
    ghost heard: { IsTrue (is_heard what) },
}

// It is let go of here once, and not body by body wherever a command is held.
impl Drop for Command {
    fn drop(self) {
        let Command { what, item: _ } = self;
        drop(what);
    }
}

impl Command {
    /// A command equal to this one.
    pub fn copy(&self, alloc: Global) -> Mem<Command>
        ensures { IfOk result (λ copied. copied ≡ self.now) }
    {
        Ok(Command {
            what: self.what.copy(alloc)?,
            item: self.item,
        })
    }
}

impl Copied for Command {
    fn copied(&self, alloc: Global) -> Mem<Command> {
        self.copy(alloc)
    }
}

impl Crosses for Command {}
