//! A script: its setup and its items.
ghost use Rattle.std.specs.Prelude.{◌≡◌, IfOk};

use std::alloc::Global;
use version_model::Work;
use xfs_base::{Copied, Crosses, List, Mem, Setup, copy_each};

/// One item of a script.
pub struct Line {
    /// The number of its line in the input, from 1.
    pub number: u32,
    /// In a run with threads the item is not begun before its node has made so many events.
    pub after: u32,
    /// What it asks for.
    pub work: Work,
}

impl Drop for Line {
    fn drop(self) {
        let Line {
            number: _,
            after: _,
            work,
        } = self;
        drop(work);
    }
}

/// What a run is of.
pub struct Script {
    /// The nodes.
    pub setup: Setup,
    /// The items, by line number.
    pub lines: List<Line>,
}

impl Drop for Script {
    fn drop(self) {
        let Script { setup, lines } = self;
        drop(setup);
        drop(lines);
    }
}

impl Line {
    /// An item equal to this one.
    pub fn copy(&self, alloc: Global) -> Mem<Line>
        ensures { IfOk result (λ copied. copied ≡ self.now) }
    {
        Ok(Line {
            number: self.number,
            after: self.after,
            work: self.work.copy(alloc)?,
        })
    }
}

impl Copied for Line {
    fn copied(&self, alloc: Global) -> Mem<Line> {
        self.copy(alloc)
    }
}

impl Script {
    /// A script equal to this one.
    pub fn copy(&self, alloc: Global) -> Mem<Script>
        ensures { IfOk result (λ copied. copied ≡ self.now) }
    {
        Ok(Script {
            setup: self.setup.copy(alloc)?,
            lines: copy_each(alloc, &self.lines)?,
        })
    }
}

impl Crosses for Line {}

impl Crosses for Script {}
