//! A sink that keeps what is written.
ghost use Rattle.std.specs.Prelude.{◌≡◌, ◌<◌, [], Some, IfOk, length};
ghost use Rattle.std.specs.Io.{WritesAtMost};
ghost use Rattle.std.specs.Io.KnownBytes.{WriteAppends};
ghost use Rattle.xfs_base.specs.Causes.{CountsFaults, Rose};

use std::alloc::Global;
use top_call::Sink;
use xfs_base::{Failed, Text};

/// A sink that keeps what is written: a write fails only for want of memory.
pub struct Aside {
    /// What was written.
    pub text: Text,
    /// How often memory was wanting.
    pub faults: u64,
}

impl Drop for Aside {
    fn drop(self) {
        let Aside { text, faults: _ } = self;
        drop(text);
    }
}

impl Aside {
    /// A sink that has nothing yet. It takes no memory.
    pub fn new(alloc: Global) -> Aside
        ensures { result ≡ record { text = []; faults = 0 } }
    {
        Aside {
            text: Text::new(alloc),
            faults: 0,
        }
    }
}

impl Sink for Aside {
    ghost use Rattle.std.specs.Prelude.{Some};

    ghost written = { λ s. Some s.text };

    ghost faults = { λ s. s.faults };

    fn write(&mut self, piece: &[u8]) -> Result<usize, Failed>
        ensures bound { WritesAtMost result piece.now }
        ensures bytes { WriteAppends (Some self.old.text) (Some self.new.text) result piece.now }
        ensures cause { CountsFaults self.old.faults self.new.faults result }
        ensures nothing { IfOk result (λ n. n ≡ 0 → 0 < length piece.now → Rose self.old.faults self.new.faults) }
    {
        match self.text.add(piece) {
            Ok(()) => Ok(piece.len()),
            Err(_) => {
                self.faults = self.faults.saturating_add(1);
                Err(Failed)
            }
        }
    }
}
