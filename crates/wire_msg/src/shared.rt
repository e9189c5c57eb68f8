//! A part of a packet that is shared and not copied.
ghost use Rattle.std.specs.Prelude.{◌≡◌, IfOk};

use std::alloc::Global;
use std::marker::Model;
use std::ops::Deref;
use std::sync::Arc;
use xfs_base::{Copied, Crosses, Mem};

/// A part of a packet that never changes, and stands apart from it: so a packet is not as large as its largest
/// part could be. Contracts see the part that it is; a copy of it takes no memory.
pub struct Shared<T> {
    shared: Arc<T, Global>,
}

impl<T: Drop> Drop for Shared<T> {
    fn drop(self) {
        let Shared { shared } = self;
        drop(shared);
    }
}

impl<T> Model for Shared<T> {
    ghost Value = { T };

    ghost view = { λ s. s.shared.value };
}

impl<T: Drop> Shared<T> {
    /// This part, shared from now on.
    pub fn of(alloc: Global, part: T) -> Mem<Shared<T>>
        ensures { IfOk result (λ made. made ≡ part) }
    {
        Ok(Shared {
            shared: Arc::new(alloc, part)?,
        })
    }

    /// The same part.
    pub fn copy(&self, _alloc: Global) -> Mem<Shared<T>>
        ensures { IfOk result (λ copied. copied ≡ self.now) }
    {
        Ok(Shared {
            shared: self.shared.clone()?,
        })
    }
}

impl<T> Deref for Shared<T> {
    type Target = T;

    ghost deref_gives = { λ s part. part ≡ s };

    fn deref(&self) -> &T {
        &self.shared
    }
}

impl<T: Drop> Copied for Shared<T> {
    fn copied(&self, alloc: Global) -> Mem<Shared<T>> {
        self.copy(alloc)
    }
}

impl<T: Crosses> Crosses for Shared<T> {}
