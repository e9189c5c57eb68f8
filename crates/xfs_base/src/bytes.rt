//! Bytes that are shared and not copied.
ghost use Rattle.std.specs.Prelude.{◌≡◌, length, IfOk, IsTrue, ◌↔◌};

use crate::{Copied, List, Mem};
use std::alloc::Global;
use std::marker::Model;
use std::sync::ArcSlice;

/// Bytes that never change. Contracts see the list of them. A copy shares them, so that a run may keep
/// each packet that was sent at the cost of one.
pub struct Bytes {
    shared: ArcSlice<u8, Global>,
}

impl Drop for Bytes {
    fn drop(self) {
        let Bytes { shared } = self;
        drop(shared);
    }
}

impl Model for Bytes {
    ghost use Rattle.std.specs.Prelude.{List, ℕ};

    ghost Value = { List ℕ };

    ghost view = { λ b. b.shared.items.value.items };
}

impl Bytes {
    /// The bytes of a slice; they are copied once.
    pub fn of(alloc: Global, bytes: &[u8]) -> Mem<Bytes>
        ensures { IfOk result (λ made. made ≡ bytes.now) }
    {
        Ok(Bytes {
            shared: ArcSlice::from_slice(alloc, bytes)?,
        })
    }

    /// The bytes of a list, which are not copied.
    pub fn from_list(list: List<u8>) -> Mem<Bytes>
        ensures { IfOk result (λ made. made ≡ list) }
    {
        Ok(Bytes {
            shared: ArcSlice::from_vec(list.into_vec())?,
        })
    }

    /// The bytes.
    pub fn as_slice(&self) -> &[u8]
        ensures { result.now ≡ self.now }
    {
        self.shared.as_slice()
    }

    /// How many there are.
    pub fn len(&self) -> usize
        ensures { result ≡ length self.now }
    {
        self.shared.len()
    }

    /// Whether there is none.
    pub fn is_empty(&self) -> bool
        ensures { IsTrue result ↔ (length self.now ≡ 0) }
    {
        self.shared.len() == 0
    }

    /// Whether both have the same bytes.
    pub fn equals(&self, other: &Bytes) -> bool
        ensures { IsTrue result ↔ (self.now ≡ other.now) }
    {
        self.as_slice() == other.as_slice()
    }

    /// The same bytes, shared.
    pub fn copy(&self, _alloc: Global) -> Mem<Bytes>
        ensures { IfOk result (λ copied. copied ≡ self.now) }
    {
        Ok(Bytes {
            shared: self.shared.clone()?,
        })
    }
}

impl Copied for Bytes {
    fn copied(&self, alloc: Global) -> Mem<Bytes> {
        self.copy(alloc)
    }
}
