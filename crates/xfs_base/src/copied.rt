//! Copies of values that own memory, and of lists of them.
ghost use Rattle.std.specs.Prelude.{◌≡◌, IfOk};

use crate::{List, Mem};
use std::alloc::Global;

/// A value that can be copied, for want of memory apart.
pub trait Copied: Sized + Drop {
    /// A value equal to this one.
    fn copied(&self, alloc: Global) -> Mem<Self>
        ensures { IfOk result (λ copied. copied ≡ self.now) };
}

impl Copied for List<u8> {
    fn copied(&self, alloc: Global) -> Mem<List<u8>> {
        self.copy(alloc)
    }
}

/// A list of values equal to these, in their order.
pub fn copy_each<T: Copied>(alloc: Global, list: &List<T>) -> Mem<List<T>>
    ensures { IfOk result (λ copied. copied ≡ list.now) }
{
    let mut out = List::new(alloc);
    for item in list.as_slice() {
        out.push(item.copied(alloc)?)?;
    }
    Ok(out)
}
