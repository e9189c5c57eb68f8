//! What a storage server keeps of a segment.
ghost use Rattle.std.specs.Prelude.{◌≡◌, IfOk};

use crate::{Bytes, Copied, Mem, Prior, SegName};
use std::alloc::Global;

/// What is said of a fragment: of which segment, over which group, and which part.
#[derive(Clone, Copy, PartialEq, Eq)]
pub struct FragMeta {
    /// The segment.
    pub name: SegName,
    /// The id of its stripe group.
    pub group: u32,
    /// The segment before it in its log.
    pub prior: Prior,
    /// The number of the fragment in the stripe, from 0; the parity stands last.
    pub index: u8,
    /// The length of the whole segment, in bytes.
    pub len: u32,
}

/// One part of a segment's stripe (the 1996 paper, "RAID").
pub struct Fragment {
    /// What it is a part of.
    pub meta: FragMeta,
    /// Its bytes.
    pub bytes: Bytes,
}

impl Drop for Fragment {
    fn drop(self) {
        let Fragment { meta: _, bytes } = self;
        drop(bytes);
    }
}

impl Fragment {
    /// A fragment equal to this one, which shares its bytes.
    pub fn copy(&self, alloc: Global) -> Mem<Fragment>
        ensures { IfOk result (λ copied. copied ≡ self.now) }
    {
        Ok(Fragment {
            meta: self.meta,
            bytes: self.bytes.copy(alloc)?,
        })
    }
}

impl Copied for Fragment {
    fn copied(&self, alloc: Global) -> Mem<Fragment> {
        self.copy(alloc)
    }
}
