//! Why a call of a shelf on a disk changed nothing, and why a disk could not be opened.
ghost use Rattle.std.specs.Prelude.{◌≡◌};
ghost use Rattle.disk_shelf.specs.declared.disk_error.DiskError.TheVariants.{Memory};

use std::alloc::{AllocError, AllocFailed};
use thiserror::Error;
use xfs_base::{Crosses, Pass};

/// Why a change of a shelf on a disk was not answered. But for `Fault` nothing changed.
#[derive(Debug, Drop, Error)]
pub enum DiskError {
    /// An earlier call since the disk was opened met a fault: it has to be opened again.
    #[error("closed by an earlier fault")]
    Closed,
    /// A fragment is meant for another generation of the shelf than this one, which is the present.
    #[error("the shelf is of generation {0}")]
    WrongGeneration(u32),
    /// Its name was deleted.
    #[error("the name was deleted")]
    Marked,
    /// Its pass is below this one, for which its log was fenced.
    #[error("the log is fenced at ({0:?})")]
    Fenced(Pass),
    /// Want of memory.
    #[error("out of memory")]
    Memory,
    /// The disk failed within the call: the shelf is closed, and the change is on the disk or it isn't.
    #[error("the disk failed")]
    Fault,
}

impl From<AllocError> for DiskError {
    ghost from_gives = { λ _ e. e ≡ Memory };

    fn from(_: AllocError) -> Self {
        DiskError::Memory
    }
}

impl<T: Drop> From<AllocFailed<T>> for DiskError {
    ghost from_gives = { λ _ e. e ≡ Memory };

    fn from(_: AllocFailed<T>) -> Self {
        DiskError::Memory
    }
}

impl Crosses for DiskError {}

/// Why a disk could not be opened. It is given back.
#[derive(Drop)]
pub enum OpenError<D> {
    /// Behind the open gate at this offset there is no record with a gate behind it.
    Damaged(D, u64),
    /// The disk failed.
    Fault(D),
    /// Want of memory.
    Memory(D),
}
