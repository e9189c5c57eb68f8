//! Why a shelf does not keep a fragment, or does not have one.
use thiserror::Error;
use xfs_base::{Crosses, Pass};

/// Why a fragment is not kept.
#[derive(Debug, Drop, Error)]
pub enum StoreError {
    /// It is meant for another generation of the shelf than this one, which is the present.
    #[error("the shelf is of generation {0}")]
    WrongGeneration(u32),
    /// Its name was deleted.
    #[error("the name was deleted")]
    Marked,
    /// Its pass is below this one, for which its log was fenced.
    #[error("the log is fenced at ({0:?})")]
    Fenced(Pass),
    /// Want of memory.
    #[error("out of memory")]
    Memory,
}

/// No fragment of the name is held.
#[derive(Clone, Copy, PartialEq, Eq)]
pub struct Missing;

impl Crosses for StoreError {}

impl Crosses for Missing {}
