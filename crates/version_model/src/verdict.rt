//! What is said of a list of acts.
use xfs_base::Crosses;

/// Whether a list of acts is legal.
#[derive(Clone, Copy, PartialEq, Eq)]
pub enum Verdict {
    /// It is, and has so many acts.
    Legal(u64),
    /// The first act that is not legal, counted from 1.
    Illegal(u64),
}

impl Crosses for Verdict {}
