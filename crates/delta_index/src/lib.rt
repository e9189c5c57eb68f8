//! The index of deltas: of each block the entry of greatest version and hop, whatever the order in which
//! the entries came. The laws say that an index is the join of all that was ever merged into it. This
//! crate knows nothing of logs or managers.
#![tactic(auto)]

pub mod index;
pub mod laws;

pub use index::DeltaIndex;
