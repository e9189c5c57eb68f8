//! How many live blocks each segment has, which is what the choice of a segment to clean rests on. This
//! crate knows nothing of where blocks lie: it is told of each block that leaves a segment for another.
#![tactic(auto)]

pub mod laws;
pub mod usage;

pub use laws::counts_from_scratch;
pub use usage::Usage;
