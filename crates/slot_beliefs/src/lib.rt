//! What a slot of the manager map keeps, by itself: who may hold which block, who is asked to give it up for a
//! want that waits, and where it lies, with the live blocks of each segment. This crate knows nothing of what a
//! slot takes or sends, nor of when a want waits or is answered.
#![tactic(auto)]

pub mod beliefs;
pub mod index;
pub mod job;
pub mod recalls;

pub use index::BlockIndex;
pub use job::{Awaited, Holder, Job, Wanted};
