//! The tokens of one slot of the manager map: who may cache or write each block, and where each block lies
//! (the 1996 paper, "Cache Consistency"). A slot takes wants, answers to recalls, deltas of the logs and
//! questions of the cleaner, and gives what its manager sends. This crate knows nothing of packets, of
//! epochs that change, or of how a slot came to its state.
#![tactic(auto)]

pub mod input;
pub mod laws;
pub mod output;
pub mod recalls;
pub mod slot;

pub use input::In;
pub use output::Out;
pub use slot::Slot;
