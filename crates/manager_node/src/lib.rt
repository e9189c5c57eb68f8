//! The manager as a node: for each of its slots it says who may cache or write which block and where each
//! block lies, takes a slot over from another manager, and writes checkpoints of its slots to a log of its
//! own. This crate knows nothing of scripts or of how packets travel.
#![tactic(auto)]

mod actor;
mod beginning;
pub mod manager;
mod phase;

pub use manager::Manager;
