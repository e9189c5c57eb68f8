//! The reading of one segment: the rule by which a reader asks in rounds until the segment is read or
//! lost, and what it looks for. This crate knows nothing of how a text is cut and joined, nor of packets,
//! and decides nothing of logs.
#![tactic(auto)]

pub mod group;
pub mod laws;
pub mod reading;
pub mod target;
mod threads;

pub use group::known_group;
pub use reading::{Next, Reading, Stage};
pub use target::{BlockAt, Target};
