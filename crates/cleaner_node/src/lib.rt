//! The cleaner as a node: it empties old segments, whose live blocks it moves to a log of its own. It serves,
//! opens its log again after a restart, or is down. This crate knows nothing of scripts or of how packets travel.
#![tactic(auto)]

pub mod cleaner;

pub use cleaner::Cleaner;
