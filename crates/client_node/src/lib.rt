//! The client: a node that caches blocks, reads and writes them under the tokens of managers, and appends
//! what it changed to a log of its own (the 1996 paper, "Cache Consistency" and "Writes"). It serves, opens
//! its log again after a restart, or is down.
#![tactic(auto)]

mod beginning;
pub mod client;
mod crash;
pub mod phase;
mod returning;
mod room;
mod serving;

pub use client::Client;
pub use phase::Phase;
