//! A job of the cleaner (the 1996 paper, "The Log Cleaner"): of the segments that each checkpoint covers it
//! takes those with the fewest live blocks, moves their live blocks to its own log, and has the segments
//! deleted. It works without locks: a block is moved at the version that it has, so a client's write wins.
//! This crate knows nothing of packets, and neither reads segments nor writes its log.
#![tactic(auto)]

pub mod checks;
pub mod cleaning;
pub mod counting;
pub mod input;
pub mod job;
pub mod laws;
pub mod listing;
pub mod output;
pub mod phase;
mod promises;

pub use cleaning::Cleaning;
pub use input::In;
pub use laws::{deletes_what_is_emptied, empties_below_the_horizon};
pub use output::Out;
