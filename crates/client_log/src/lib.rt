//! A log in flight (the 1996 paper, "Writes"): its owner puts versions of blocks, the log seals them into
//! segments, one at a time, stripes each over a group, and settles it once its fragments are held. A
//! client writes its log so, the cleaner its own, a manager its checkpoints; the opening segment of a log
//! that was reopened is one too. This crate knows nothing of packets, tokens or managers' tables.
#![tactic(auto)]

pub mod input;
pub mod laws;
pub mod log;
pub mod output;
mod sending;
mod steps;

pub use input::In;
pub use log::Log;
pub use log_flight::Change;
pub use output::Out;
