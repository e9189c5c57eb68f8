//! What the parts of the cleaner do by themselves: its job, the segment that the job has in hand, its log at the
//! start of a run, and what outlives a crash. The cleaner is composed of them. They know nothing of the packets
//! that come, nor of the cleaner's phases.
#![tactic(auto)]

pub mod hand;
pub mod job;
pub mod lasting;
pub mod starting;
pub mod stores;

pub use job::Job;
pub use lasting::Lasting;
