//! The journals of nodes that run in threads: what happened to each node, with its clock, which of its
//! items have an answer, what each sent and did, and how the journals of all nodes merge to one run, by clock
//! and place, in which no step is taken again. This crate knows nothing of threads, nor of how packets pass
//! between them.
#![tactic(auto)]

pub mod answers;
mod merged;
pub mod merging;
pub mod moment;
pub mod rest;

pub use answers::Answers;
pub use merging::merge;
pub use moment::Moment;
pub use rest::Rest;
