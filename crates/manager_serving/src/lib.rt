//! A manager that serves: it keeps its maps, its slots, the log of its checkpoints and the checkpoint that is
//! under way, and each packet, each tick and each checkpoint is a short composition of what these parts do.
#![tactic(auto)]

pub mod checkpointing;
mod senders;
pub mod serving;

pub use serving::Serving;
