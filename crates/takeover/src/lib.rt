//! Taking a slot over (the 1996 paper, "Recovery and Reconfiguration"): its new manager polls the clients and the
//! cleaner, reads the slot's newest checkpoint and the logs behind it, and hands out the index that is the
//! join of all that they tell of the slot's blocks. This crate knows nothing of packets: it is told what
//! the nodes report and the servers answer, and says what to ask.
#![tactic(auto)]

pub mod input;
pub mod laws;
pub mod output;
mod reads;
mod report;
mod rows;
mod source;
pub mod take;

pub use input::In;
pub use laws::{index_is_the_join, nothing_comes_after_the_end};
pub use output::Out;
pub use take::Take;
