//! The checkpoint of a slot's index (the 1996 paper, "Recovery and Reconfiguration"): which pages are
//! written, in which segments, and what is told when they are settled. This crate knows nothing of how
//! segments are stored, or of the slots whose pages it is handed.
#![tactic(auto)]

pub mod input;
pub mod laws;
pub mod output;
pub mod plan;
pub mod work;
pub mod writer;

pub use input::In;
pub use output::Out;
pub use plan::{Plan, plan_of};
pub use work::Work;
pub use writer::Writer;
