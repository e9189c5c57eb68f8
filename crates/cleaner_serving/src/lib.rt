//! A cleaner that serves: it keeps its log, the feed of its deltas and the job that is under way, and each
//! packet, each tick and each job's begin is a short composition of what these parts do. It knows nothing of
//! crashes, nor of how a log is opened again.
#![tactic(auto)]

mod cleaning;
pub mod emptying;
mod following;
mod reading;

pub use emptying::Emptying;
