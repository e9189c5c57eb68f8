//! Stripes: a segment's text cut into fragments with parity, the text got back from any of them that
//! suffice, and one round of asking servers for them. This crate knows nothing of packets, nor of when a
//! segment is lost.
#![tactic(auto)]

mod cutting;
mod joining;
pub mod laws;
pub mod round;
mod threads;

pub use cutting::cut;
pub use joining::{JoinError, join};
pub use round::{Answer, Round, RoundState, Told};
