//! The sums over the fragments of a stripe: the parity of its pieces, and the pieces that are missing got back from the parity. This crate knows nothing of
//! texts, nor of how many members a stripe has.
#![tactic(auto)]

mod recovery;
mod sums;

pub use recovery::{missing, recovered};
pub use sums::with_parity;
