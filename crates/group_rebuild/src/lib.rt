//! The rebuild of a server whose disk was lost: each fragment that the other servers' lists show to be
//! missing is made anew from the others of its stripe. This crate knows nothing of shelves or packets: it is
//! told what the servers list and answer, and says what to ask and what to fill in.
#![tactic(auto)]

pub mod input;
pub mod laws;
pub mod output;
mod reads;
pub mod rebuild;
mod wanted;

pub use input::In;
pub use laws::{each_name_is_counted, fills_are_cut};
pub use output::Out;
pub use rebuild::Rebuild;
