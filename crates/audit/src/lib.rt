//! Judging journals: lines of acts, as a run writes them, are read and judged by what is legal. This crate
//! knows nothing of nodes or packets: it judges any journal.
#![tactic(auto)]

mod act;
pub mod journal;
mod part;
pub mod shape;

pub use journal::audit;
