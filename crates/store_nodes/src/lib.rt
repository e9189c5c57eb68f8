//! The storage server as a node: it keeps fragments, and rebuilds those of a lost disk from the other members of
//! each stripe. This crate knows nothing of scripts or of how packets travel.
#![tactic(auto)]

mod refilling;
pub mod server;
mod shelf_events;

pub use server::Server;
