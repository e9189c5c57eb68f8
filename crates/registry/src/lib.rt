//! The registry of the maps: which manager has each slot and under which epoch, the newest checkpoint of
//! each slot, the stripe groups, and the version that rises with each change (the 1996 paper, "Metadata
//! and Data Distribution"). The laws say that neither a version nor an epoch ever falls, that an epoch of a
//! slot has one manager, and that no kept horizon, incarnation or generation falls; the parts of a
//! checkpoint they leave to who wrote it. This crate knows nothing of packets, and not to whom the maps are
//! sent.
#![tactic(auto)]

pub mod board;
pub mod checkpoint;
pub mod input;
pub mod laws;
pub mod output;
pub mod slots;

pub use board::Board;
pub use checkpoint::Checkpoint;
pub use input::In;
pub use output::Out;
