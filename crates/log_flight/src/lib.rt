//! What a log in flight is made of (the 1996 paper, "Writes"): the blocks that wait, in the order of the
//! first change, the items that are written of them, which items a segment may have, and a segment that is
//! not settled, with its fragments over a group and the fate that is due of it. This crate knows nothing
//! of the log that they are parts of: not of its end, nor of when a segment begins.
#![tactic(auto)]

pub mod dirty;
pub mod flight;
mod fragments;
pub mod items;
pub mod starting;
pub mod texts;

pub use dirty::{Change, Dirty};
pub use flight::{Fate, Flight};
