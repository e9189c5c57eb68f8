//! The calls of a client that serves: how one begins, its calls on blocks one after the other, and how it is answered
//! (the 1996 paper, "Reads and Caching" and "Writes").
#![tactic(auto)]

mod beginning;
mod blocks;
mod running;

pub use beginning::open;
pub use running::run;
