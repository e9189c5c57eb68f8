//! The nodes of a run by worker threads, each with its journal and with the ends of its rings: how a node
//! begins its items, takes a packet from a ring and pushes what it sends, and what is known of all rings once
//! their ends are in one thread again. This crate knows nothing of threads, nor of how journals merge.
#![tactic(auto)]

pub mod answered;
pub mod cell;
pub mod ends;
pub mod journal;
pub mod letter;
pub mod look;
pub mod making;
pub mod name;
pub mod parts;

pub use cell::Cell;
pub use ends::{Ins, Outs};
pub use journal::Journal;
pub use letter::Letter;
pub use look::look_all;
pub use making::links;
pub use name::RunName;
pub use parts::Parts;
