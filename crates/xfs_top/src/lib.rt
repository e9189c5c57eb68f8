//! The program at the nodes of xFS, and the outside that it is handed. `xfs` does all that the program
//! does; `solo` is the same for all words that start no thread.
#![tactic(auto)]

pub mod calls;
pub mod host;

pub use calls::{ended, solo, xfs};
pub use core_world::AnyNode;
pub use host::{StdSink, StdSource};
pub use top_call::{MemSink, MemSource, Outcome, Reply, Sink, Source};
pub use world_base::{Estate, Event, World};
pub use xfs_base::{Failed, Gate, OpenGate};
