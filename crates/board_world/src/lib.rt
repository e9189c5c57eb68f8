//! The world of the three boards that stand in the registry's place: each board with the registry to which it applies
//! what it holds for done, what they said to each other, which commands are chosen, and what one event makes of all of
//! it. An event of the boards stands for events of the nodes: those of the registry by the commands that became chosen
//! at it. This crate knows nothing of how other nodes take an event, nor in which order things happen.
#![tactic(auto)]

pub mod board_event;
pub mod board_node;
pub mod boards;
mod choosing;
mod projecting;
pub mod replica;

pub use board_event::BoardEvent;
pub use board_node::BoardNode;
pub use boards::Boards;
pub use replica::Replica;
