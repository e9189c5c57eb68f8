//! Nodes that may keep a shelf, and which call of a shelf made the one of the other at an event. Whoever keeps a shelf beside
//! the nodes, on a disk, makes that call of it too, and so has the shelf of the node after each event.
#![tactic(auto)]

pub mod any_node;
pub mod asking;
pub mod shelved;

pub use asking::asked;
pub use shelved::Shelved;
