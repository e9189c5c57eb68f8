//! The registry as a node: it gives out the maps, and changes them when a manager starts again, a server loses
//! its disk, a slot is moved or a checkpoint is written. This crate knows nothing of scripts or of how packets travel.
#![tactic(auto)]

pub mod node;

pub use node::RegistryNode;
