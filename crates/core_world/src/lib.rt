//! The world of the nodes of xFS: a node of any of the five kinds, as a member of the world of
//! `world_base`.
#![tactic(auto)]

pub mod any_node;

pub use any_node::AnyNode;
pub use world_base::{Cluster, Event};
