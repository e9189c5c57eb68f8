//! What all kinds of node do alike: which packets they look at, how they take the maps, how they number
//! their questions, how they begin and answer the items of their lists, and what an event has them send
//! and act. This crate knows nothing of what a node does with a packet.
#![tactic(auto)]

pub mod counters;
pub mod effects;
pub mod items;
mod known;
pub mod maps;
pub mod peers;
pub mod questions;
pub mod setups;
mod shape;

pub use counters::{has_long_room, has_room};
pub use effects::Effects;
pub use items::Items;
pub use known::names_known_groups;
pub use maps::Maps;
pub use peers::{Peers, server_in};
pub use questions::{Asked, Questions};
pub use setups::{groups_of, is_setup};
pub use shape::is_well_formed;
