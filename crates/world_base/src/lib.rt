//! The world of all nodes: which nodes a run has, what happens to one of them at a time, what they sent
//! and did, and the schedule by which one thread plays a script. This crate knows nothing of how a node
//! takes an event.
#![tactic(auto)]

pub mod cluster;
pub mod due;
pub mod estate;
pub mod event;
pub mod items;
pub mod member;
pub mod schedule;
pub mod turn;
pub mod world;

pub use cluster::Cluster;
pub use due::{Due, dues_of};
pub use estate::Estate;
pub use event::Event;
pub use items::{actor_of, items_of};
pub use member::Member;
pub use schedule::{Next, Schedule};
pub use world::World;
