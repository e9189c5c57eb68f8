//! The stripe group map: groups of storage servers by id, current or obsolete, and the generation of each
//! server. A group once made stays as it was, so that what was striped over it can be found for ever; a
//! loss ends the groups that have the server and makes new ones. This crate knows nothing of segments.
#![tactic(auto)]

pub mod error;
pub mod group;
pub mod group_map;
mod groups;
pub mod laws;
mod losing;
mod starting;

pub use error::{GroupError, NoGroup};
pub use group::{Group, Member};
pub use group_map::GroupMap;
