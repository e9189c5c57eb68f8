//! A client that serves: it keeps its tokens, its log, the feed of its deltas, its cache and the call that is
//! open, and what of it outlives a crash; each packet and each tick is a short composition of what these parts
//! do. What its calls do is of `client_running`, and how it begins to serve and what it may lose of
//! `client_node`.
#![tactic(auto)]

mod flights;
mod follow;
mod grants;
pub mod lasting;
pub mod laws;
mod promises;
mod reads;
mod sends;
pub mod serving;

pub use lasting::Lasting;
pub use serving::Serving;
