//! The ties of nodes to the small world of one log: what an event makes of a server, of the registry, of a client, of the cleaner or of a manager is a run of
//! the small world of that log. It has no code of the product: its functions call the laws that they stand on, and their contracts are laws.
//!
//! Each module is a tie of its own: its definitions stand in `specs/`, its lemmas in `proofs/`, below the module's name.
#![tactic(auto)]

pub mod cleaner_log_tie;
pub mod client_log_tie;
pub mod manager_log_tie;
pub mod node_log_tie;
pub mod opening_law;
