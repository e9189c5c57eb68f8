//! The ties of nodes to the small worlds of one slot: what an event makes of a node is a run of the small world of the slot's tokens, and of that of its index;
//! and facts of a client by itself. It has no code of the product: its functions call the laws that they stand on, and their contracts are laws.
//!
//! Each module is a tie or a law of its own: its definitions stand in `specs/`, its lemmas in `proofs/`, below the module's name.
#![tactic(auto)]

pub mod client_law;
pub mod node_index_tie;
pub mod node_tie;
pub mod owner_index_tie;
