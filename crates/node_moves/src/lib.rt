//! What an event of a node is made of: the few things that a node of a kind does, each with what it does it for, and that each event is a list of these. So a
//! law of a node is shown of each of them, and of every event at once. It has no code of the product: its functions have empty bodies, and their contracts
//! are laws.
#![tactic(auto)]

pub mod cleaner_moves;
pub mod registry_moves;
pub mod server_moves;
