//! What is done by a node that serves, and what an event makes of the items of its node: the few things that a client does for what comes, for time and for a
//! call on blocks, and that a node of any kind does with its items, and that all it does is a list of these. So a law of such a client, or of items and their
//! answers, is shown of each of them, and of every event at once. It has no code of the product: its functions have empty bodies, and their contracts are laws.
#![tactic(auto)]

pub mod call_moves;
pub mod item_moves;
