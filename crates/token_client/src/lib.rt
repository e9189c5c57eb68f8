//! The tokens of a client (the 1996 paper, "Cache Consistency"): what it may do with each block that it
//! caches, what it asked of managers, and what it does on a grant, a supply, a forward, a recall and a
//! poll. This crate knows nothing of packets, logs or caches: what it gives is what the node sends or
//! does next.
#![tactic(auto)]

mod asking;
mod giving;
pub mod held;
pub mod input;
pub mod laws;
mod marks;
pub mod output;
mod readers;
mod settling;
mod table;
pub mod tokens;

pub use held::{Fetch, Giving, Held, Wanted};
pub use input::In;
pub use output::Out;
pub use tokens::Tokens;
