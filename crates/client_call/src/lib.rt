//! A call of a client and its reading: what the call makes on blocks, what each of these does to the tokens and to
//! the cache and says, that a segment can hold what is put, and the reading of a block from a log.
#![tactic(auto)]

pub mod blocks;
pub mod call;
pub mod fitting;
pub mod reads;

pub use call::{Call, Going, Plan};
