//! Which clean block leaves a client's cache (the 1996 paper, "Cache Consistency": a client supplies to
//! others the blocks that it caches). The machine keeps the exact order of the last uses of the clean
//! blocks; where they are more than the cache may hold, the least recently used is the victim. It knows
//! nothing of values, modes or packets.
#![tactic(auto)]

pub mod cache;
pub mod input;
pub mod laws;
pub mod output;

pub use cache::Cache;
pub use input::In;
pub use output::Out;
