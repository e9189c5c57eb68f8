//! The feed of a log's deltas: the owner of a log keeps what each settled segment says of blocks, and
//! tells each slot's manager the ranges of segments that it has not acknowledged. The laws say that a
//! range tells just what the filed segments in it say of the slot's blocks. This crate knows nothing of
//! packets, stripes or managers.
#![tactic(auto)]

pub mod feed;
pub mod input;
pub mod laws;
pub mod output;

pub use feed::{Feed, FiledDeltas};
pub use input::In;
pub use output::Out;
