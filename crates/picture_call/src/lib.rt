//! What `xfs_picture` answers: its words, the script that it reads, and the picture of its run. It plays the script by
//! the call by which `xfs` does.
#![tactic(auto)]

pub mod aside;
pub mod asked;
pub mod call;

pub use asked::Asked;
pub use call::picture;
