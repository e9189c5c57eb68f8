//! What the nodes did, as a list of acts, and when such a list is legal. The definitions speak of the
//! versions of each block alone: this crate knows nothing of modes, stamps, logs or packets. The works of
//! a script stand here too, since acts answer them.
#![tactic(auto)]

pub mod act;
pub mod answer;
pub mod file_call;
mod histories;
pub mod history;
mod judge;
pub mod verdict;
pub mod work;

pub use act::{Act, Fall};
pub use answer::{Answer, FileFault};
pub use file_call::FileCall;
pub use history::{BlockHistory, FallTold, Version};
pub use judge::legal;
pub use verdict::Verdict;
pub use work::Work;
