//! Calls on files and directories as plans over calls on blocks: what a call does next, from the answers
//! that its calls on blocks had, and the law of the file tree that a table of blocks holds. This crate
//! knows nothing of tokens, logs or packets.
#![tactic(auto)]

mod answered;
pub mod block_call;
pub mod bucket;
mod bytes;
mod content;
mod entry;
mod gather;
pub mod laws;
pub mod name;
pub mod node;
pub mod places;
pub mod planning;
mod rows;
pub mod size;
pub mod state;
mod walk;

pub use block_call::{BlockAnswer, BlockCall, Next};
pub use name::Name;
pub use node::{Kind, Node};
pub use planning::{FilePlan, plan};
pub use state::{Job, PlanState, Task};
