//! The manager map: which manager each slot has, and under which epoch. Eight slots share out the index
//! numbers of all files; this crate knows nothing of how a map is given out.
#![tactic(auto)]

pub mod entry;
pub mod laws;
pub mod slots;

pub use entry::SlotEntry;
pub use laws::epochs_never_fall;
pub use slots::{BadSlot, ManagerMap};
