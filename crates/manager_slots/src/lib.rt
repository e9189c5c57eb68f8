//! What the parts of a manager do by themselves: what outlives a crash, and its slots, of each of which it has
//! the tokens and the index, takes it over, or knows its epoch alone. A manager is composed of them. This crate
//! knows nothing of its maps, of its log and of its checkpoints.
#![tactic(auto)]

pub mod lasting;
pub mod slot_phase;
pub mod slot_table;
pub mod slot_takeovers;
mod takeovers;
mod tokens;

pub use lasting::Lasting;
pub use slot_phase::SlotPhase;
pub use slot_table::SlotTable;
pub use slot_takeovers::Ears;
