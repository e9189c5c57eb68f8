//! The text of each run is its own witness: what `audit` says of it is that it is legal (`audit_law`), where the numbers and the bytes of its acts are in the ranges
//! of their types, as those of each run are that a program holds (`ranges`). It has no code of the product: its functions do nothing when they run, but for a loop
//! over the acts, and their contracts are laws.
//!
//! What is said of a run stands in the crate `headline` (`specs/Audits.antt` there).
#![tactic(auto)]

pub mod audit_law;
pub mod ranges;
