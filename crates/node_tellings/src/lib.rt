//! What nodes tell came from where they say: what is told of logs was filed, what is told of where blocks lie filed
//! segments say, what checkpoints name flew, and what readers hold came. It has no code of the product: its functions
//! call the laws that they stand on, and their contracts are laws.
//!
//! Each module is a tie of its own: its definitions stand in `specs/`, its lemmas in `proofs/`, below the module's name.
#![tactic(auto)]

pub mod entry_tie;
pub mod filed_tie;
pub mod part_tie;
pub mod reading_tie;
pub mod reference_tie;
