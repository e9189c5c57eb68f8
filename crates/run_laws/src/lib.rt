//! The laws of every run of the nodes: one owner, one manager, logs whole and in line, indexes that are the join, and
//! reads of the newest version. It has no code of the product: its functions call the laws that they stand on, and
//! their contracts are laws.
//!
//! Each module is a tie or a law of its own: its definitions stand in `specs/`, its lemmas in `proofs/`, below the module's name.
#![tactic(auto)]

pub mod epoch_law;
pub mod filed_law;
pub mod index_reads;
pub mod place_law;
pub mod reading_law;
pub mod reopening_law;
pub mod restart_law;
pub mod segment_law;
pub mod segment_tie;
pub mod world_index;
pub mod world_law;
pub mod world_lines;
pub mod world_logs;
pub mod world_reads;
