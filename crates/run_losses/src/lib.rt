//! Only what is gone is refused as lost, in every run of the nodes: each act that a segment is lost is earned (`earned_law`). What reopenings say is lost was
//! torn; so was what takeovers say is lost, or it had been deleted by then; and so was what reads say is lost, while no restart was doubtful; and nothing else
//! says so; where no disk is lost no item is answered so (`unlost_law`). It has no code of the product: its functions call the laws that they stand on, and their contracts are laws.
//!
//! Each module is a law of its own: its definitions stand in `specs/`, its lemmas in `proofs/`, below the module's name.
#![tactic(auto)]

pub mod answer_law;
pub mod earned_law;
pub mod fetched_law;
pub mod fetching_law;
pub mod gone_law;
pub mod keeping_law;
pub mod lost_law;
pub mod missing_law;
pub mod reader_law;
pub mod source_law;
pub mod standing_law;
pub mod taking_law;
pub mod torn_law;
pub mod unlost_law;
pub mod whole_law;
