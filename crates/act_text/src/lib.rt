//! Acts and answers as text: the lines of a journal, and what stands behind the number of a line in the
//! text of a run. This crate knows nothing of nodes or packets.
#![tactic(auto)]

pub mod act_line;
pub mod answer;
pub mod piece;

pub use act_line::{add_act, add_acts};
pub use answer::add_answer;
