//! The texts of what a run leaves: a line for each item with its answer, the acts where they are asked
//! for, and counts. `docs/LANGUAGE.md` describes the answers and `docs/FORMATS.md` the lines of acts.
#![tactic(auto)]

pub mod counts;
pub mod falls;
pub mod numbers;
pub mod replies;
pub mod transcript;

pub use counts::brief;
pub use replies::open_items;
pub use transcript::text;
