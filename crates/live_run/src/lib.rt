//! Runs by worker threads: each worker goes round over all nodes and lets one at a time have a turn, under
//! that node's lock; at the end one thread has them all, takes the turns that are missing, and merges what
//! happened to one run.
#![tactic(auto)]

pub mod cells;
pub mod running;
pub mod workers;

pub use cells::{first_cells, left_at, seats_of, turned_round};
pub use running::{LAST, all_done, all_waited, apart, live, merged, one_round};
pub use workers::{MORE, PATIENCE, QUIET, Round, Seat, Visited, Watch, go_own, go_round};
