//! The play of a script with three boards in the registry's place, of which any may stop: a function of the
//! script. It goes by the schedule by which `run` plays.
#![tactic(auto)]

mod coming;
mod estate;
mod one_thread;
mod player;
mod sent;

pub use estate::BoardEstate;
pub use one_thread::board_play;
pub use player::Player;
pub use sent::{Sender, Sent};
