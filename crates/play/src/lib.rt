//! The play of a script on one thread: a function of the script. Each item is begun at its line, and the
//! schedule says what happens after it.
#![tactic(auto)]

mod one_thread;
mod player;
mod playing;

pub use one_thread::play;
pub use player::{Player, answers_since, send_since};
pub use playing::{Playing, play_lines};
