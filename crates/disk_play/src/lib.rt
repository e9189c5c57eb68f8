//! The play of a script with servers that stop and keep their disk: as `play` plays it, with the shelf of each server on a disk
//! in memory. A server may stop within a change of its shelf; it takes no event until it is started. What happened is one run of
//! the script, and each disk stands for the shelf of its server.
#![tactic(auto)]

pub mod change;
pub mod counting;
pub mod course;
pub mod disk_player;
pub mod playing;
pub mod replay;
pub mod settling;
pub mod stop;
pub mod stopped;
pub mod unstopped;

pub use course::Course;
pub use disk_player::DiskPlayer;
pub use playing::{DiskEstate, disk_play};
pub use stop::Stop;
pub use stopped::stopped_servers_take_no_event;
