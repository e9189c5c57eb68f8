//! What the owner of a log does alike, be it a client or the cleaner: it seals its log, opens it again after a
//! restart, sends what the log and the feed of its deltas have it send, and keeps what it has promised to
//! which manager. An opening is the scan of what the servers hold of the log, then the first segment of
//! the new incarnation, and then the feed behind it; the node hands it each packet and each tick, and is
//! handed the log when it is open.
#![tactic(auto)]

mod ended;
mod events;
pub mod known;
pub mod laws;
pub mod opened;
pub mod opening;
pub mod promised;
pub mod sealing;
pub mod sending;

pub use ended::{Owner, send_fetch};
pub use known::Known;
pub use opened::{Opened, Progress, name_of};
pub use opening::{Opening, log_has_room};
pub use promised::{Managers, Promised};
