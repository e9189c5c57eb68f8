//! What a board takes.
use crate::{BoardPacket, Command};
use xfs_base::Crosses;

/// What happens to a board.
#[derive(Drop)]
pub enum In {
    /// A command is offered to it.
    Offer(Command),
    /// A packet comes.
    Mail(BoardPacket),
    /// Time passes: what waits for an answer is said again.
    Beat,
    /// It is stopped.
    Stop,
    /// It is started.
    Start,
}

impl Crosses for In {}
