//! What a board gives.
use crate::{BoardPacket, Command};
use xfs_base::Crosses;

/// What a board gives, in order.
#[derive(Drop)]
pub enum Out {
    /// A packet goes out.
    Send(BoardPacket),
    /// A command is done: this board's registry takes it next.
    Apply(Command),
}

impl Crosses for Out {}
