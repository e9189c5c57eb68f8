//! What boards say to each other.
ghost use Rattle.std.specs.Prelude.{◌≡◌, IfOk};

use crate::Command;
use std::alloc::Global;
use xfs_base::{Copied, Crosses, List, Mem, copy_each};

/// What one board says to another. The network may lose a packet, bring it late, twice or out of order.
#[derive(Drop)]
pub struct BoardPacket {
    /// The number of the board that sent it.
    pub from: u8,
    /// The number of the board for which it is.
    pub to: u8,
    /// What it says.
    pub body: BoardBody,
}

/// What a packet of a board says.
#[derive(Drop)]
pub enum BoardBody {
    /// The owner of a ballot asks for promises of it.
    Prepare(u32),
    /// A board promises a ballot, to its owner; with the ballot and the list that it accepted last.
    Promised(u32, u32, List<Command>),
    /// The leader of a ballot has the others accept its whole list.
    Install(u32, List<Command>),
    /// The leader of a ballot has the others accept one more command; with the length of its list up to it.
    Append(u32, u32, Command),
    /// A board says how much it has accepted of the list of a ballot's leader.
    Accepted(u32, u32),
}

impl BoardBody {
    /// A body equal to this one.
    pub fn copy(&self, alloc: Global) -> Mem<BoardBody>
        ensures { IfOk result (λ copied. copied ≡ self.now) }
    {
        match self {
            BoardBody::Prepare(ballot) => Ok(BoardBody::Prepare(*ballot)),
            BoardBody::Promised(ballot, last, list) => {
                Ok(BoardBody::Promised(*ballot, *last, copy_each(alloc, list)?))
            }
            BoardBody::Install(ballot, list) => {
                Ok(BoardBody::Install(*ballot, copy_each(alloc, list)?))
            }
            BoardBody::Append(ballot, length, command) => {
                Ok(BoardBody::Append(*ballot, *length, command.copy(alloc)?))
            }
            BoardBody::Accepted(ballot, length) => Ok(BoardBody::Accepted(*ballot, *length)),
        }
    }
}

impl BoardPacket {
    /// A packet equal to this one.
    pub fn copy(&self, alloc: Global) -> Mem<BoardPacket>
        ensures { IfOk result (λ copied. copied ≡ self.now) }
    {
        Ok(BoardPacket {
            from: self.from,
            to: self.to,
            body: self.body.copy(alloc)?,
        })
    }
}

impl Copied for BoardPacket {
    fn copied(&self, alloc: Global) -> Mem<BoardPacket> {
        self.copy(alloc)
    }
}

impl Crosses for BoardBody {}

impl Crosses for BoardPacket {}
