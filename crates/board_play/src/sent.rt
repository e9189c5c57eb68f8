//! What is on its way.
ghost use Rattle.std.specs.Prelude.{◌≡◌, ◌++◌, OnOk};
ghost use Rattle.board_play.specs.Plays.{send_by, send_far};

use board_world::BoardEvent;
use xfs_base::{List, Mem};

/// Who sent a packet.
#[derive(Clone, Copy, PartialEq, Eq)]
pub enum Sender {
    /// A node.
    Nodes,
    /// The registry of a board.
    Registries,
    /// A board, to another.
    Boards,
}

/// A packet, by its place among all that were sent by such a sender.
#[derive(Clone, Copy, PartialEq, Eq)]
pub struct Sent {
    /// Who sent it.
    pub sender: Sender,
    /// Its place, from 0.
    pub place: usize,
}

/// Puts what a sender sent since it had sent so much behind all that was sent.
pub(crate) fn send_by(sent: &mut List<Sent>, sender: Sender, before: usize, now: usize) -> Mem<()>
    ensures { OnOk result (sent.new ≡ sent.old ++ send_by sender before now) }
{
    for place in before..now {
        sent.push(Sent { sender, place })?;
    }
    Ok(())
}

/// Puts what nodes sent behind all that was sent, where the event happened to one of them.
pub(crate) fn send_far(
    sent: &mut List<Sent>,
    event: &BoardEvent,
    before: usize,
    now: usize,
) -> Mem<()>
    ensures { OnOk result (sent.new ≡ sent.old ++ send_far event.now before now) }
{
    match event {
        BoardEvent::Far(_) => send_by(sent, Sender::Nodes, before, now),
        _ => Ok(()),
    }
}
