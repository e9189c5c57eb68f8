//! What happens at one moment of a run with boards.
ghost use Rattle.std.specs.Prelude.{◌≡◌, IfOk};

use board::BoardPacket;
use std::alloc::Global;
use wire_msg::Do;
use world_base::Event;
use xfs_base::{Copied, Crosses, Mem};

/// What happens to a node or to a board. Boards have the numbers 1, 2 and 3.
pub enum BoardEvent {
    /// Something happens to a node, far from the boards.
    Far(Event),
    /// A board is offered what is to happen to the registry; with the number of the item that a Begin begins, and
    /// else 0.
    Offer(u8, Do, u32),
    /// A packet of one board comes to another.
    Mail(BoardPacket),
    /// Time passes at a board.
    Beat(u8),
    /// A board stops: it keeps what it has, and takes nothing until its start.
    Stop(u8),
    /// A board starts.
    Start(u8),
}

// It is let go of here once, and not variant by variant wherever an event is held.
impl Drop for BoardEvent {
    fn drop(self) {
        match self {
            BoardEvent::Far(event) => drop(event),
            BoardEvent::Offer(_, what, _) => drop(what),
            BoardEvent::Mail(packet) => drop(packet),
            BoardEvent::Beat(_) => {}
            BoardEvent::Stop(_) => {}
            BoardEvent::Start(_) => {}
        }
    }
}

impl BoardEvent {
    /// An event equal to this one.
    pub fn copy(&self, alloc: Global) -> Mem<BoardEvent>
        ensures { IfOk result (λ copied. copied ≡ self.now) }
    {
        match self {
            BoardEvent::Far(event) => Ok(BoardEvent::Far(event.copy(alloc)?)),
            BoardEvent::Offer(number, what, item) => {
                Ok(BoardEvent::Offer(*number, what.copy(alloc)?, *item))
            }
            BoardEvent::Mail(packet) => Ok(BoardEvent::Mail(packet.copy(alloc)?)),
            BoardEvent::Beat(number) => Ok(BoardEvent::Beat(*number)),
            BoardEvent::Stop(number) => Ok(BoardEvent::Stop(*number)),
            BoardEvent::Start(number) => Ok(BoardEvent::Start(*number)),
        }
    }
}

impl Copied for BoardEvent {
    fn copied(&self, alloc: Global) -> Mem<BoardEvent> {
        self.copy(alloc)
    }
}

impl Crosses for BoardEvent {}
