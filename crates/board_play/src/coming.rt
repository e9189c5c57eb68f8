//! By which event something happens to a node or to a board.
ghost use Rattle.std.specs.Prelude.{◌≡◌, IfOk, slice_get};
ghost use Rattle.board_world.specs.BoardRuns.{Together};
ghost use Rattle.board_play.specs.Plays.{board_event, coming, delivery, event_at, least_up, mailing, offer_to};

use crate::sent::{Sender, Sent};
use board::BoardPacket;
use board_world::{BoardEvent, Boards};
use std::alloc::Global;
use version_model::Work;
use wire_msg::{Do, SharedPacket};
use world_base::{Event, World};
use xfs_base::{List, Mem, NodeId};

/// The least board that is up.
pub(crate) fn least_up(boards: &Boards) -> Option<u8>
    ensures { result ≡ least_up boards.now }
{
    if boards.is_up(1) {
        return Some(1);
    }
    if boards.is_up(2) {
        return Some(2);
    }
    if boards.is_up(3) {
        return Some(3);
    }
    None
}

/// What happens to the registry is offered to a board; where there is none it is dropped.
pub(crate) fn offer_to(board: Option<u8>, what: Do, item: u32) -> Option<BoardEvent>
    ensures { result ≡ offer_to board what item }
{
    match board {
        None => None,
        Some(board) => Some(BoardEvent::Offer(board, what, item)),
    }
}

/// What happens to a node: to the registry it is offered, at the least board that is up; where none is it is
/// dropped.
pub(crate) fn event_at(boards: &Boards, node: NodeId, what: Do) -> Option<BoardEvent>
    ensures { result ≡ event_at boards.now node what }
{
    if node == NodeId::Registry {
        offer_to(least_up(boards), what, 0)
    } else {
        Some(BoardEvent::Far(Event::of(node, what)))
    }
}

/// The packet at a place comes to the node that it is for.
fn delivery(
    alloc: Global,
    boards: &Boards,
    sent: &List<SharedPacket>,
    place: usize,
) -> Mem<Option<BoardEvent>>
    ensures { IfOk result (λ event. event ≡ delivery boards.now (slice_get sent.now place)) }
{
    match sent.get(place) {
        None => Ok(None),
        Some(packet) => {
            let to = packet.as_packet().to;
            let packet = packet.copy(alloc)?;
            Ok(event_at(boards, to, Do::Deliver(packet)))
        }
    }
}

/// The packet at a place comes to a board.
fn mailing(alloc: Global, mail: &List<BoardPacket>, place: usize) -> Mem<Option<BoardEvent>>
    ensures { IfOk result (λ event. event ≡ mailing (slice_get mail.now place)) }
{
    match mail.get(place) {
        None => Ok(None),
        Some(packet) => Ok(Some(BoardEvent::Mail(packet.copy(alloc)?))),
    }
}

/// What was sent comes.
pub(crate) fn coming<N>(
    alloc: Global,
    boards: &Boards,
    world: &World<N>,
    sent: Sent,
) -> Mem<Option<BoardEvent>>
    ensures { IfOk result (λ event. event ≡ coming (record { boards = boards.now; world = world.now }) sent.sender sent.place) }
{
    match sent.sender {
        Sender::Nodes => delivery(alloc, boards, &world.sent, sent.place),
        Sender::Registries => delivery(alloc, boards, boards.handed(), sent.place),
        Sender::Boards => mailing(alloc, boards.mail(), sent.place),
    }
}

/// What a line asks of a board.
pub(crate) fn board_event(work: &Work) -> Option<BoardEvent>
    ensures { result ≡ board_event work.now }
{
    match work {
        Work::BoardStop(board) => Some(BoardEvent::Stop(*board)),
        Work::BoardStart(board) => Some(BoardEvent::Start(*board)),
        _ => None,
    }
}
