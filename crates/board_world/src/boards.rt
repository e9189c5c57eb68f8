//! The three boards.
ghost use Rattle.std.specs.Prelude.{◌≡◌, ◌<◌, ◌∷◌, ◌++◌, [], length, IfOk, OnOk};
ghost use Rattle.node_base.specs.Setups.{IsSetup};
ghost use Rattle.board_world.specs.NextBoards.{boards_start, is_up, boards_turn, boards_happen, command_at, boards_offer, boards_take};

use crate::choosing::{beyond, choose};
use crate::projecting::project_all;
use crate::{BoardEvent, BoardNode};
use board::{BoardPacket, Command, In};
use script_text::Script;
use std::alloc::Global;
use std::marker::Model;
use wire_msg::{Do, SharedPacket};
use world_base::{Event, items_of};
use xfs_base::{Crosses, List, Mem, NodeId};

/// The three boards that stand in the registry's place, each with its registry; with all that they said to each other,
/// all that their registries sent, and the commands that are chosen. Contracts see it as a record of its parts
/// (`specs/NextBoards.antt`).
pub struct Boards {
    items: usize,
    nodes: Vec<BoardNode>,
    mail: List<BoardPacket>,
    handed: List<SharedPacket>,
    chosen: List<Command>,
    begun: u32,
}

impl Model for Boards {
    ghost use Rattle.board_world.specs.NextBoards.{BoardsState};

    ghost Value = { BoardsState };

    ghost view = { λ b. record { items = b.items; nodes = b.nodes.items; mail = b.mail; handed = b.handed; chosen = b.chosen; begun = b.begun } };
}

impl Drop for Boards {
    fn drop(self) {
        let Boards {
            items: _,
            nodes,
            mail,
            handed,
            chosen,
            begun: _,
        } = self;
        drop(nodes);
        drop(mail);
        drop(handed);
        drop(chosen);
    }
}

impl Crosses for Boards {}

// That this happens to the registry, as a command.
fn command_at(alloc: Global, what: &Do, item: u32) -> Mem<Option<Command>>
    ensures { IfOk result (λ command. command ≡ command_at what.now item) }
{
    Ok(Command::of(what.copy(alloc)?, item))
}

// An event stands for itself.
fn itself(alloc: Global, event: &Event) -> Mem<List<Event>>
    ensures { IfOk result (λ events. events ≡ event.now ∷ []) }
{
    let mut events = List::new(alloc);
    events.push(event.copy(alloc)?)?;
    Ok(events)
}

impl Boards {
    /// The boards before the first event of a script: board 1 leads, and nothing is chosen.
    pub fn start(alloc: Global, script: &Script) -> Mem<Boards>
        requires { IsSetup script.now.setup }
        ensures { IfOk result (λ boards. boards ≡ boards_start script.now) }
    {
        let items = items_of(alloc, script.lines.as_slice(), NodeId::Registry)?;
        let mut nodes = Vec::new(alloc);
        nodes.push(BoardNode::start(alloc, 1, script)?)?;
        nodes.push(BoardNode::start(alloc, 2, script)?)?;
        nodes.push(BoardNode::start(alloc, 3, script)?)?;
        Ok(Boards {
            items: items.len(),
            nodes,
            mail: List::new(alloc),
            handed: List::new(alloc),
            chosen: List::new(alloc),
            begun: 0,
        })
    }

    /// All that boards said to each other, in order.
    pub fn mail(&self) -> &List<BoardPacket>
        ensures { result.now ≡ self.now.mail }
    {
        &self.mail
    }

    /// All that their registries sent, in order, each packet with the clock of the event that sent it.
    pub fn handed(&self) -> &List<SharedPacket>
        ensures { result.now ≡ self.now.handed }
    {
        &self.handed
    }

    /// The commands that are chosen, in order.
    pub fn chosen(&self) -> &List<Command>
        ensures { result.now ≡ self.now.chosen }
    {
        &self.chosen
    }

    /// Whether the board of this number, 1, 2 or 3, is up.
    pub fn is_up(&self, number: u8) -> bool
        ensures { result ≡ is_up self.now number }
    {
        if number == 0 {
            return false;
        }
        match self.nodes.as_slice().get(usize::from(number) - 1) {
            Some(node) => node.board.is_up(),
            None => false,
        }
    }

    // The board at a place has its turn; what it shows to be chosen beyond what was is chosen, and happens to the
    // registry.
    #[tactic(auto, unfolding(crate::specs::NextBoards::boards_turn))]
    fn turn(&mut self, alloc: Global, place: usize, input: In) -> Mem<List<Event>>
        requires { place < length self.old.nodes }
        ensures state { OnOk result (self.new ≡ (boards_turn self.old place input).state) }
        ensures events { IfOk result (λ events. events ≡ (boards_turn self.old place input).outs) }
    {
        let node = &mut self.nodes[place];
        node.take(alloc, self.items, &mut self.mail, &mut self.handed, input)?;
        let more = beyond(node.board.chosen_part(), self.chosen.len());
        let events = project_all(alloc, self.items, &mut self.begun, more)?;
        choose(alloc, &mut self.chosen, more)?;
        Ok(events)
    }

    // This happens at the board of this number; nothing does where there is none.
    fn happen(&mut self, alloc: Global, number: u8, input: In) -> Mem<List<Event>>
        ensures state { OnOk result (self.new ≡ (boards_happen self.old number input).state) }
        ensures events { IfOk result (λ events. events ≡ (boards_happen self.old number input).outs) }
    {
        let count = usize::from(number);
        if 0 < count && count <= self.nodes.len() {
            self.turn(alloc, count - 1, input)
        } else {
            Ok(List::new(alloc))
        }
    }

    // A board is offered a command; nothing happens where there is none.
    fn offer(&mut self, alloc: Global, number: u8, command: Option<Command>) -> Mem<List<Event>>
        ensures state { OnOk result (self.new ≡ (boards_offer self.old number command).state) }
        ensures events { IfOk result (λ events. events ≡ (boards_offer self.old number command).outs) }
    {
        match command {
            Some(command) => self.happen(alloc, number, In::Offer(command)),
            None => Ok(List::new(alloc)),
        }
    }

    /// An event happens. What comes is the events of the nodes that it stands for: itself, where it is of a node far
    /// from the boards; else what happens to the registry by the commands that became chosen at it, in order. Nothing
    /// happens at a board of another number than 1, 2 and 3, nor where a board is offered what the registry takes no
    /// notice of.
    pub fn take(&mut self, alloc: Global, event: &BoardEvent) -> Mem<List<Event>>
        ensures state { OnOk result (self.new ≡ (boards_take self.old event.now).state) }
        ensures events { IfOk result (λ events. events ≡ (boards_take self.old event.now).outs) }
    {
        match event {
            BoardEvent::Far(event) => itself(alloc, event),
            BoardEvent::Offer(number, what, item) => {
                let command = command_at(alloc, what, *item)?;
                self.offer(alloc, *number, command)
            }
            BoardEvent::Mail(packet) => {
                let packet = packet.copy(alloc)?;
                self.happen(alloc, packet.to, In::Mail(packet))
            }
            BoardEvent::Beat(number) => self.happen(alloc, *number, In::Beat),
            BoardEvent::Stop(number) => self.happen(alloc, *number, In::Stop),
            BoardEvent::Start(number) => self.happen(alloc, *number, In::Start),
        }
    }
}
