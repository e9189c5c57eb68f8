//! A board: its state, its start, and what it takes.
ghost use Rattle.std.specs.Prelude.{◌≡◌, ◌++◌, length, OnOk, IfOk, IsTrue};
ghost use Rattle.board.specs.State.{board_start, chosen_part};
ghost use Rattle.board.specs.Transition.{transition, has_room, has_all_room, is_ready, is_for, has_short, is_short, on_body, on_mail};

use crate::ballots::{next_ballot, owner_of};
use crate::command::Command;
use crate::input::In;
use crate::lengths::Lengths;
use crate::output::Out;
use crate::packet::{BoardBody, BoardPacket};
use crate::waiting::first_of;
use std::alloc::Global;
use std::marker::Model;
use xfs_base::limits::COUNTER_ROOM;
use xfs_base::{Crosses, List, Mem};

/// One of three boards that agree on a list of commands. Contracts see it as a record of its parts
/// (`specs/State.antt`).
pub struct Board {
    pub(crate) number: u8,
    pub(crate) up: bool,
    pub(crate) promised: u32,
    pub(crate) ballot: u32,
    pub(crate) list: List<Command>,
    pub(crate) waiting: List<Command>,
    pub(crate) leads: bool,
    pub(crate) known: Lengths,
    pub(crate) done: u32,
    pub(crate) applied: u32,
    pub(crate) heard: bool,
}

impl Model for Board {
    ghost use Rattle.board.specs.State.{BoardState};

    ghost Value = { BoardState };

    ghost view = { λ b. record { number = b.number; up = b.up; promised = b.promised; ballot = b.ballot; list = b.list; waiting = b.waiting; leads = b.leads; known = b.known; done = b.done; applied = b.applied; heard = b.heard } };
}

impl Drop for Board {
    fn drop(self) {
        let Board {
            number: _,
            up: _,
            promised: _,
            ballot: _,
            list,
            waiting,
            leads: _,
            known: _,
            done: _,
            applied: _,
            heard: _,
        } = self;
        drop(list);
        drop(waiting);
    }
}

impl Crosses for Board {}

// Whether a counter is at least 65,536 below its end.
fn has_room(counter: u32) -> bool
    ensures { result ≡ has_room counter }
{
    counter <= u32::MAX - COUNTER_ROOM
}

// Whether a list is at least 65,536 commands shorter than its length could say.
fn is_short(list: &List<Command>) -> bool
    ensures { result ≡ is_short list.now }
{
    list.len() <= (u32::MAX - COUNTER_ROOM) as usize
}

// Whether a list that comes is so short too.
fn has_short(body: &BoardBody) -> bool
    ensures { result ≡ has_short body.now }
{
    match body {
        BoardBody::Prepare(_) => true,
        BoardBody::Promised(_, _, list) => is_short(list),
        BoardBody::Install(_, list) => is_short(list),
        BoardBody::Append(_, _, _) => true,
        BoardBody::Accepted(_, _) => true,
    }
}

impl Board {
    /// The board of this number, 1, 2 or 3, at the start of a run: it has promised and accepted ballot 1, with the
    /// empty list, and board 1 leads.
    pub fn start(alloc: Global, number: u8) -> Board
        ensures { result ≡ board_start number }
    {
        Board {
            number,
            up: true,
            promised: 1,
            ballot: 1,
            list: List::new(alloc),
            waiting: List::new(alloc),
            leads: number == 1,
            known: Lengths::all(Some(0)),
            done: 0,
            applied: 0,
            heard: false,
        }
    }

    /// What the board does on an input, as `specs/Transition.antt` says for each of them. While it is stopped it takes
    /// nothing but its start. Where its promise, the ballot that it would take next or the length of its list or of one
    /// that comes is within 65,536 of the end of its type, a command, a packet or a beat changes nothing and gives
    /// nothing. So does a packet that isn't for this board, or not of another one. Where memory is wanting nothing is
    /// said of the board.
    pub fn take(&mut self, alloc: Global, input: In) -> Mem<List<Out>>
        ensures state { OnOk result (self.new ≡ (transition self.old input).state) }
        ensures outs { IfOk result (λ outs. outs ≡ (transition self.old input).outs) }
    {
        let mut outs = List::new(alloc);
        match input {
            In::Offer(command) => {
                if self.is_ready() {
                    self.on_offer(alloc, &mut outs, command)?;
                }
            }
            In::Mail(packet) => {
                if self.is_ready() {
                    self.on_mail(alloc, &mut outs, packet)?;
                }
            }
            In::Beat => {
                if self.is_ready() {
                    self.on_beat(alloc, &mut outs)?;
                }
            }
            In::Stop => {
                self.up = false;
                self.leads = false;
            }
            In::Start => self.up = true,
        }
        Ok(outs)
    }

    /// Whether the board is up.
    pub fn is_up(&self) -> bool
        ensures { result ≡ self.now.up }
    {
        self.up
    }

    /// The commands at the front of its list that are surely chosen: all of a list that is led by another board, since
    /// then two have it, and what is done of one that it leads.
    pub fn chosen_part(&self) -> &[Command]
        ensures { result.now ≡ chosen_part self.now }
    {
        if self.leads {
            return first_of(self.list.as_slice(), self.done);
        }
        if owner_of(self.ballot) == u32::from(self.number) {
            return &[];
        }
        self.list.as_slice()
    }

    // Whether each counter is at least 65,536 below its end.
    fn has_all_room(&self) -> bool
        ensures { result ≡ has_all_room self.now }
    {
        has_room(self.promised)
            && (has_room(next_ballot(self.number, self.promised)) && is_short(&self.list))
    }

    fn is_ready(&self) -> bool
        ensures { result ≡ is_ready self.now }
    {
        self.up && self.has_all_room()
    }

    // Whether a packet is for this board, and of another.
    fn is_for(&self, packet: &BoardPacket) -> bool
        ensures { result ≡ is_for self.now packet.now }
    {
        packet.to == self.number
            && (packet.from != self.number && (1 <= packet.from && packet.from <= 3))
    }

    #[tactic(auto, unfolding(crate::specs::Transition::on_mail))]
    fn on_mail(&mut self, alloc: Global, outs: &mut List<Out>, packet: BoardPacket) -> Mem<()>
        requires { IsTrue (has_all_room self.old) }
        ensures state { OnOk result (self.new ≡ (on_mail self.old packet).state) }
        ensures outs { OnOk result (outs.new ≡ outs.old ++ (on_mail self.old packet).outs) }
    {
        if !self.is_for(&packet) || !has_short(&packet.body) {
            return Ok(());
        }
        let BoardPacket { from, to: _, body } = packet;
        self.on_body(alloc, outs, from, body)
    }

    fn on_body(&mut self, alloc: Global, outs: &mut List<Out>, from: u8, body: BoardBody) -> Mem<()>
        requires room { IsTrue (has_all_room self.old) }
        requires short { IsTrue (has_short body) }
        ensures state { OnOk result (self.new ≡ (on_body self.old from body).state) }
        ensures outs { OnOk result (outs.new ≡ outs.old ++ (on_body self.old from body).outs) }
    {
        match body {
            BoardBody::Prepare(ballot) => self.on_prepare(alloc, outs, from, ballot),
            BoardBody::Promised(ballot, last, list) => {
                self.on_promised(alloc, outs, ballot, last, list)
            }
            BoardBody::Install(ballot, list) => {
                self.heard = true;
                self.on_install(outs, from, ballot, list)
            }
            BoardBody::Append(ballot, count, command) => {
                self.heard = true;
                self.on_append(outs, from, ballot, count, command)
            }
            BoardBody::Accepted(ballot, count) => {
                self.on_accepted(alloc, outs, from, ballot, count)
            }
        }
    }
}
