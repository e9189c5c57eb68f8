//! The schedule by which one thread plays a script: which packet comes next, and when time passes. It
//! knows packets by numbers alone, so that whoever plays may send packets of kinds of its own.
ghost use Rattle.std.specs.Prelude.{◌≡◌, ◌<◌, length, OnOk, Some, None};
ghost use Rattle.world_base.specs.Schedule.{schedule_start, schedule_send, repeated, make_room, schedule_drain, item_begun, mixer_of, schedule_take, delivers, schedule_pass, schedule_next, is_done};

use std::alloc::Global;
use std::collections::VecDeque;
use std::marker::Model;
use version_model::Work;
use xfs_base::Mem;
use xfs_base::draws::next_number;
use xfs_base::limits::MAX_DELIVERIES;

pub mod mixer;

use mixer::{drawn_place, mixer_of};

/// How often time passes for one line, apart from what is lost and unanswered.
const ROUNDS: u128 = 40;

/// How often more it may pass for each unanswered item.
const ROUNDS_AN_ITEM: u128 = 4;

/// What comes next.
#[derive(Clone, Copy, PartialEq, Eq)]
pub enum Next {
    /// The packet of this number is delivered.
    Deliver(usize),
    /// Time passes at every node.
    Round,
    /// The line is done.
    Done,
}

impl Next {
    /// Whether the line is done.
    pub fn is_done(self) -> bool
        ensures { result ≡ is_done self }
    {
        match self {
            Next::Deliver(_) => false,
            Next::Round => false,
            Next::Done => true,
        }
    }
}

/// The packets on their way, what the net lines ask of the network, and how much may still happen for the
/// line in hand. Contracts see it as a record.
pub struct Schedule {
    /// The packets on their way, the oldest first.
    queue: VecDeque<usize>,
    /// How many of the next packets are lost.
    lose: u32,
    /// How many of the next deliveries are repeated.
    again: u32,
    /// The number of the last draw; none where the oldest packet comes next.
    mixer: Option<u32>,
    /// Whether the packets are held back.
    holding: bool,
    /// How many deliveries may still be made for the line.
    deliveries: u32,
    /// How often time may still pass for the line.
    rounds: u128,
}

impl Drop for Schedule {
    fn drop(self) {
        let Schedule {
            queue,
            lose: _,
            again: _,
            mixer: _,
            holding: _,
            deliveries: _,
            rounds: _,
        } = self;
        drop(queue);
    }
}

impl Model for Schedule {
    ghost use Rattle.world_base.specs.Schedule.{ScheduleState};

    ghost Value = { ScheduleState };

    ghost view = { λ s. record {
      queue = s.queue.items;
      lose = s.lose;
      again = s.again;
      mixer = s.mixer;
      holding = s.holding;
      deliveries = s.deliveries;
      rounds = s.rounds;
    } };
}

impl Schedule {
    /// The schedule before the first line: nothing is on its way. It takes no memory.
    pub fn start(alloc: Global) -> Schedule
        ensures { result ≡ schedule_start }
    {
        Schedule {
            queue: VecDeque::new(alloc),
            lose: 0,
            again: 0,
            mixer: None,
            holding: false,
            deliveries: 0,
            rounds: 0,
        }
    }

    /// The packet of this number was sent. It is on its way, unless it is one of those that are lost.
    #[tactic(auto, unfolding(crate::specs::Schedule::schedule_send))]
    pub fn send(&mut self, number: usize) -> Mem<()>
        ensures { OnOk result (self.new ≡ schedule_send self.old number) }
    {
        if self.lose > 0 {
            self.lose -= 1;
            return Ok(());
        }
        self.queue.push_back(number)?;
        Ok(())
    }

    /// The packet of this number was delivered, and what the delivery sent was handed in. It is on its way
    /// once more, where deliveries are repeated.
    #[tactic(auto, unfolding(crate::specs::Schedule::repeated))]
    pub fn delivered(&mut self, number: usize) -> Mem<()>
        ensures { OnOk result (self.new ≡ repeated self.old number) }
    {
        if self.again > 0 {
            self.again -= 1;
            self.queue.push_back(number)?;
        }
        Ok(())
    }

    /// So much may happen for the line in hand.
    fn make_room(&mut self, deliveries: u32, rounds: u128)
        ensures { self.new ≡ make_room deliveries rounds self.old }
    {
        self.deliveries = deliveries;
        self.rounds = rounds;
    }

    /// The queue is drained: deliveries, and as often as the rules allow time may pass.
    fn drain(&mut self, unanswered: u64)
        ensures { self.new ≡ schedule_drain unanswered self.old }
    {
        let rounds = ROUNDS + u128::from(self.lose) + ROUNDS_AN_ITEM * u128::from(unanswered);
        self.make_room(MAX_DELIVERIES, rounds);
    }

    /// A line that is an item was begun; so many items are unanswered. The queue is drained, unless the
    /// packets are held back.
    #[tactic(auto, unfolding(crate::specs::Schedule::item_begun))]
    pub fn item(&mut self, unanswered: u64)
        ensures { self.new ≡ item_begun unanswered self.old }
    {
        if self.holding {
            self.make_room(0, 0);
        } else {
            self.drain(unanswered);
        }
    }

    /// A line that is no item; so many items are unanswered. What is no line of the network changes
    /// nothing.
    #[tactic(auto, unfolding(crate::specs::Schedule::schedule_take))]
    pub fn take(&mut self, work: &Work, unanswered: u64)
        ensures { self.new ≡ schedule_take work.now unanswered self.old }
    {
        self.make_room(0, 0);
        match work {
            Work::NetLose(count) => self.lose = *count,
            Work::NetAgain(count) => self.again = *count,
            Work::NetMix(number) => self.mixer = mixer_of(*number),
            Work::NetHold => self.holding = true,
            Work::NetGo => {
                self.holding = false;
                self.drain(unanswered);
            }
            Work::NetStep(count) => self.make_room(*count, 0),
            _ => {}
        }
    }

    /// The oldest packet is taken out.
    fn take_oldest(&mut self) -> Next
        requires some_packet { 0 < length self.old.queue }
        requires some_left { 0 < self.old.deliveries }
        ensures next { result ≡ (delivers None self.old).next }
        ensures state { self.new ≡ (delivers None self.old).state }
    {
        self.deliveries -= 1;
        match self.queue.pop_front() {
            Some(number) => Next::Deliver(number),
            None => Next::Done,
        }
    }

    /// A packet that is drawn is taken out.
    fn take_drawn(&mut self, number: u32) -> Next
        requires some_packet { 0 < length self.old.queue }
        requires some_left { 0 < self.old.deliveries }
        ensures next { result ≡ (delivers (Some number) self.old).next }
        ensures state { self.new ≡ (delivers (Some number) self.old).state }
    {
        self.deliveries -= 1;
        self.mixer = Some(next_number(number));
        match self.queue.remove(drawn_place(number, self.queue.len())) {
            Some(number) => Next::Deliver(number),
            None => Next::Done,
        }
    }

    /// Whether time passes now that nothing is on its way.
    fn pass(&mut self, unanswered: u64) -> Next
        ensures next { result ≡ (schedule_pass unanswered self.old).next }
        ensures state { self.new ≡ (schedule_pass unanswered self.old).state }
    {
        if unanswered == 0 || self.rounds == 0 {
            return Next::Done;
        }
        self.rounds -= 1;
        Next::Round
    }

    /// What comes next for the line in hand, where so many items are unanswered.
    #[tactic(auto, unfolding(crate::specs::Schedule::schedule_next))]
    pub fn next(&mut self, unanswered: u64) -> Next
        ensures next { result ≡ (schedule_next unanswered self.old).next }
        ensures state { self.new ≡ (schedule_next unanswered self.old).state }
    {
        if self.queue.is_empty() {
            return self.pass(unanswered);
        }
        if self.deliveries == 0 {
            return Next::Done;
        }
        match self.mixer {
            None => self.take_oldest(),
            Some(number) => self.take_drawn(number),
        }
    }
}
