//! Playing a script with servers that stop and keep their disk.
ghost use Rattle.std.specs.Prelude.{◌≡◌, ◌+◌, ◌<◌, ◌≤◌, ◌^◌, IfOk, MatchOption, OnOk, None, Some};
ghost use Rattle.node_base.specs.Setups.{IsSetup};
ghost use Rattle.play.specs.Manner.{playing_come, playing_go, play_line, playing_round};
ghost use Rattle.play.specs.Plays.{actors_of};
ghost use Rattle.world_base.specs.Events.{node_of};
ghost use Rattle.world_base.specs.Runs.{BeginsAll, MayHappen, begun_in};
ghost use Rattle.disk_play.specs.Courses.{asked_of, begins_on, deck_of, delivered_on, happens_at, happens_on, manner_on, opens_on, played_on, seat_of, shelf_at, starts_on};
ghost use Rattle.disk_play.specs.Standing.{GivesOf, Stands};

use crate::Course;
use crate::change::{empty_shelves, take_at};
use crate::course::{Seat, all_running, seat_of, set_stop};
use disk_shelf::{Ask, DiskShelf, MemDisk};
use fragment_store::Shelf;
use play::Player;
use script_text::{Line, Script};
use shelved_nodes::{Shelved, asked};
use std::alloc::Global;
use version_model::Work;
use wire_msg::Do;
use world_base::{Event, Next, World, actor_of};
use xfs_base::{Mem, NodeId};

/// A play in progress, and the shelf of each server on a disk.
pub struct DiskPlayer<N> {
    /// The course of the play.
    pub course: Course<N>,
    /// The shelves of the servers, in their order.
    pub shelves: Vec<DiskShelf<MemDisk>>,
}

impl<N: Drop> Drop for DiskPlayer<N> {
    fn drop(self) {
        let DiskPlayer { course, shelves } = self;
        drop(course);
        drop(shelves);
    }
}

/// The shelf of a node of a world; none where there is no such node, or it keeps none.
fn shelf_in<N: Shelved>(world: &World<N>, node: NodeId) -> Option<&Shelf>
    ensures { MatchOption result (shelf_at N.shelf_of world.now node ≡ None) (λ shelf. shelf_at N.shelf_of world.now node ≡ Some shelf.now) }
{
    match world.cluster.place(node) {
        None => None,
        Some(place) => match world.nodes.get(place) {
            None => None,
            Some(found) => found.shelf(),
        },
    }
}

/// The change that an event made of the shelf of a node, which was this one before.
fn asked_in<N: Shelved>(
    alloc: Global,
    what: &Do,
    shelf: &DiskShelf<MemDisk>,
    world: &World<N>,
    node: NodeId,
) -> Mem<Option<Ask>>
    ensures exact { IfOk result (λ call. call ≡ asked_of what.now (Some shelf.now.state.shelf) (shelf_at N.shelf_of world.now node)) }
    ensures gives { IfOk result (λ call. GivesOf what.now shelf.now.state.shelf (shelf_at N.shelf_of world.now node) call) }
{
    match shelf_in(world, node) {
        None => Ok(None),
        Some(new) => asked(alloc, what, shelf.shelf(), new),
    }
}

impl<N: Shelved> DiskPlayer<N> {
    /// The world and what happened, and the disks.
    pub fn into_parts(self) -> (Course<N>, Vec<DiskShelf<MemDisk>>)
        ensures { result ≡ (self.course, self.shelves) }
    {
        let DiskPlayer { course, shelves } = self;
        (course, shelves)
    }

    /// An event of a server that runs.
    fn happen_at(&mut self, alloc: Global, script: &Script, seat: Seat, event: Event) -> Mem<()>
        requires setup { IsSetup script.now.setup }
        requires stands { Stands N.transition N.first N.shelf_of script.now self.old.course self.old.shelves.items }
        requires seat { seat_of self.old.course.stops (node_of event) ≡ Some seat }
        requires may { MayHappen self.old.course.player.world event }
        ensures exact { OnOk result (deck_of self.new.course self.new.shelves.items ≡ happens_at N.transition N.shelf_of (deck_of self.old.course self.old.shelves.items) seat event) }
        ensures stands { OnOk result (Stands N.transition N.first N.shelf_of script.now self.new.course self.new.shelves.items) }
    {
        let sent = self.course.player.world.sent.len();
        let done = self.course.player.world.acts.len();
        let (node, what) = event.into_parts();
        self.course.player.world.happen(alloc, node, &what)?;
        let shelf = &self.shelves[seat.place];
        let call = asked_in(alloc, &what, shelf, &self.course.player.world, node)?;
        let fate = seat.stop.fate_for(&call);
        let stop = seat.stop.left_by(&call);
        take_at(alloc, &mut self.shelves, seat, &what, call)?;
        set_stop(&mut self.course.stops, seat.place, stop);
        self.course
            .settle(alloc, script, fate, Event::of(node, what), sent, done)
    }

    /// An event happens; a server that is stopped doesn't take it.
    fn happen(&mut self, alloc: Global, script: &Script, event: Event) -> Mem<()>
        requires setup { IsSetup script.now.setup }
        requires stands { Stands N.transition N.first N.shelf_of script.now self.old.course self.old.shelves.items }
        requires may { MayHappen self.old.course.player.world event }
        ensures exact { OnOk result (deck_of self.new.course self.new.shelves.items ≡ happens_on N.transition N.shelf_of (deck_of self.old.course self.old.shelves.items) event) }
        ensures stands { OnOk result (Stands N.transition N.first N.shelf_of script.now self.new.course self.new.shelves.items) }
        ensures no_more { OnOk result (self.new.course.player.unanswered ≤ self.old.course.player.unanswered) }
    {
        match seat_of(&self.course.stops, event.node()) {
            None => self.course.player.happen(alloc, event),
            Some(seat) => {
                if seat.stop.stopped {
                    drop(event);
                    return Ok(());
                }
                self.happen_at(alloc, script, seat, event)
            }
        }
    }

    /// A node begins its next item; a server that is stopped is started first.
    #[tactic(auto, unfolding(crate::specs::Courses::begins_on))]
    fn begin(&mut self, alloc: Global, script: &Script, node: NodeId) -> Mem<()>
        requires setup { IsSetup script.now.setup }
        requires stands { Stands N.transition N.first N.shelf_of script.now self.old.course self.old.shelves.items }
        requires room { self.old.course.player.unanswered + 1 < 2 ^ 64 }
        ensures exact { OnOk result (deck_of self.new.course self.new.shelves.items ≡ begins_on N.transition N.shelf_of (deck_of self.old.course self.old.shelves.items) node) }
        ensures stands { OnOk result (Stands N.transition N.first N.shelf_of script.now self.new.course self.new.shelves.items) }
        ensures one_more { OnOk result (self.new.course.player.unanswered ≤ self.old.course.player.unanswered + 1) }
    {
        self.course.wake(node);
        self.course.player.unanswered += 1;
        self.happen(alloc, script, Event::Begin(node))?;
        self.course.drain();
        Ok(())
    }

    /// The packet of this number is delivered.
    #[tactic(auto, unfolding(crate::specs::Courses::delivered_on))]
    fn deliver(&mut self, alloc: Global, script: &Script, number: usize) -> Mem<()>
        requires setup { IsSetup script.now.setup }
        requires stands { Stands N.transition N.first N.shelf_of script.now self.old.course self.old.shelves.items }
        ensures exact { OnOk result (deck_of self.new.course self.new.shelves.items ≡ delivered_on N.transition N.shelf_of (deck_of self.old.course self.old.shelves.items) number) }
        ensures stands { OnOk result (Stands N.transition N.first N.shelf_of script.now self.new.course self.new.shelves.items) }
        ensures no_more { OnOk result (self.new.course.player.unanswered ≤ self.old.course.player.unanswered) }
    {
        let packet = match self.course.player.world.sent.get(number) {
            Some(packet) => packet.copy(alloc)?,
            None => return Ok(()),
        };
        self.happen(alloc, script, Event::Deliver(packet))?;
        self.course.player.schedule.delivered(number)
    }

    /// Time passes at every node that isn't stopped, in their order.
    #[tactic(auto, unfolding(play::specs::Manner::playing_round))]
    fn round(&mut self, alloc: Global, script: &Script) -> Mem<()>
        requires setup { IsSetup script.now.setup }
        requires stands { Stands N.transition N.first N.shelf_of script.now self.old.course self.old.shelves.items }
        ensures exact { OnOk result (deck_of self.new.course self.new.shelves.items ≡ playing_round (manner_on N.transition N.shelf_of) (deck_of self.old.course self.old.shelves.items)) }
        ensures stands { OnOk result (Stands N.transition N.first N.shelf_of script.now self.new.course self.new.shelves.items) }
        ensures no_more { OnOk result (self.new.course.player.unanswered ≤ self.old.course.player.unanswered) }
    {
        let cluster = self.course.player.world.cluster;
        for place in 0..cluster.count() {
            self.happen(alloc, script, Event::Tick(cluster.node_at(place)))?;
        }
        Ok(())
    }

    /// What comes next happens.
    fn come(&mut self, alloc: Global, script: &Script, next: Next) -> Mem<()>
        requires setup { IsSetup script.now.setup }
        requires stands { Stands N.transition N.first N.shelf_of script.now self.old.course self.old.shelves.items }
        ensures exact { OnOk result (deck_of self.new.course self.new.shelves.items ≡ playing_come (manner_on N.transition N.shelf_of) (deck_of self.old.course self.old.shelves.items) next) }
        ensures stands { OnOk result (Stands N.transition N.first N.shelf_of script.now self.new.course self.new.shelves.items) }
        ensures no_more { OnOk result (self.new.course.player.unanswered ≤ self.old.course.player.unanswered) }
    {
        match next {
            Next::Deliver(number) => self.deliver(alloc, script, number),
            Next::Round => self.round(alloc, script),
            Next::Done => Ok(()),
        }
    }

    /// All that the schedule says happens for the line in hand.
    #[tactic(auto, unfolding(play::specs::Manner::playing_go))]
    fn go(&mut self, alloc: Global, script: &Script) -> Mem<()>
        requires setup { IsSetup script.now.setup }
        requires stands { Stands N.transition N.first N.shelf_of script.now self.old.course self.old.shelves.items }
        ensures exact { OnOk result (deck_of self.new.course self.new.shelves.items ≡ playing_go (manner_on N.transition N.shelf_of) (deck_of self.old.course self.old.shelves.items)) }
        ensures stands { OnOk result (Stands N.transition N.first N.shelf_of script.now self.new.course self.new.shelves.items) }
        ensures no_more { OnOk result (self.new.course.player.unanswered ≤ self.old.course.player.unanswered) }
    {
        loop {
            let next = self
                .course
                .player
                .schedule
                .next(self.course.player.unanswered);
            if next.is_done() {
                return Ok(());
            }
            self.come(alloc, script, next)?;
        }
    }

    /// Begins what a line asks for; or stops or starts a server, or tells the schedule.
    #[tactic(auto, unfolding(crate::specs::Courses::opens_on))]
    fn open(&mut self, alloc: Global, script: &Script, work: &Work) -> Mem<()>
        requires setup { IsSetup script.now.setup }
        requires stands { Stands N.transition N.first N.shelf_of script.now self.old.course self.old.shelves.items }
        requires room { self.old.course.player.unanswered + 1 < 2 ^ 64 }
        ensures exact { OnOk result (deck_of self.new.course self.new.shelves.items ≡ opens_on N.transition N.shelf_of (deck_of self.old.course self.old.shelves.items) work.now) }
        ensures stands { OnOk result (Stands N.transition N.first N.shelf_of script.now self.new.course self.new.shelves.items) }
        ensures one_more { OnOk result (self.new.course.player.unanswered ≤ self.old.course.player.unanswered + 1) }
    {
        match actor_of(work) {
            Some(node) => self.begin(alloc, script, node),
            None => {
                self.course.tell(work);
                Ok(())
            }
        }
    }

    /// Plays a line.
    #[tactic(auto, unfolding(play::specs::Manner::play_line))]
    fn line(&mut self, alloc: Global, script: &Script, line: &Line) -> Mem<()>
        requires setup { IsSetup script.now.setup }
        requires stands { Stands N.transition N.first N.shelf_of script.now self.old.course self.old.shelves.items }
        requires room { self.old.course.player.unanswered + 1 < 2 ^ 64 }
        ensures exact { OnOk result (deck_of self.new.course self.new.shelves.items ≡ play_line (manner_on N.transition N.shelf_of) (deck_of self.old.course self.old.shelves.items) line.now) }
        ensures stands { OnOk result (Stands N.transition N.first N.shelf_of script.now self.new.course self.new.shelves.items) }
        ensures one_more { OnOk result (self.new.course.player.unanswered ≤ self.old.course.player.unanswered + 1) }
    {
        self.open(alloc, script, &line.work)?;
        self.go(alloc, script)
    }

    /// The play before the first line: each server has an empty shelf on an empty disk.
    fn start(alloc: Global, script: &Script) -> Mem<DiskPlayer<N>>
        requires { IsSetup script.now.setup }
        ensures exact { IfOk result (λ player. deck_of player.course player.shelves.items ≡ starts_on N.first script.now) }
        ensures stands { IfOk result (λ player. Stands N.transition N.first N.shelf_of script.now player.course player.shelves.items) }
    {
        let course = Course {
            player: Player::start(alloc, script)?,
            stops: all_running(alloc, script.setup.servers)?,
        };
        let shelves = empty_shelves(alloc, script.setup.servers)?;
        Ok(DiskPlayer { course, shelves })
    }

    /// Plays all lines of a script.
    #[tactic(auto, unfolding(crate::specs::Courses::played_on))]
    fn lines(alloc: Global, script: &Script) -> Mem<DiskPlayer<N>>
        requires { IsSetup script.now.setup }
        ensures exact { IfOk result (λ player. deck_of player.course player.shelves.items ≡ played_on N.transition N.shelf_of N.first script.now) }
        ensures stands { IfOk result (λ player. Stands N.transition N.first N.shelf_of script.now player.course player.shelves.items) }
    {
        let mut player = DiskPlayer::start(alloc, script)?;
        for line in script.lines.as_slice() {
            player.line(alloc, script, line)?;
        }
        Ok(player)
    }

    /// The play of a script with servers that stop. Its events are a run of the script, and each item is begun once, at its line;
    /// and the shelf of each server is on its disk.
    pub fn play(alloc: Global, script: &Script) -> Mem<DiskPlayer<N>>
        requires { IsSetup script.now.setup }
        ensures exact { IfOk result (λ player. deck_of player.course player.shelves.items ≡ played_on N.transition N.shelf_of N.first script.now) }
        ensures stands { IfOk result (λ player. Stands N.transition N.first N.shelf_of script.now player.course player.shelves.items) }
        ensures in_order { IfOk result (λ player. begun_in player.course.player.events ≡ actors_of script.now.lines) }
        ensures complete { IfOk result (λ player. BeginsAll script.now.lines player.course.player.events) }
    {
        let player = DiskPlayer::lines(alloc, script)?;
        Ok(player)
    }
}
