//! Playing a script with three boards in the registry's place.
ghost use Rattle.std.specs.Prelude.{◌≡◌, ◌+◌, ◌<◌, ◌≤◌, ◌^◌, ◌++◌, fold, IfOk, OnOk};
ghost use Rattle.node_base.specs.Setups.{IsSetup};
ghost use Rattle.world_base.specs.Items.{actor_of as actor_in};
ghost use Rattle.world_base.specs.NextWorld.{next_world};
ghost use Rattle.board_play.specs.Plays.{player_beat, beat_all, player_begin, begin_at, player_happen, happen_where, into_estate, player_offer, opens_for, player_start, player_tell, player_play};

use crate::BoardEstate;
use crate::coming::{board_event, coming, least_up, offer_to};
use crate::sent::{Sender, Sent, send_by, send_far};
use board_world::{BoardEvent, Boards};
use play::{Playing, answers_since, play_lines, send_since};
use script_text::Script;
use std::alloc::Global;
use version_model::Work;
use wire_msg::Do;
use world_base::{Cluster, Estate, Event, Member, Next, Schedule, World, actor_of};
use xfs_base::{List, Mem, NodeId};

/// A play in progress.
pub struct Player<N> {
    /// The boards so far.
    pub boards: Boards,
    /// The world of all nodes so far, in which the one registry takes what is chosen.
    pub world: World<N>,
    /// What happened so far to nodes and boards.
    pub happened: List<BoardEvent>,
    /// What happened so far in the world.
    pub events: List<Event>,
    /// What was sent so far.
    pub sent: List<Sent>,
    /// What happens next.
    pub schedule: Schedule,
    /// How many items were begun and have no answer.
    pub unanswered: u64,
    /// How many items of the registry were offered, or dropped since no board was up.
    pub offered: u32,
}

impl<N> Player<N> {
    /// The world, what happened in it, and what happened to nodes and boards.
    fn into_parts(self) -> (World<N>, List<Event>, List<BoardEvent>)
        ensures { (result.0 ≡ self.world) × (result.1 ≡ self.events) × (result.2 ≡ self.happened) }
    {
        let Player {
            boards,
            world,
            happened,
            events,
            sent,
            schedule,
            unanswered: _,
            offered: _,
        } = self;
        drop(boards);
        drop(sent);
        drop(schedule);
        (world, events, happened)
    }
}

impl<N: Drop> Drop for Player<N> {
    fn drop(self) {
        let (world, events, happened) = self.into_parts();
        drop(world);
        drop(events);
        drop(happened);
    }
}

/// Events happen in a world, and are noted behind those that did.
fn happen_all<N: Member>(
    alloc: Global,
    world: &mut World<N>,
    noted: &mut List<Event>,
    events: List<Event>,
) -> Mem<()>
    ensures world { OnOk result (world.new ≡ fold (next_world N.transition) world.old events) }
    ensures noted { OnOk result (noted.new ≡ noted.old ++ events) }
{
    for event in events.into_vec() {
        let (node, what) = event.into_parts();
        world.happen(alloc, node, &what)?;
        noted.push(Event::of(node, what))?;
    }
    Ok(())
}

impl<N: Drop> Player<N> {
    /// What the play of a script leaves.
    pub(crate) fn into_estate(self, script: Script) -> BoardEstate<N>
        ensures { result ≡ into_estate script self }
    {
        let (world, events, happened) = self.into_parts();
        BoardEstate {
            estate: Estate {
                script,
                events,
                world,
            },
            events: happened,
        }
    }
}

impl<N: Member> Player<N> {
    /// The play before the first line.
    fn start(alloc: Global, script: &Script) -> Mem<Player<N>>
        requires { IsSetup script.now.setup }
        ensures { IfOk result (λ player. player ≡ player_start N.first script.now) }
    {
        Ok(Player {
            boards: Boards::start(alloc, script)?,
            world: World::start(alloc, script)?,
            happened: List::new(alloc),
            events: List::new(alloc),
            sent: List::new(alloc),
            schedule: Schedule::start(alloc),
            unanswered: 0,
            offered: 0,
        })
    }

    /// An event happens.
    #[tactic(auto, unfolding(crate::specs::Plays::player_happen))]
    fn happen(&mut self, alloc: Global, event: BoardEvent) -> Mem<()>
        ensures exact { OnOk result (self.new ≡ player_happen N.transition self.old event) }
        ensures no_more { OnOk result (self.new.unanswered ≤ self.old.unanswered) }
    {
        let told = self.world.sent.len();
        let handed = self.boards.handed().len();
        let mailed = self.boards.mail().len();
        let done = self.world.acts.len();
        let count = self.sent.len();
        let events = self.boards.take(alloc, &event)?;
        happen_all(alloc, &mut self.world, &mut self.events, events)?;
        send_far(&mut self.sent, &event, told, self.world.sent.len())?;
        send_by(
            &mut self.sent,
            Sender::Registries,
            handed,
            self.boards.handed().len(),
        )?;
        send_by(
            &mut self.sent,
            Sender::Boards,
            mailed,
            self.boards.mail().len(),
        )?;
        send_since(&mut self.schedule, count, self.sent.len())?;
        let answered = answers_since(self.world.acts.as_slice(), done);
        self.happened.push(event)?;
        self.unanswered = self.unanswered.saturating_sub(answered);
        Ok(())
    }

    /// An event happens where there is one.
    fn happen_where(&mut self, alloc: Global, event: Option<BoardEvent>) -> Mem<()>
        ensures exact { OnOk result (self.new ≡ happen_where N.transition self.old event) }
        ensures no_more { OnOk result (self.new.unanswered ≤ self.old.unanswered) }
    {
        match event {
            None => Ok(()),
            Some(event) => self.happen(alloc, event),
        }
    }

    /// The next item of the registry is offered.
    fn offer(&mut self, alloc: Global) -> Mem<()>
        ensures exact { OnOk result (self.new ≡ player_offer N.transition self.old) }
        ensures no_more { OnOk result (self.new.unanswered ≤ self.old.unanswered) }
    {
        self.offered = self.offered.saturating_add(1);
        let event = offer_to(least_up(&self.boards), Do::Begin, self.offered);
        self.happen_where(alloc, event)
    }

    fn begin_at(&mut self, alloc: Global, node: NodeId) -> Mem<()>
        ensures exact { OnOk result (self.new ≡ begin_at N.transition self.old node) }
        ensures no_more { OnOk result (self.new.unanswered ≤ self.old.unanswered) }
    {
        if node == NodeId::Registry {
            self.offer(alloc)
        } else {
            self.happen(alloc, BoardEvent::Far(Event::Begin(node)))
        }
    }

    /// A node begins its next item; the registry's is offered.
    #[tactic(auto, unfolding(crate::specs::Plays::player_begin))]
    fn begin(&mut self, alloc: Global, node: NodeId) -> Mem<()>
        requires { self.old.unanswered + 1 < 2 ^ 64 }
        ensures exact { OnOk result (self.new ≡ player_begin N.transition self.old node) }
        ensures one_more { OnOk result (self.new.unanswered ≤ self.old.unanswered + 1) }
    {
        self.unanswered += 1;
        self.begin_at(alloc, node)?;
        self.schedule.item(self.unanswered);
        Ok(())
    }

    /// Time passes at a board that is up.
    #[tactic(auto, unfolding(crate::specs::Plays::player_beat))]
    fn beat(&mut self, alloc: Global, board: u8) -> Mem<()>
        ensures exact { OnOk result (self.new ≡ player_beat N.transition self.old board) }
        ensures no_more { OnOk result (self.new.unanswered ≤ self.old.unanswered) }
    {
        if self.boards.is_up(board) {
            self.happen(alloc, BoardEvent::Beat(board))
        } else {
            Ok(())
        }
    }

    fn beat_all(&mut self, alloc: Global) -> Mem<()>
        ensures exact { OnOk result (self.new ≡ beat_all N.transition self.old) }
        ensures no_more { OnOk result (self.new.unanswered ≤ self.old.unanswered) }
    {
        self.beat(alloc, 1)?;
        self.beat(alloc, 2)?;
        self.beat(alloc, 3)
    }

    /// The schedule is told of a line that is no item.
    fn tell(&mut self, work: &Work)
        ensures exact { self.new ≡ player_tell self.old work.now }
        ensures as_many { self.new.unanswered ≡ self.old.unanswered }
    {
        self.schedule.take(work, self.unanswered);
    }

    /// A board stops or starts at its line.
    fn turn_board(&mut self, alloc: Global, event: BoardEvent, work: &Work) -> Mem<()>
        ensures exact { OnOk result (self.new ≡ player_tell (player_happen N.transition self.old event) work.now) }
        ensures no_more { OnOk result (self.new.unanswered ≤ self.old.unanswered) }
    {
        self.happen(alloc, event)?;
        self.tell(work);
        Ok(())
    }

    fn open_for(&mut self, alloc: Global, work: &Work) -> Mem<()>
        requires { self.old.unanswered + 1 < 2 ^ 64 }
        ensures exact { OnOk result (self.new ≡ opens_for N.transition self.old work.now (actor_in work.now)) }
        ensures one_more { OnOk result (self.new.unanswered ≤ self.old.unanswered + 1) }
    {
        match actor_of(work) {
            Some(node) => self.begin(alloc, node),
            None => {
                self.tell(work);
                Ok(())
            }
        }
    }

    /// Plays all lines of a script.
    #[tactic(auto, unfolding(crate::specs::Plays::player_play))]
    pub fn play(alloc: Global, script: &Script) -> Mem<Player<N>>
        requires { IsSetup script.now.setup }
        ensures { IfOk result (λ player. player ≡ player_play N.transition N.first script.now) }
    {
        let mut player = Player::start(alloc, script)?;
        play_lines(alloc, &mut player, script)?;
        Ok(player)
    }
}

impl<N: Member> Playing for Player<N> {
    ghost use Rattle.board_play.specs.Lawful.{lawful as player_lawful};
    ghost use Rattle.board_play.specs.Plays.{manner_of};

    ghost manner = { manner_of N.transition };

    fn cluster(&self) -> Cluster {
        self.world.cluster
    }

    fn what_next(&mut self) -> Next {
        self.schedule.next(self.unanswered)
    }

    #[tactic(auto, unfolding(crate::specs::Plays::delivered))]
    fn deliver(&mut self, alloc: Global, number: usize) -> Mem<()> {
        let Some(sent) = self.sent.get(number) else {
            return Ok(());
        };
        let event = coming(alloc, &self.boards, &self.world, *sent)?;
        self.happen_where(alloc, event)?;
        self.schedule.delivered(number)
    }

    /// Time passes at a node; in the registry's place at each board.
    #[tactic(auto, unfolding(crate::specs::Plays::ticks))]
    fn tick(&mut self, alloc: Global, node: NodeId) -> Mem<()> {
        if node == NodeId::Registry {
            self.beat_all(alloc)
        } else {
            self.happen(alloc, BoardEvent::Far(Event::Tick(node)))
        }
    }

    /// Begins what a line asks for, stops or starts a board, or tells the schedule of the line.
    #[tactic(auto, unfolding(crate::specs::Plays::opens))]
    fn open(&mut self, alloc: Global, work: &Work) -> Mem<()> {
        match board_event(work) {
            None => self.open_for(alloc, work),
            Some(event) => self.turn_board(alloc, event, work),
        }
    }

    ghost lawful = { player_lawful N.transition };
}
