//! Playing a script.
ghost use Rattle.std.specs.Prelude.{◌≡◌, ◌+◌, ◌<◌, ◌≤◌, ◌^◌, drop, IfOk, OnOk};
ghost use Rattle.world_base.specs.Runs.{BeginsAll, IsRun, begun_in};
ghost use Rattle.node_base.specs.Setups.{IsSetup};
ghost use Rattle.play.specs.Plays.{actors_of, answers, is_answer, send_since, player_happen, player_begin, player_start, player_play};

use crate::playing::{Playing, play_lines};
use script_text::Script;
use std::alloc::Global;
use version_model::{Act, Work};
use world_base::{Cluster, Event, Member, Next, Schedule, World, actor_of};
use xfs_base::{List, Mem, NodeId};

/// A play in progress.
pub struct Player<N> {
    /// The world so far.
    pub world: World<N>,
    /// What happened so far.
    pub events: List<Event>,
    /// What happens next.
    pub schedule: Schedule,
    /// How many items were begun and have no answer.
    pub unanswered: u64,
}

impl<N: Drop> Drop for Player<N> {
    fn drop(self) {
        let Player {
            world,
            events,
            schedule,
            unanswered: _,
        } = self;
        drop(world);
        drop(events);
        drop(schedule);
    }
}

/// Whether an act answers an item.
fn is_answer(act: &Act) -> bool
    ensures { result ≡ is_answer act.now }
{
    match act {
        Act::Answered {
            node: _,
            item: _,
            answer: _,
        } => true,
        _ => false,
    }
}

/// How many of these acts answer an item.
fn answers(acts: &[Act]) -> u64
    ensures { result ≡ answers acts.now }
{
    let mut count: u64 = 0;
    for act in acts {
        count += u64::from(is_answer(act));
    }
    count
}

/// How many of the acts from a place on answer an item.
pub fn answers_since(acts: &[Act], place: usize) -> u64
    ensures { result ≡ answers (drop place acts.now) }
{
    if place >= acts.len() {
        return 0;
    }
    answers(&acts[place..])
}

/// Hands the schedule the packets that were sent since there were so many.
#[tactic(auto, unfolding(crate::specs::Plays::send_since))]
pub fn send_since(schedule: &mut Schedule, before: usize, now: usize) -> Mem<()>
    ensures { OnOk result (schedule.new ≡ send_since schedule.old before now) }
{
    for number in before..now {
        schedule.send(number)?;
    }
    Ok(())
}

impl<N: Member> Player<N> {
    /// The world and what happened.
    pub fn into_parts(self) -> (World<N>, List<Event>)
        ensures { result ≡ (self.world, self.events) }
    {
        let Player {
            world,
            events,
            schedule,
            unanswered: _,
        } = self;
        drop(schedule);
        (world, events)
    }

    /// The play before the first line.
    pub fn start(alloc: Global, script: &Script) -> Mem<Player<N>>
        requires { IsSetup script.now.setup }
        ensures { IfOk result (λ player. player ≡ player_start N.first script.now) }
    {
        Ok(Player {
            world: World::start(alloc, script)?,
            events: List::new(alloc),
            schedule: Schedule::start(alloc),
            unanswered: 0,
        })
    }

    /// An event happens.
    #[tactic(auto, unfolding(crate::specs::Plays::player_happen))]
    pub fn happen(&mut self, alloc: Global, event: Event) -> Mem<()>
        ensures exact { OnOk result (self.new ≡ player_happen N.transition self.old event) }
        ensures no_more { OnOk result (self.new.unanswered ≤ self.old.unanswered) }
    {
        let sent = self.world.sent.len();
        let done = self.world.acts.len();
        let (node, what) = event.into_parts();
        self.world.happen(alloc, node, &what)?;
        send_since(&mut self.schedule, sent, self.world.sent.len())?;
        let answered = answers_since(self.world.acts.as_slice(), done);
        self.events.push(Event::of(node, what))?;
        self.unanswered = self.unanswered.saturating_sub(answered);
        Ok(())
    }

    /// A node begins its next item.
    #[tactic(auto, unfolding(crate::specs::Plays::player_begin))]
    fn begin(&mut self, alloc: Global, node: NodeId) -> Mem<()>
        requires { self.old.unanswered + 1 < 2 ^ 64 }
        ensures exact { OnOk result (self.new ≡ player_begin N.transition self.old node) }
        ensures one_more { OnOk result (self.new.unanswered ≤ self.old.unanswered + 1) }
    {
        self.unanswered += 1;
        self.happen(alloc, Event::Begin(node))?;
        self.schedule.item(self.unanswered);
        Ok(())
    }

    /// Plays all lines of a script.
    #[tactic(auto, unfolding(crate::specs::Plays::player_play))]
    fn lines(alloc: Global, script: &Script) -> Mem<Player<N>>
        requires { IsSetup script.now.setup }
        ensures { IfOk result (λ player. player ≡ player_play N.transition N.first script.now) }
    {
        let mut player = Player::start(alloc, script)?;
        play_lines(alloc, &mut player, script)?;
        Ok(player)
    }

    /// The play of a script. Its events are a run of the script, and each item is begun once, at its line.
    pub fn play(alloc: Global, script: &Script) -> Mem<Player<N>>
        requires { IsSetup script.now.setup }
        ensures exact { IfOk result (λ player. player ≡ player_play N.transition N.first script.now) }
        ensures one_run { IfOk result (λ player. IsRun N.transition N.first script.now player.events player.world) }
        ensures in_order { IfOk result (λ player. begun_in player.events ≡ actors_of script.now.lines) }
        ensures complete { IfOk result (λ player. BeginsAll script.now.lines player.events) }
    {
        let player = Player::lines(alloc, script)?;
        Ok(player)
    }
}

impl<N: Member> Playing for Player<N> {
    ghost use Rattle.play.specs.Plays.{manner_of};
    ghost use Rattle.play.specs.Lawful.{lawful as player_lawful};

    ghost manner = { manner_of N.transition };

    fn cluster(&self) -> Cluster {
        self.world.cluster
    }

    fn what_next(&mut self) -> Next {
        self.schedule.next(self.unanswered)
    }

    #[tactic(auto, unfolding(crate::specs::Plays::delivered))]
    fn deliver(&mut self, alloc: Global, number: usize) -> Mem<()> {
        let packet = match self.world.sent.get(number) {
            Some(packet) => packet.copy(alloc)?,
            None => return Ok(()),
        };
        self.happen(alloc, Event::Deliver(packet))?;
        self.schedule.delivered(number)
    }

    #[tactic(auto, unfolding(crate::specs::Plays::ticks))]
    fn tick(&mut self, alloc: Global, node: NodeId) -> Mem<()> {
        self.happen(alloc, Event::Tick(node))
    }

    /// Begins what a line asks for, or tells the schedule of it.
    #[tactic(auto, unfolding(crate::specs::Plays::opens))]
    fn open(&mut self, alloc: Global, work: &Work) -> Mem<()> {
        match actor_of(work) {
            Some(node) => self.begin(alloc, node),
            None => {
                self.schedule.take(work, self.unanswered);
                Ok(())
            }
        }
    }

    ghost lawful = { player_lawful N.transition };
}
