//! How the lines of a script are played by the schedule, in a play of any kind.
ghost use Rattle.std.specs.Prelude.{◌≡◌, ◌+◌, ◌<◌, ◌≤◌, ◌^◌, fold, OnOk};
ghost use Rattle.play.specs.Manner.{playing_come, playing_go, what_next, play_line, playing_round, unanswered_in};

use script_text::{Line, Script};
use std::alloc::Global;
use version_model::Work;
use world_base::{Cluster, Next};
use xfs_base::{Mem, NodeId};

/// A play that goes by the schedule.
pub trait Playing {
    ghost use Rattle.play.specs.Manner.{IsLawful, Manner};

    /// What it is to the schedule.
    ghost manner: { Manner Self };

    /// The nodes that it has.
    fn cluster(&self) -> Cluster
        ensures { result ≡ manner.cluster self.now };

    /// What the schedule says comes next.
    fn what_next(&mut self) -> Next
        ensures next { result ≡ (what_next manner self.old).next }
        ensures state { self.new ≡ manner.with_schedule self.old (what_next manner self.old).state };

    /// What was sent as this number is delivered.
    fn deliver(&mut self, alloc: Global, number: usize) -> Mem<()>
        ensures exact { OnOk result (self.new ≡ manner.delivered self.old number) }
        ensures no_more { OnOk result (unanswered_in manner self.new ≤ unanswered_in manner self.old) };

    /// Time passes at a node.
    fn tick(&mut self, alloc: Global, node: NodeId) -> Mem<()>
        ensures exact { OnOk result (self.new ≡ manner.ticks self.old node) }
        ensures no_more { OnOk result (unanswered_in manner self.new ≤ unanswered_in manner self.old) };

    /// What a line asks for itself.
    fn open(&mut self, alloc: Global, work: &Work) -> Mem<()>
        requires { unanswered_in manner self.old + 1 < 2 ^ 64 }
        ensures exact { OnOk result (self.new ≡ manner.opens self.old work.now) }
        ensures one_more { OnOk result (unanswered_in manner self.new ≤ unanswered_in manner self.old + 1) };

    /// It keeps to what each such play does.
    ghost lawful: { IsLawful manner };
}

/// Time passes at every node, in their order.
#[tactic(auto, unfolding(crate::specs::Manner::playing_round))]
fn round<P: Playing>(alloc: Global, play: &mut P) -> Mem<()>
    ensures exact { OnOk result (play.new ≡ playing_round P.manner play.old) }
    ensures no_more { OnOk result (unanswered_in P.manner play.new ≤ unanswered_in P.manner play.old) }
{
    let cluster = play.cluster();
    for place in 0..cluster.count() {
        play.tick(alloc, cluster.node_at(place))?;
    }
    Ok(())
}

/// What comes next happens.
fn come<P: Playing>(alloc: Global, play: &mut P, next: Next) -> Mem<()>
    ensures exact { OnOk result (play.new ≡ playing_come P.manner play.old next) }
    ensures no_more { OnOk result (unanswered_in P.manner play.new ≤ unanswered_in P.manner play.old) }
{
    match next {
        Next::Deliver(number) => play.deliver(alloc, number),
        Next::Round => round(alloc, play),
        Next::Done => Ok(()),
    }
}

/// All that the schedule says happens for the line in hand.
#[tactic(auto, unfolding(crate::specs::Manner::playing_go))]
fn go<P: Playing>(alloc: Global, play: &mut P) -> Mem<()>
    ensures exact { OnOk result (play.new ≡ playing_go P.manner play.old) }
    ensures no_more { OnOk result (unanswered_in P.manner play.new ≤ unanswered_in P.manner play.old) }
{
    loop {
        let next = play.what_next();
        if next.is_done() {
            return Ok(());
        }
        come(alloc, play, next)?;
    }
}

/// Plays a line.
#[tactic(auto, unfolding(crate::specs::Manner::play_line))]
fn play_line<P: Playing>(alloc: Global, play: &mut P, line: &Line) -> Mem<()>
    requires { unanswered_in P.manner play.old + 1 < 2 ^ 64 }
    ensures exact { OnOk result (play.new ≡ play_line P.manner play.old line.now) }
    ensures one_more { OnOk result (unanswered_in P.manner play.new ≤ unanswered_in P.manner play.old + 1) }
{
    play.open(alloc, &line.work)?;
    go(alloc, play)
}

/// Plays all lines of a script, in a play of which no item was begun.
pub fn play_lines<P: Playing>(alloc: Global, play: &mut P, script: &Script) -> Mem<()>
    requires { unanswered_in P.manner play.old ≡ 0 }
    ensures { OnOk result (play.new ≡ fold (play_line P.manner) play.old script.now.lines) }
{
    for line in script.lines.as_slice() {
        play_line(alloc, play, line)?;
    }
    Ok(())
}
