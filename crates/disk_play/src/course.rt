//! The course of a play with servers that stop: the play, and which servers are stopped.
ghost use Rattle.std.specs.Prelude.{◌≡◌, ◌<◌, ◌≤◌, IfOk, IfSome, OnOk, length, replicate, slice_set};
ghost use Rattle.disk_play.specs.Courses.{course_drain, running, seat_of, started_at, stops_at, course_tell, with_stop, course_take, course_wake};
ghost use Rattle.xfs_base.specs.declared.node.NodeId.TheVariants as nodes;

use crate::Stop;
use crate::counting::unanswered_of;
use play::Player;
use std::alloc::Global;
use version_model::Work;
use xfs_base::{List, Mem, NodeId};

/// A play in progress, with servers that stop.
pub struct Course<N> {
    /// The play.
    pub player: Player<N>,
    /// The stops of each server, in their order.
    pub stops: List<Stop>,
}

impl<N: Drop> Drop for Course<N> {
    fn drop(self) {
        let Course { player, stops } = self;
        drop(player);
        drop(stops);
    }
}

/// Where a server stands among the servers, and its stops.
#[derive(Clone, Copy, PartialEq, Eq)]
pub struct Seat {
    /// Its place among the servers, from 0.
    pub place: usize,
    /// Its stops.
    pub stop: Stop,
}

/// The seat of a node; none where it is no server.
pub fn seat_of(stops: &List<Stop>, node: NodeId) -> Option<Seat>
    ensures exact { result ≡ seat_of stops.now node }
    ensures within { IfSome result (λ seat. seat.place < length stops.now) }
{
    let NodeId::Server(number) = node else {
        return None;
    };
    if number == 0 {
        return None;
    }
    let place = usize::from(number) - 1;
    match stops.get(place) {
        None => None,
        Some(stop) => Some(Seat { place, stop: *stop }),
    }
}

/// Another stop in the place of one.
pub fn set_stop(stops: &mut List<Stop>, place: usize, stop: Stop)
    requires { place < length stops.old }
    ensures { stops.new ≡ slice_set stops.old place stop }
{
    if let Some(kept) = stops.get_mut(place) {
        *kept = stop;
    }
}

/// So many servers, all of which run.
pub fn all_running(alloc: Global, count: u8) -> Mem<List<Stop>>
    ensures { IfOk result (λ stops. stops ≡ replicate count running) }
{
    Ok(List::from_vec(vec![in alloc; Stop::running(); usize::from(count)]?))
}

impl<N> Course<N> {
    /// The play.
    pub fn into_player(self) -> Player<N>
        ensures { result ≡ self.player }
    {
        let Course { player, stops } = self;
        drop(stops);
        player
    }

    /// A stopped server is started; one that runs stays as it is.
    #[tactic(auto, unfolding(crate::specs::Courses::course_wake))]
    pub fn wake(&mut self, node: NodeId)
        ensures { self.new ≡ course_wake self.old node }
    {
        if let Some(seat) = seat_of(&self.stops, node) {
            if seat.stop.stopped {
                set_stop(&mut self.stops, seat.place, Stop::running());
            }
        }
    }

    /// The queue is drained, unless the packets are held back.
    pub fn drain(&mut self)
        ensures { self.new ≡ course_drain self.old }
    {
        self.player.schedule.item(self.player.unanswered);
    }

    // A stop is to come after so many writes and syncs.
    fn stop(&mut self, server: u8, passes: u32)
        ensures { self.new ≡ stops_at self.old (nodes.Server server) passes (seat_of self.old.stops (nodes.Server server)) }
    {
        let node = NodeId::Server(server);
        if let Some(seat) = seat_of(&self.stops, node) {
            if !seat.stop.stopped && unanswered_of(node, &self.player) == 0 {
                let stop = Stop {
                    stopped: false,
                    passes: Some(passes),
                };
                set_stop(&mut self.stops, seat.place, stop);
            }
        }
    }

    // A server is started, and no stop waits for it.
    fn start(&mut self, server: u8)
        ensures { self.new ≡ started_at self.old (seat_of self.old.stops (nodes.Server server)) }
    {
        if let Some(seat) = seat_of(&self.stops, NodeId::Server(server)) {
            set_stop(&mut self.stops, seat.place, Stop::running());
        }
    }

    // A line is told to the schedule.
    fn take(&mut self, work: &Work)
        ensures { self.new ≡ course_take self.old work.now }
    {
        self.player.schedule.take(work, self.player.unanswered);
    }

    /// A line that is no item: it stops a server or starts one, or is told to the schedule.
    #[tactic(auto, unfolding(crate::specs::Courses::course_tell))]
    pub fn tell(&mut self, work: &Work)
        ensures { self.new ≡ course_tell self.old work.now }
    {
        match work {
            Work::ServerStop { server, passes } => {
                self.stop(*server, *passes);
                self.take(work);
            }
            Work::ServerStart(server) => {
                self.start(*server);
                self.drain();
            }
            _ => self.take(work),
        }
    }
}
