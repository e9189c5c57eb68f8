//! What of an event counts in the course of a play.
ghost use Rattle.std.specs.Prelude.{◌≡◌, OnOk, fold};
ghost use Rattle.node_base.specs.Setups.{IsSetup};
ghost use Rattle.world_base.specs.NextWorld.{next_world, start_world};
ghost use Rattle.disk_play.specs.Courses.{course_note, course_settle, course_send, with_world};

use crate::Course;
use crate::replay::world_after;
use crate::stop::Fate;
use play::{answers_since, send_since};
use script_text::Script;
use std::alloc::Global;
use std::mem;
use world_base::{Event, Member};
use xfs_base::Mem;

impl<N> Course<N> {
    // What was sent since there was so much goes out.
    fn send(&mut self, sent: usize) -> Mem<()>
        ensures { OnOk result (self.new ≡ course_send self.old sent) }
    {
        let now = self.player.world.sent.len();
        send_since(&mut self.player.schedule, sent, now)
    }

    // An event that made the world what it is stands behind the others, and what it answered is no longer unanswered.
    fn note(&mut self, event: Event, done: usize) -> Mem<()>
        ensures { OnOk result (self.new ≡ course_note self.old event done) }
    {
        let answered = answers_since(self.player.world.acts.as_slice(), done);
        self.player.events.push(event)?;
        self.player.unanswered = self.player.unanswered.saturating_sub(answered);
        Ok(())
    }
}

impl<N: Member> Course<N> {
    // The world is what it was before the last event, of which nothing counts.
    fn take_back(&mut self, alloc: Global, script: &Script) -> Mem<()>
        requires { IsSetup script.now.setup }
        ensures { OnOk result (self.new ≡ with_world self.old (fold (next_world N.transition) (start_world N.first script.now) self.old.player.events)) }
    {
        let world = world_after(alloc, script, self.player.events.as_slice())?;
        drop(mem::replace(&mut self.player.world, world));
        Ok(())
    }

    /// What of an event counts that made the world what it is, since so many packets were sent and so many acts done.
    pub fn settle(
        &mut self,
        alloc: Global,
        script: &Script,
        fate: Fate,
        event: Event,
        sent: usize,
        done: usize,
    ) -> Mem<()>
        requires { IsSetup script.now.setup }
        ensures { OnOk result (self.new ≡ course_settle N.transition N.first script.now fate self.old event sent done) }
    {
        match fate {
            Fate::Answered => {
                self.send(sent)?;
                self.note(event, done)
            }
            Fate::Unanswered => self.note(event, done),
            Fate::Lost => {
                drop(event);
                self.take_back(alloc, script)
            }
        }
    }
}
