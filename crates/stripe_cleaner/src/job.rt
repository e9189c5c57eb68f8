//! The emptying of the chosen segments, one after the other.
ghost use Rattle.std.specs.Prelude.{◌≡◌, ◌++◌, ◌∷◌, [], ◌<◌, Some, IfOk, OnOk};
ghost use Rattle.xfs_base.specs.Limits.{u32_end};
ghost use Rattle.stripe_cleaner.specs.declared.output.Out.TheVariants.{Finished, Move};
ghost use Rattle.stripe_cleaner.specs.declared.phase.Phase.TheVariants.{Checking, Over};
ghost use Rattle.stripe_cleaner.specs.Checks.{live_at, dead_at, moves};
ghost use Rattle.stripe_cleaner.specs.Job.{next, servers_in, servers_of, deletes, job_delete, job_go_on, on_deleted, job_check, on_read, job_look, on_answer, is_moving, on_moved};

use crate::checks::{
    Check, all_dead, all_dead_at, all_live_at, all_moved, any_asked, any_live, checks_of, moves_of,
};
use crate::listing::{is_among, without};
use crate::output::Out;
use crate::phase::Phase;
use group_map::{Group, GroupMap};
use segment_format::Segment;
use std::alloc::Global;
use std::collections::VecDeque;
use std::marker::Model;
use xfs_base::{BlockId, Crosses, Entry, List, Mem, SegName, SegRef};

/// What a job keeps while it empties segments. Contracts see it as a record.
pub struct Job {
    groups: GroupMap,
    left: VecDeque<SegRef>,
    deleted: u32,
}

impl Drop for Job {
    fn drop(self) {
        let Job {
            groups,
            left,
            deleted: _,
        } = self;
        drop(groups);
        drop(left);
    }
}

impl Model for Job {
    ghost use Rattle.stripe_cleaner.specs.JobState.{JobState};

    ghost Value = { JobState };

    ghost view = { λ j. record { groups = j.groups; left = j.left.items; deleted = j.deleted } };
}

impl Crosses for Job {}

impl Job {
    /// The same with these groups.
    pub(crate) fn with_groups(mut self, groups: GroupMap) -> Job
        ensures { result ≡ record self { groups = groups } }
    {
        self.groups = groups;
        self
    }

    /// These segments are to be emptied.
    pub(crate) fn begin(groups: GroupMap, left: VecDeque<SegRef>) -> Job
        ensures { result ≡ record { groups = groups; left = left.items; deleted = 0 } }
    {
        Job {
            groups,
            left,
            deleted: 0,
        }
    }

    /// The next segment is read; where none is left, the job is over.
    pub(crate) fn next(mut self, outs: &mut List<Out>) -> Mem<Phase>
        ensures phase { IfOk result (λ phase. phase ≡ (next self).state) }
        ensures outs { OnOk result (outs.new ≡ outs.old ++ (next self).outs) }
    {
        match self.left.pop_front() {
            None => self.finish(outs),
            Some(segment) => Phase::Reading { job: self, segment }.asking(outs),
        }
    }

    fn finish(self, outs: &mut List<Out>) -> Mem<Phase>
        ensures phase { IfOk result (λ phase. phase ≡ Over) }
        ensures outs { OnOk result (outs.new ≡ outs.old ++ Finished self.deleted ∷ []) }
    {
        let deleted = self.deleted;
        drop(self);
        outs.push(Out::Finished(deleted))?;
        Ok(Phase::Over)
    }

    /// The present segment was read; one that is lost is passed over.
    pub(crate) fn on_read(
        self,
        alloc: Global,
        outs: &mut List<Out>,
        segment: SegRef,
        read: Option<Segment>,
    ) -> Mem<Phase>
        ensures phase { IfOk result (λ phase. phase ≡ (on_read read self segment).state) }
        ensures outs { OnOk result (outs.new ≡ outs.old ++ (on_read read self segment).outs) }
    {
        match read {
            None => self.next(outs),
            Some(read) => self.check_read(alloc, outs, segment, read),
        }
    }

    fn check_read(
        self,
        alloc: Global,
        outs: &mut List<Out>,
        segment: SegRef,
        read: Segment,
    ) -> Mem<Phase>
        ensures phase { IfOk result (λ phase. phase ≡ (on_read (Some read) self segment).state) }
        ensures outs { OnOk result (outs.new ≡ outs.old ++ (on_read (Some read) self segment).outs) }
    {
        if !read.name.is_same(segment.name) {
            drop(read);
            return Ok(Phase::Reading { job: self, segment });
        }
        match checks_of(alloc, read.into_items()) {
            Ok(checks) => self.check(alloc, outs, segment, checks),
            Err(error) => {
                drop(self);
                Err(error)
            }
        }
    }

    // Each of these is asked for; without any the segment is deleted.
    #[tactic(auto, unfolding(crate::specs::Job::job_check))]
    fn check(
        self,
        alloc: Global,
        outs: &mut List<Out>,
        segment: SegRef,
        checks: List<Check>,
    ) -> Mem<Phase>
        ensures phase { IfOk result (λ phase. phase ≡ (job_check self segment checks).state) }
        ensures outs { OnOk result (outs.new ≡ outs.old ++ (job_check self segment checks).outs) }
    {
        if all_dead(checks.as_slice()) {
            drop(checks);
            return self.delete(alloc, outs, segment);
        }
        let phase = Phase::Checking {
            job: self,
            segment,
            checks,
        };
        phase.asking(outs)
    }

    /// A block of the present segment is live.
    pub(crate) fn on_live(
        self,
        alloc: Global,
        outs: &mut List<Out>,
        segment: SegRef,
        checks: List<Check>,
        block: BlockId,
        entry: Entry,
    ) -> Mem<Phase>
        requires { entry.hop < u32_end }
        ensures phase { IfOk result (λ phase. phase ≡ (on_answer (live_at block entry) self segment checks).state) }
        ensures outs { OnOk result (outs.new ≡ outs.old ++ (on_answer (live_at block entry) self segment checks).outs) }
    {
        let was_asked = any_asked(checks.as_slice());
        let checks = all_live_at(checks, block, entry);
        self.look(alloc, outs, segment, was_asked, checks)
    }

    /// A block of the present segment is dead.
    pub(crate) fn on_dead(
        self,
        alloc: Global,
        outs: &mut List<Out>,
        segment: SegRef,
        checks: List<Check>,
        block: BlockId,
    ) -> Mem<Phase>
        ensures phase { IfOk result (λ phase. phase ≡ (on_answer (dead_at block) self segment checks).state) }
        ensures outs { OnOk result (outs.new ≡ outs.old ++ (on_answer (dead_at block) self segment checks).outs) }
    {
        let was_asked = any_asked(checks.as_slice());
        let checks = all_dead_at(checks, block);
        self.look(alloc, outs, segment, was_asked, checks)
    }

    // Once the last is answered, what is live is moved; a segment of which each block is dead is deleted.
    #[tactic(auto, unfolding(crate::specs::Job::job_look))]
    fn look(
        self,
        alloc: Global,
        outs: &mut List<Out>,
        segment: SegRef,
        was_asked: bool,
        checks: List<Check>,
    ) -> Mem<Phase>
        ensures phase { IfOk result (λ phase. phase ≡ (job_look self segment was_asked checks).state) }
        ensures outs { OnOk result (outs.new ≡ outs.old ++ (job_look self segment was_asked checks).outs) }
    {
        if all_dead(checks.as_slice()) {
            drop(checks);
            return self.delete(alloc, outs, segment);
        }
        if was_asked && !any_asked(checks.as_slice()) {
            return self.start_move(alloc, outs, segment, checks);
        }
        Ok(Phase::Checking {
            job: self,
            segment,
            checks,
        })
    }

    fn start_move(
        self,
        alloc: Global,
        outs: &mut List<Out>,
        segment: SegRef,
        checks: List<Check>,
    ) -> Mem<Phase>
        ensures phase { IfOk result (λ phase. phase ≡ Checking self segment checks) }
        ensures outs { OnOk result (outs.new ≡ outs.old ++ Move (moves checks) ∷ []) }
    {
        match add_move(alloc, outs, checks.as_slice()) {
            Ok(()) => Ok(Phase::Checking {
                job: self,
                segment,
                checks,
            }),
            Err(error) => {
                drop(self);
                drop(checks);
                Err(error)
            }
        }
    }

    /// What was live in the present segment is moved, and is asked for again.
    pub(crate) fn on_moved(
        self,
        outs: &mut List<Out>,
        segment: SegRef,
        checks: List<Check>,
    ) -> Mem<Phase>
        ensures phase { IfOk result (λ phase. phase ≡ (on_moved self segment checks).state) }
        ensures outs { OnOk result (outs.new ≡ outs.old ++ (on_moved self segment checks).outs) }
    {
        if !is_moving(checks.as_slice()) {
            return Ok(Phase::Checking {
                job: self,
                segment,
                checks,
            });
        }
        let phase = Phase::Checking {
            job: self,
            segment,
            checks: all_moved(checks),
        };
        phase.asking(outs)
    }

    // Each of its members' servers is to delete the segment.
    fn delete(self, alloc: Global, outs: &mut List<Out>, segment: SegRef) -> Mem<Phase>
        ensures phase { IfOk result (λ phase. phase ≡ (job_delete self segment).state) }
        ensures outs { OnOk result (outs.new ≡ outs.old ++ (job_delete self segment).outs) }
    {
        match servers_of(alloc, &self.groups, segment) {
            Ok(servers) => {
                let phase = Phase::Deleting {
                    job: self,
                    segment,
                    servers,
                };
                phase.asking(outs)
            }
            Err(error) => {
                drop(self);
                Err(error)
            }
        }
    }

    /// A server has deleted the present segment. Where all have, it is counted, and the next is read.
    pub(crate) fn on_deleted(
        self,
        alloc: Global,
        outs: &mut List<Out>,
        segment: SegRef,
        servers: List<u8>,
        server: u8,
        name: SegName,
    ) -> Mem<Phase>
        ensures phase { IfOk result (λ phase. phase ≡ (on_deleted server name self segment servers).state) }
        ensures outs { OnOk result (outs.new ≡ outs.old ++ (on_deleted server name self segment servers).outs) }
    {
        if !name.is_same(segment.name) || !is_among(servers.as_slice(), server) {
            return Ok(Phase::Deleting {
                job: self,
                segment,
                servers,
            });
        }
        match without(alloc, servers, server) {
            Ok(servers) => self.go_on(outs, segment, servers),
            Err(error) => {
                drop(self);
                Err(error)
            }
        }
    }

    fn go_on(mut self, outs: &mut List<Out>, segment: SegRef, servers: List<u8>) -> Mem<Phase>
        ensures phase { IfOk result (λ phase. phase ≡ (job_go_on self segment servers).state) }
        ensures outs { OnOk result (outs.new ≡ outs.old ++ (job_go_on self segment servers).outs) }
    {
        if !servers.is_empty() {
            return Ok(Phase::Deleting {
                job: self,
                segment,
                servers,
            });
        }
        drop(servers);
        self.deleted = self.deleted.saturating_add(1);
        self.next(outs)
    }
}

// What is live is to be moved.
fn add_move(alloc: Global, outs: &mut List<Out>, checks: &[Check]) -> Mem<()>
    ensures { OnOk result (outs.new ≡ outs.old ++ Move (moves checks.now) ∷ []) }
{
    let moves = moves_of(alloc, checks)?;
    outs.push(Out::Move(moves))
}

// Whether a move is awaited.
fn is_moving(checks: &[Check]) -> bool
    ensures { result ≡ is_moving checks.now }
{
    !any_asked(checks) && any_live(checks)
}

// The servers of the segment's members, in order.
fn servers_of(alloc: Global, groups: &GroupMap, segment: SegRef) -> Mem<List<u8>>
    ensures { IfOk result (λ servers. servers ≡ servers_of groups.now segment) }
{
    match groups.lookup(segment.group) {
        Ok(group) => servers_in(alloc, group),
        Err(_) => Ok(List::new(alloc)),
    }
}

fn servers_in(alloc: Global, group: &Group) -> Mem<List<u8>>
    ensures { IfOk result (λ servers. servers ≡ servers_in (Some group.now)) }
{
    let mut servers = List::new(alloc);
    for member in group.members.as_slice() {
        servers.push(member.server)?;
    }
    Ok(servers)
}

/// Has these servers delete the segment.
pub(crate) fn add_deletes(outs: &mut List<Out>, name: SegName, servers: &[u8]) -> Mem<()>
    ensures { OnOk result (outs.new ≡ outs.old ++ deletes name servers.now) }
{
    for server in servers {
        outs.push(Out::Delete {
            server: *server,
            name,
        })?;
    }
    Ok(())
}
