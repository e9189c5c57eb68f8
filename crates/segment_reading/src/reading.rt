//! Reading one segment in rounds, until it is read or lost.
ghost use Rattle.std.specs.Prelude.{◌≡◌, ◌&&◌, IfOk, OnOk, length, map, nat_lt, if◌then◌else◌};
ghost use Rattle.std.specs.List.{list_any};
ghost use Rattle.segment_format.specs.ReadingItems.{answer_of};
ghost use Rattle.stripe_code.specs.Round.{told_fits};
ghost use Rattle.stripe_code.specs.Stripe.{IsCut};
ghost use Rattle.segment_reading.specs.Lost.{missing_twice, same_pair};
ghost use Rattle.segment_reading.specs.Reading.{reading_start, reading_unanswered, reading_judge, reading_reads, reading_take, on_confirmed, is_asking, counts, ends, name_fits, segment_found};

use crate::Target;
use group_map::{Group, GroupMap, Member};
use segment_format::{SegError, Segment, decode};
use std::alloc::{AllocError, Global};
use std::marker::Model;
use std::mem;
use stripe_code::{Round, RoundState, Told};
use xfs_base::{List, Mem};

/// Where a reading stands.
#[derive(Clone, Copy)]
pub enum Stage {
    /// Servers are asked.
    Asking,
    /// A round ended without the segment; the reader's own question is out.
    Between,
    /// Two rounds, one after the other, missed the same fragments, more than the parity makes good; the
    /// reader's own question is out.
    Doubted,
    /// It is read or lost.
    Over,
}

/// What a reader does next.
#[derive(Drop)]
pub enum Next {
    /// Nothing: answers are awaited.
    Wait,
    /// A round begins: ask the servers that are `unanswered`, under the reading's new question.
    Ask,
    /// A round ended without the segment: ask the reader's own question, and say by `confirmed` when it
    /// is answered alike. A reader that has none says so at once.
    Again,
    /// The segment.
    Read(Segment),
    /// It is lost.
    Lost,
}

/// One segment that is being read.
pub struct Reading {
    target: Target,
    ask: u32,
    kept: List<(u8, u32)>,
    round: Round,
    stage: Stage,
}

impl Drop for Reading {
    fn drop(self) {
        let Reading {
            target: _,
            ask: _,
            kept,
            round,
            stage,
        } = self;
        drop(kept);
        drop(round);
        drop(stage);
    }
}

impl Model for Reading {
    ghost use Rattle.segment_reading.specs.Reading.{ReadingState};

    ghost Value = { ReadingState };

    ghost view = { λ r. record { target = r.target; ask = r.ask; kept = r.kept; round = r.round; stage = r.stage } };
}

impl Reading {
    /// Begins the first round, under this question of the reader.
    pub fn start(alloc: Global, target: Target, group: &Group, ask: u32) -> Mem<Reading>
        requires { IsCut (length group.now.members) group.now.parity }
        ensures { IfOk result (λ reading. reading ≡ reading_start target group.now ask) }
    {
        let servers = servers_of(alloc, group.members.as_slice())?;
        let n = group.members.len() as u8;
        let round = Round::start(alloc, n, group.parity, servers.as_slice())?;
        Ok(Reading {
            target,
            ask,
            kept: List::new(alloc),
            round,
            stage: Stage::Asking,
        })
    }

    /// What is looked for.
    pub fn target(&self) -> Target
        ensures { result ≡ self.now.target }
    {
        self.target
    }

    /// The question under which the present round asks.
    pub fn ask(&self) -> u32
        ensures { result ≡ self.now.ask }
    {
        self.ask
    }

    /// Where it stands.
    pub fn stage(&self) -> Stage
        ensures { result ≡ self.now.stage }
    {
        self.stage
    }

    /// The servers that are to be asked under the present question, when the round begins and at each tick:
    /// those of the group, in order of its members, that have not answered. None between rounds.
    pub fn unanswered(&self, alloc: Global) -> Mem<List<u8>>
        ensures { IfOk result (λ servers. servers ≡ reading_unanswered self.now) }
    {
        if self.stage.is_asking() {
            return self.round.unanswered(alloc);
        }
        Ok(List::new(alloc))
    }

    /// Takes what a server told in answer to a question. It is dropped unless a round is on, the question is
    /// the present one, the server is a member, and a fragment can be one of this segment's. After want of
    /// memory nothing is said of the reading.
    #[tactic(auto, unfolding(crate::specs::Reading::reading_take))]
    pub fn take(
        &mut self,
        alloc: Global,
        groups: &GroupMap,
        ask: u32,
        server: u8,
        told: Told,
    ) -> Mem<Next>
        ensures state { OnOk result (self.new ≡ (reading_take self.old groups.now ask server told).state) }
        ensures next { IfOk result (λ next. next ≡ (reading_take self.old groups.now ask server told).next) }
    {
        if !self.counts(ask, server, &told) {
            drop(told);
            return Ok(Next::Wait);
        }
        let stands = self.round.take(alloc, server, told)?;
        self.judge(alloc, groups, stands)
    }

    /// What the reader does next where its round stands so.
    fn judge(&mut self, alloc: Global, groups: &GroupMap, stands: RoundState) -> Mem<Next>
        ensures state { OnOk result (self.new ≡ (reading_judge self.old groups.now stands).state) }
        ensures next { IfOk result (λ next. next ≡ (reading_judge self.old groups.now stands).next) }
    {
        match stands {
            RoundState::Waiting => Ok(Next::Wait),
            RoundState::Short(pairs) => Ok(self.ends(pairs)),
            RoundState::Read(bytes) => {
                let read = found(alloc, &self.target, groups, bytes.as_slice())?;
                Ok(self.reads(alloc, read))
            }
        }
    }

    /// The text was of the segment, or else of another or of none.
    fn reads(&mut self, alloc: Global, read: Option<Segment>) -> Next
        ensures state { self.new ≡ (reading_reads self.old read).state }
        ensures next { result ≡ (reading_reads self.old read).next }
    {
        match read {
            Some(segment) => {
                self.stage = Stage::Over;
                Next::Read(segment)
            }
            None => self.ends(List::new(alloc)),
        }
    }

    /// The reader's own question was answered alike: a further round begins, under this question, or the
    /// segment is lost. While a round is on nothing changes. After want of memory nothing is said of the
    /// reading.
    #[tactic(auto, unfolding(crate::specs::Reading::on_confirmed))]
    pub fn confirmed(&mut self, alloc: Global, ask: u32) -> Mem<Next>
        ensures state { OnOk result (self.new ≡ (on_confirmed self.old ask).state) }
        ensures next { IfOk result (λ next. next ≡ (on_confirmed self.old ask).next) }
    {
        match self.stage {
            Stage::Between => {
                let round = self.round.anew(alloc)?;
                drop(mem::replace(&mut self.round, round));
                self.ask = ask;
                self.stage = Stage::Asking;
                Ok(Next::Ask)
            }
            Stage::Doubted => {
                self.stage = Stage::Over;
                Ok(Next::Lost)
            }
            Stage::Asking => Ok(Next::Wait),
            Stage::Over => Ok(Next::Wait),
        }
    }

    /// Whether an answer counts.
    fn counts(&self, ask: u32, server: u8, told: &Told) -> bool
        ensures { result ≡ counts self.now ask server told.now }
    {
        self.stage.is_asking()
            && ask == self.ask
            && self.round.asks(server)
            && may_be(&self.target, &self.round, told)
    }

    /// The round ended without the segment, and with these pairs.
    fn ends(&mut self, pairs: List<(u8, u32)>) -> Next
        ensures state { self.new ≡ (ends self.old pairs).state }
        ensures next { result ≡ (ends self.old pairs).next }
    {
        let again = same_count(self.kept.as_slice(), pairs.as_slice());
        self.stage = stage_after(self.round.parity(), again);
        drop(mem::replace(&mut self.kept, pairs));
        Next::Again
    }
}

impl Stage {
    /// Whether servers are asked.
    pub fn is_asking(self) -> bool
        ensures { result ≡ is_asking self }
    {
        match self {
            Stage::Asking => true,
            Stage::Between => false,
            Stage::Doubted => false,
            Stage::Over => false,
        }
    }
}

/// Where a reading stands after a round in which so many were Missing again.
fn stage_after(parity: u8, again: usize) -> Stage
    ensures { result ≡ (if nat_lt parity again then Stage.Doubted else Stage.Between) }
{
    if usize::from(parity) < again {
        Stage::Doubted
    } else {
        Stage::Between
    }
}

/// Whether what was told can be of the segment.
fn may_be(target: &Target, round: &Round, told: &Told) -> bool
    ensures { result ≡ (name_fits target.now told.now && told_fits round.now told.now) }
{
    match told {
        Told::Missing(_) => true,
        Told::Held(fragment) => {
            fragment.meta.name.is_same(target.seg.name) && round.fits(fragment)
        }
    }
}

/// The servers of members, in order.
fn servers_of(alloc: Global, members: &[Member]) -> Mem<List<u8>>
    ensures { IfOk result (λ servers. servers ≡ map (λ m. m.server) members.now) }
{
    let mut servers = List::new(alloc);
    for member in members {
        servers.push(member.server)?;
    }
    Ok(servers)
}

/// The segment whose text these bytes are, where it is the one that is looked for.
fn found(alloc: Global, target: &Target, groups: &GroupMap, bytes: &[u8]) -> Mem<Option<Segment>>
    ensures { IfOk result (λ segment. segment ≡ segment_found target.now groups.now (answer_of bytes.now)) }
{
    match decode(alloc, bytes) {
        Ok(segment) => {
            if target.is_met_by(&segment, groups) {
                Ok(Some(segment))
            } else {
                drop(segment);
                Ok(None)
            }
        }
        Err(SegError::Memory) => Err(AllocError),
        Err(_) => Ok(None),
    }
}

/// Whether the pair is among these.
fn is_among(pairs: &[(u8, u32)], pair: (u8, u32)) -> bool
    ensures { result ≡ list_any (same_pair pair) pairs.now }
{
    for other in pairs {
        if same_pair(pair, *other) {
            return true;
        }
    }
    false
}

fn same_pair(a: (u8, u32), b: (u8, u32)) -> bool
    ensures { result ≡ same_pair a b }
{
    a.0 == b.0 && a.1 == b.1
}

/// How many of the pairs of a round were Missing in the one before too.
fn same_count(before: &[(u8, u32)], now: &[(u8, u32)]) -> usize
    ensures { result ≡ length (missing_twice before.now now.now) }
{
    let mut count = 0;
    for pair in now {
        if is_among(before, *pair) {
            count += 1;
        }
    }
    count
}
