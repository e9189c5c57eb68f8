//! The segment that a job of the cleaner has in hand.
ghost use Rattle.std.specs.Prelude.{◌≡◌, ◌++◌, [], length, IfOk, OnOk, None, Some};
ghost use Rattle.std.specs.BTreeMap.{insert_entry};
ghost use Rattle.stripe_code.specs.Stripe.{IsCut};
ghost use Rattle.xfs_base.specs.Blocks.{block_cmp};
ghost use Rattle.cleaner_job.specs.Hands.{is_in_hand, known_group, hand_begin, take_over, take_in_hand, hand_fetch, fetches, hand_hear, hand_confirmed, asked_of, kept_ask, hand_check};

use group_map::{Group, GroupMap};
use log_owner::send_fetch;
use node_base::{Effects, Questions};
use segment_reading::{Next, Reading, Target, known_group};
use std::alloc::Global;
use std::collections::BTreeMap;
use std::marker::Model;
use std::mem;
use stripe_code::Told;
use xfs_base::{BlockId, Crosses, Mem, SegName, SegRef};

/// For each block of the segment in hand the question of its newest check. Contracts see the list of both,
/// by block.
pub struct Checks {
    asks: BTreeMap<BlockId, u32>,
}

impl Drop for Checks {
    fn drop(self) {
        let Checks { asks } = self;
        drop(asks);
    }
}

impl Model for Checks {
    ghost use Rattle.std.specs.Prelude.{List as Seq, ℕ};
    ghost use Rattle.xfs_base.specs.declared.block.BlockId.{BlockId};

    ghost Value = { Seq (BlockId × ℕ) };

    ghost view = { λ checks. checks.asks.entries };
}

impl Crosses for Checks {}

/// The segment that is emptied.
pub struct Hand {
    /// The segment.
    pub seg: SegRef,
    /// How it is read, until that is done.
    pub reading: Option<Reading>,
    /// For each of its blocks the question of the newest check.
    pub checks: Checks,
    /// Whether what was live in it is moved, so that each check is a new question.
    pub moved: bool,
    /// Whether it is dropped.
    pub dropped: bool,
}

impl Drop for Hand {
    fn drop(self) {
        let Hand {
            seg: _,
            reading,
            checks,
            moved: _,
            dropped: _,
        } = self;
        drop(reading);
        drop(checks);
    }
}

impl Crosses for Hand {}

impl Checks {
    fn new(alloc: Global) -> Checks
        ensures { result ≡ [] }
    {
        Checks {
            asks: BTreeMap::new(alloc),
        }
    }

    fn get(&self, block: BlockId) -> Option<u32>
        ensures { result ≡ asked_of self.now block }
    {
        self.asks.get(&block).copied()
    }

    fn set(&mut self, block: BlockId, ask: u32) -> Mem<()>
        ensures { OnOk result (self.new ≡ insert_entry block_cmp self.old block ask) }
    {
        self.asks.insert(block, ask)?;
        Ok(())
    }
}

impl Hand {
    /// Asks the servers that have not answered for their fragments.
    pub fn fetch(&self, alloc: Global, effects: &mut Effects) -> Mem<()>
        ensures { OnOk result (effects.new ≡ effects.old ++ hand_fetch self.now.seg.name self.now.reading) }
    {
        match &self.reading {
            None => Ok(()),
            Some(reading) => fetch_all(alloc, effects, self.seg.name, reading),
        }
    }

    /// A server tells of its fragment.
    #[tactic(auto, unfolding(crate::specs::Hands::hand_hear))]
    pub fn hear(
        &mut self,
        alloc: Global,
        groups: &GroupMap,
        ask: u32,
        server: u8,
        told: Told,
    ) -> Mem<Next>
        ensures state { OnOk result (self.new ≡ (hand_hear self.old groups.now ask server told).state) }
        ensures next { IfOk result (λ next. next ≡ (hand_hear self.old groups.now ask server told).next) }
    {
        match &mut self.reading {
            // It is dropped by a call, here and below, so that each part of it is dropped in one proof.
            None => {
                drop(told);
                Ok(Next::Wait)
            }
            Some(reading) => reading.take(alloc, groups, ask, server, told),
        }
    }

    /// What there is to ask between two rounds is answered.
    #[tactic(auto, unfolding(crate::specs::Hands::hand_confirmed))]
    pub fn confirmed(&mut self, alloc: Global, ask: u32) -> Mem<Next>
        ensures state { OnOk result (self.new ≡ (hand_confirmed self.old ask).state) }
        ensures next { IfOk result (λ next. next ≡ (hand_confirmed self.old ask).next) }
    {
        match &mut self.reading {
            None => Ok(Next::Wait),
            Some(reading) => reading.confirmed(alloc, ask),
        }
    }

    /// The question of the newest check of a block.
    pub fn asked(&self, block: BlockId) -> Option<u32>
        ensures { result ≡ asked_of self.now.checks block }
    {
        self.checks.get(block)
    }

    /// The question of a check: a new one for a block that wasn't checked, or that was moved.
    #[tactic(auto, unfolding(crate::specs::Hands::hand_check))]
    pub fn check(&mut self, questions: &mut Questions, block: BlockId) -> Mem<u32>
        ensures hand { OnOk result (self.new ≡ (hand_check self.old questions.old block).hand) }
        ensures questions { OnOk result (questions.new ≡ (hand_check self.old questions.old block).questions) }
        ensures ask { IfOk result (λ ask. ask ≡ (hand_check self.old questions.old block).ask) }
    {
        match self.kept_ask(block) {
            Some(ask) => Ok(ask),
            None => {
                let ask = questions.draw();
                self.checks.set(block, ask)?;
                Ok(ask)
            }
        }
    }

    fn kept_ask(&self, block: BlockId) -> Option<u32>
        ensures { result ≡ kept_ask self.now block }
    {
        if self.moved {
            return None;
        }
        self.asked(block)
    }
}

// Asks the servers that have not answered for their fragments of a segment.
fn fetch_all(alloc: Global, effects: &mut Effects, name: SegName, reading: &Reading) -> Mem<()>
    ensures { OnOk result (effects.new ≡ effects.old ++ hand_fetch name (Some reading.now)) }
{
    let ask = reading.ask();
    let servers = reading.unanswered(alloc)?;
    for server in servers.as_slice() {
        send_fetch(effects, *server, name, ask)?;
    }
    Ok(())
}

/// Asks for the fragments of the segment in hand, where there is one.
pub fn fetch(alloc: Global, effects: &mut Effects, hand: &Option<Hand>) -> Mem<()>
    ensures { OnOk result (effects.new ≡ effects.old ++ fetches hand.now) }
{
    match hand {
        None => Ok(()),
        Some(hand) => hand.fetch(alloc, effects),
    }
}

/// The segment is in hand already, or its reading begins; none is in hand where its group isn't known.
#[tactic(auto, unfolding(crate::specs::Hands::take_in_hand))]
pub(crate) fn take_in_hand(
    alloc: Global,
    groups: &Option<GroupMap>,
    questions: &mut Questions,
    hand: &mut Option<Hand>,
    seg: SegRef,
) -> Mem<()>
    ensures hand { OnOk result (hand.new ≡ (take_in_hand groups.now questions.old hand.old seg).hand) }
    ensures questions { OnOk result (questions.new ≡ (take_in_hand groups.now questions.old hand.old seg).questions) }
{
    if is_in_hand(hand, seg) {
        return Ok(());
    }
    let taken = take_over(alloc, groups, questions, seg)?;
    drop(mem::replace(hand, taken));
    Ok(())
}

fn is_in_hand(hand: &Option<Hand>, seg: SegRef) -> bool
    ensures { result ≡ is_in_hand hand.now seg }
{
    match hand {
        Some(hand) => hand.seg.is_same(seg),
        None => false,
    }
}

// The reading of a segment begins, where its group is known.
fn take_over(
    alloc: Global,
    groups: &Option<GroupMap>,
    questions: &mut Questions,
    seg: SegRef,
) -> Mem<Option<Hand>>
    ensures hand { IfOk result (λ hand. hand ≡ (take_over questions.old seg (known_group groups.now seg.group)).hand) }
    ensures questions { OnOk result (questions.new ≡ (take_over questions.old seg (known_group groups.now seg.group)).questions) }
{
    match known_group(groups, seg.group) {
        None => Ok(None),
        Some(group) => {
            let hand = begin(alloc, seg, group, questions.draw())?;
            Ok(Some(hand))
        }
    }
}

// The first round of the reading of a segment begins.
fn begin(alloc: Global, seg: SegRef, group: &Group, ask: u32) -> Mem<Hand>
    requires { IsCut (length group.now.members) group.now.parity }
    ensures { IfOk result (λ hand. hand ≡ hand_begin seg group.now ask) }
{
    let target = Target { seg, block: None };
    Ok(Hand {
        seg,
        reading: Some(Reading::start(alloc, target, group, ask)?),
        checks: Checks::new(alloc),
        moved: false,
        dropped: false,
    })
}
