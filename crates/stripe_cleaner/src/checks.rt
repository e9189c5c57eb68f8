//! The blocks of a segment that is emptied, and what is known of each.
ghost use Rattle.std.specs.Prelude.{◌≡◌, ◌++◌, ◌+◌, ◌<◌, IfOk, OnOk, map, min};
ghost use Rattle.segment_format.specs.Rule.{no_item};
ghost use Rattle.xfs_base.specs.Limits.{u32_end};
ghost use Rattle.stripe_cleaner.specs.Checks.{check_of, checks_of, moved_once, after_live, after_dead, after_moved, live_at, dead_at, moved_at, is_asked, is_live, is_dead, is_awaited, any_asked, any_live, all_dead, question, questions, move_of, moves};

use crate::output::Out;
use segment_format::Item;
use std::alloc::Global;
use std::mem;
use xfs_base::{BlockId, Crosses, Entry, List, Mem, Place, SegRef, Value};

/// What is known of a block of a segment that is emptied.
#[derive(Drop)]
pub enum Fate {
    /// Its manager is asked whether it lies there.
    Asked(Value),
    /// It lies there and is to be moved: the entry of the moved block, and its value.
    Live(Entry, Value),
    /// It was moved, and its manager is asked again whether it lies at the old place.
    Moved,
    /// It does not lie there.
    Dead,
}

/// A block of a segment that is emptied.
pub struct Check {
    /// The block.
    pub block: BlockId,
    /// The number of its item in the segment.
    pub item: u16,
    /// What is known of it.
    pub fate: Fate,
}

impl Drop for Check {
    fn drop(self) {
        let Check {
            block: _,
            item: _,
            fate,
        } = self;
        drop(fate);
    }
}

impl Crosses for Fate {}

impl Crosses for Check {}

impl Fate {
    fn live(self, entry: Entry) -> Fate
        requires { entry.hop < u32_end }
        ensures { result ≡ after_live entry self }
    {
        match self {
            Fate::Asked(value) => Fate::Live(moved_once(entry), value),
            Fate::Live(entry, value) => Fate::Live(entry, value),
            Fate::Moved => Fate::Moved,
            Fate::Dead => Fate::Dead,
        }
    }

    fn after_live(&mut self, entry: Entry)
        requires { entry.hop < u32_end }
        ensures { self.new ≡ after_live entry self.old }
    {
        let fate = mem::replace(self, Fate::Dead);
        drop(mem::replace(self, fate.live(entry)));
    }

    fn after_dead(&mut self)
        ensures { self.new ≡ after_dead self.old }
    {
        match self {
            Fate::Asked(_) => drop(mem::replace(self, Fate::Dead)),
            Fate::Moved => drop(mem::replace(self, Fate::Dead)),
            Fate::Live(_, _) | Fate::Dead => {}
        }
    }

    fn after_moved(&mut self)
        ensures { self.new ≡ after_moved self.old }
    {
        match self {
            Fate::Live(_, _) => drop(mem::replace(self, Fate::Moved)),
            Fate::Asked(_) | Fate::Moved | Fate::Dead => {}
        }
    }

    fn is_asked(&self) -> bool
        ensures { result ≡ is_asked self.now }
    {
        match self {
            Fate::Asked(_) => true,
            Fate::Live(_, _) | Fate::Moved | Fate::Dead => false,
        }
    }

    fn is_live(&self) -> bool
        ensures { result ≡ is_live self.now }
    {
        match self {
            Fate::Live(_, _) => true,
            Fate::Asked(_) | Fate::Moved | Fate::Dead => false,
        }
    }

    fn is_dead(&self) -> bool
        ensures { result ≡ is_dead self.now }
    {
        match self {
            Fate::Dead => true,
            Fate::Asked(_) | Fate::Live(_, _) | Fate::Moved => false,
        }
    }

    fn is_awaited(&self) -> bool
        ensures { result ≡ is_awaited self.now }
    {
        match self {
            Fate::Asked(_) | Fate::Moved => true,
            Fate::Live(_, _) | Fate::Dead => false,
        }
    }
}

impl Check {
    fn live_at(&mut self, block: BlockId, entry: Entry)
        requires { entry.hop < u32_end }
        ensures { self.new ≡ live_at block entry self.old }
    {
        if self.block.is_same(block) {
            self.fate.after_live(entry);
        }
    }

    fn dead_at(&mut self, block: BlockId)
        ensures { self.new ≡ dead_at block self.old }
    {
        if self.block.is_same(block) {
            self.fate.after_dead();
        }
    }

    fn moved_at(&mut self)
        ensures { self.new ≡ moved_at self.old }
    {
        self.fate.after_moved();
    }
}

// The entry of a block that is moved once more.
fn moved_once(entry: Entry) -> Entry
    requires { entry.hop < u32_end }
    ensures { result ≡ moved_once entry }
{
    Entry {
        hop: entry.hop + 1,
        ..entry
    }
}

/// Each Block among the items is asked for.
pub(crate) fn checks_of(alloc: Global, items: List<Item>) -> Mem<List<Check>>
    ensures { IfOk result (λ checks. checks ≡ checks_of 0 items) }
{
    let mut checks = List::new(alloc);
    let mut number = 0u16;
    for item in items.into_vec() {
        add_check(&mut checks, number, item)?;
        number = next_number(number);
    }
    Ok(checks)
}

// The number after; it does not pass its type's end.
fn next_number(number: u16) -> u16
    ensures { result ≡ min (number + 1) no_item }
{
    number.saturating_add(1)
}

fn add_check(checks: &mut List<Check>, number: u16, item: Item) -> Mem<()>
    ensures { OnOk result (checks.new ≡ checks.old ++ check_of number item) }
{
    match item {
        Item::Block { block, value } => {
            checks.push(Check {
                block,
                item: number,
                fate: Fate::Asked(value),
            })?;
        }
        Item::Delta { .. } | Item::Part { .. } => {}
    }
    Ok(())
}

/// What a Live of a block makes of them.
pub(crate) fn all_live_at(checks: List<Check>, block: BlockId, entry: Entry) -> List<Check>
    requires { entry.hop < u32_end }
    ensures { result ≡ map (live_at block entry) checks }
{
    let mut all = checks.into_vec();
    for check in all.iter_mut() {
        check.live_at(block, entry);
    }
    List::from_vec(all)
}

/// What a Dead of a block makes of them.
pub(crate) fn all_dead_at(checks: List<Check>, block: BlockId) -> List<Check>
    ensures { result ≡ map (dead_at block) checks }
{
    let mut all = checks.into_vec();
    for check in all.iter_mut() {
        check.dead_at(block);
    }
    List::from_vec(all)
}

/// What the settling of the move makes of them.
pub(crate) fn all_moved(checks: List<Check>) -> List<Check>
    ensures { result ≡ map moved_at checks }
{
    let mut all = checks.into_vec();
    for check in all.iter_mut() {
        check.moved_at();
    }
    List::from_vec(all)
}

/// Whether one is asked for.
pub(crate) fn any_asked(checks: &[Check]) -> bool
    ensures { result ≡ any_asked checks.now }
{
    for check in checks {
        if check.fate.is_asked() {
            return true;
        }
    }
    false
}

/// Whether one is live.
pub(crate) fn any_live(checks: &[Check]) -> bool
    ensures { result ≡ any_live checks.now }
{
    for check in checks {
        if check.fate.is_live() {
            return true;
        }
    }
    false
}

/// Whether each is dead.
pub(crate) fn all_dead(checks: &[Check]) -> bool
    ensures { result ≡ all_dead checks.now }
{
    checks.iter().all(|check| check.fate.is_dead())
}

/// Asks for those whose answers are awaited.
pub(crate) fn add_questions(outs: &mut List<Out>, segment: SegRef, checks: &[Check]) -> Mem<()>
    ensures { OnOk result (outs.new ≡ outs.old ++ questions segment checks.now) }
{
    for check in checks {
        if let Some(question) = question_of(segment, check) {
            outs.push(question)?;
        }
    }
    Ok(())
}

fn question_of(segment: SegRef, check: &Check) -> Option<Out>
    ensures { result ≡ question segment check.now }
{
    if !check.fate.is_awaited() {
        return None;
    }
    let place = Place {
        seg: segment,
        item: check.item,
    };
    Some(Out::Check {
        block: check.block,
        place,
    })
}

/// What is live, as it is to be written.
pub(crate) fn moves_of(alloc: Global, checks: &[Check]) -> Mem<List<(BlockId, Entry, Value)>>
    ensures { IfOk result (λ all. all ≡ moves checks.now) }
{
    let mut all = List::new(alloc);
    for check in checks {
        if let Some(one) = move_of(alloc, check)? {
            all.push(one)?;
        }
    }
    Ok(all)
}

fn move_of(alloc: Global, check: &Check) -> Mem<Option<(BlockId, Entry, Value)>>
    ensures { IfOk result (λ one. one ≡ move_of check.now.block check.now.fate) }
{
    match &check.fate {
        Fate::Live(entry, value) => Ok(Some((check.block, *entry, value.copy(alloc)?))),
        Fate::Asked(_) | Fate::Moved | Fate::Dead => Ok(None),
    }
}
