//! Which blocks have a version that isn't settled, or a want, so that nobody has to look at all of them.
ghost use Rattle.std.specs.Prelude.{◌≡◌, ◌==◌, not, is_some, length, IfOk, OnOk};
ghost use Rattle.token_client.specs.Held.{is_dirty};
ghost use Rattle.token_client.specs.Marks.{MarksState, forget, mark, marks_new, note};
ghost use Rattle.token_client.specs.Transition.{is_spent};

use crate::held::{Held, Wanted};
use std::alloc::Global;
use std::collections::BTreeSet;
use std::marker::Model;
use xfs_base::{BlockId, Crosses, List, Mem};

/// Which blocks are to be found at once. Contracts see it as a record of lists of them, each in order.
pub(crate) struct Marks {
    // the newest version isn't settled
    unsettled: BTreeSet<BlockId>,
    // there is a want
    wanted: BTreeSet<BlockId>,
    // the want can't be counted once more
    spent: BTreeSet<BlockId>,
}

impl Drop for Marks {
    fn drop(self) {
        let Marks {
            unsettled,
            wanted,
            spent,
        } = self;
        drop(unsettled);
        drop(wanted);
        drop(spent);
    }
}

impl Model for Marks {
    ghost use Rattle.token_client.specs.Marks.{MarksState};

    ghost Value = { MarksState };

    ghost view = { λ m. record { unsettled = m.unsettled.keys; wanted = m.wanted.keys; spent = m.spent.keys } };
}

impl Crosses for Marks {}

impl Marks {
    /// No block is marked. It keeps the allocator and takes no memory.
    pub(crate) fn new(alloc: Global) -> Marks
        ensures { result ≡ marks_new }
    {
        Marks {
            unsettled: BTreeSet::new(alloc),
            wanted: BTreeSet::new(alloc),
            spent: BTreeSet::new(alloc),
        }
    }

    /// Marks a block by what is known of it.
    pub(crate) fn note(&mut self, block: BlockId, held: &Held) -> Mem<()>
        ensures { OnOk result (self.new ≡ note self.old block held.now) }
    {
        mark(&mut self.unsettled, block, held.is_dirty())?;
        mark(&mut self.wanted, block, held.want.is_some())?;
        mark(&mut self.spent, block, is_spent(held.want))?;
        Ok(())
    }

    /// A block is marked no longer. Takes no memory.
    pub(crate) fn forget(&mut self, block: BlockId)
        ensures { self.new ≡ forget self.old block }
    {
        self.unsettled.remove(&block);
        self.wanted.remove(&block);
        self.spent.remove(&block);
    }

    /// No block is marked any longer. Takes no memory.
    pub(crate) fn clear(&mut self)
        ensures { self.new ≡ marks_new }
    {
        self.unsettled.clear();
        self.wanted.clear();
        self.spent.clear();
    }

    /// The blocks whose newest version isn't settled, in order.
    pub(crate) fn unsettled(&self, alloc: Global) -> Mem<List<BlockId>>
        ensures { IfOk result (λ found. found ≡ self.now.unsettled) }
    {
        listed(alloc, &self.unsettled)
    }

    /// The blocks that have a want, in order.
    pub(crate) fn wanted(&self, alloc: Global) -> Mem<List<BlockId>>
        ensures { IfOk result (λ found. found ≡ self.now.wanted) }
    {
        listed(alloc, &self.wanted)
    }

    /// Whether some want can't be counted once more.
    pub(crate) fn has_spent(&self) -> bool
        ensures { result ≡ not (length self.now.spent == 0) }
    {
        self.spent.len() != 0
    }
}

// Puts a block into a set, or takes it out.
fn mark(set: &mut BTreeSet<BlockId>, block: BlockId, on: bool) -> Mem<()>
    ensures { OnOk result (set.new.keys ≡ mark on set.old.keys block) }
{
    if on {
        set.insert(block)?;
    } else {
        set.remove(&block);
    }
    Ok(())
}

// The blocks of a set, in order.
fn listed(alloc: Global, set: &BTreeSet<BlockId>) -> Mem<List<BlockId>>
    ensures { IfOk result (λ found. found ≡ set.now.keys) }
{
    let mut found = List::new(alloc);
    for block in set {
        found.push(*block)?;
    }
    Ok(found)
}

/// Whether a want can't be counted once more.
pub(crate) fn is_spent(want: Option<Wanted>) -> bool
    ensures { result ≡ is_spent want }
{
    match want {
        Some(want) => want.again == u32::MAX,
        None => false,
    }
}
