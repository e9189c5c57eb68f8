//! A checkpoint that is being written.
ghost use Rattle.std.specs.Prelude.{◌≡◌, ◌++◌, take, drop, IfOk, OnOk};
ghost use Rattle.checkpoint.specs.WriterState.{items_of};

use segment_format::Item;
use std::alloc::Global;
use std::collections::VecDeque;
use std::marker::Model;
use xfs_base::{BlockId, Entry, List, Mem, SegRef};

/// How many Parts a segment has at most.
const PARTS: usize = 24;

/// A checkpoint that is being written. Contracts see it as a record: the slot, its epoch, the pages that
/// no segment has yet, the segments that will be named, and the horizon.
#[derive(Drop)]
pub struct Work {
    /// The slot.
    pub slot: u8,
    /// Its epoch when the checkpoint was begun.
    pub epoch: u32,
    /// The rows of each page that no segment has yet.
    pub left: VecDeque<List<(BlockId, Entry)>>,
    /// The segments that will be named: those named again, and those settled so far.
    pub parts: List<SegRef>,
    /// The horizon as it was when the checkpoint was begun.
    pub horizon: List<u32>,
}

impl Model for Work {
    ghost use Rattle.checkpoint.specs.WriterState.{WorkState};

    ghost Value = { WorkState };

    ghost view = { λ w. record { slot = w.slot; epoch = w.epoch; left = w.left.items; parts = w.parts; horizon = w.horizon } };
}

/// Lists in a queue, in their order.
pub(crate) fn queue_of(
    alloc: Global,
    pages: List<List<(BlockId, Entry)>>,
) -> Mem<VecDeque<List<(BlockId, Entry)>>>
    ensures { IfOk result (λ queue. queue.items ≡ pages) }
{
    let mut queue = VecDeque::new(alloc);
    for page in pages.into_vec() {
        queue.push_back(page)?;
    }
    Ok(queue)
}

impl Work {
    /// The Parts of the next segment, which leave what is left: one for each page, at most 24.
    pub(crate) fn next_items(&mut self, alloc: Global) -> Mem<List<Item>>
        ensures items { IfOk result (λ items. items ≡ items_of self.old.slot (take 24 self.old.left)) }
        ensures left { OnOk result (self.new ≡ record self.old { left = drop 24 self.old.left }) }
    {
        let mut items = List::new(alloc);
        for _ in 0..PARTS {
            self.add_item(&mut items)?;
        }
        Ok(items)
    }

    // The Part of the next page, where one is left.
    fn add_item(&mut self, items: &mut List<Item>) -> Mem<()>
        ensures items { OnOk result (items.new ≡ items.old ++ items_of self.old.slot (take 1 self.old.left)) }
        ensures left { OnOk result (self.new ≡ record self.old { left = drop 1 self.old.left }) }
    {
        if let Some(rows) = self.left.pop_front() {
            let slot = self.slot;
            items.push(Item::Part { slot, rows })?;
        }
        Ok(())
    }
}
