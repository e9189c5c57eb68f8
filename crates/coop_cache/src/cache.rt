//! The clean blocks of a client, by their last use.
ghost use Rattle.std.specs.Prelude.{◌≡◌, ◌<◌, ◌++◌, OnOk, IfOk, map, option_to_list, if◌then◌else◌};
ghost use Rattle.std.specs.Option.{option_map};
ghost use Rattle.xfs_base.specs.declared.block.BlockId.{BlockId};
ghost use Rattle.coop_cache.specs.declared.output.Out.TheVariants.{Victim};
ghost use Rattle.coop_cache.specs.CacheState.{cache_start};
ghost use Rattle.coop_cache.specs.Transition.{cache_clean, touch, cache_leave, transition};

use crate::{In, Out};
use lru::LruCache;
use std::alloc::Global;
use std::marker::Model;
use std::num::NonZeroUsize;
use xfs_base::{BlockId, Crosses, List, Mem};

/// The clean blocks of a client in the order of their last use. Contracts see a record of the list of
/// them, from the least to the most recently used, and how many there may be.
pub struct Cache {
    blocks: LruCache<BlockId, ()>,
}

impl Drop for Cache {
    fn drop(self) {
        let Cache { blocks } = self;
        drop(blocks);
    }
}

impl Model for Cache {
    ghost use Rattle.std.specs.Prelude.{reverse};
    ghost use Rattle.std.specs.Map.{keys_of};
    ghost use Rattle.coop_cache.specs.CacheState.{CacheState};

    ghost Value = { CacheState };

    ghost view = { λ c. record { blocks = reverse (keys_of c.blocks.entries); capacity = c.blocks.cap } };
}

impl Crosses for Cache {}

impl Cache {
    /// An empty cache of that many clean blocks at most. The capacity is above 0.
    pub fn start(alloc: Global, capacity: u16) -> Mem<Cache>
        requires { 0 < capacity }
        ensures { IfOk result (λ cache. cache ≡ cache_start capacity) }
    {
        let capacity = NonZeroUsize::new(usize::from(capacity)).unwrap();
        Ok(Cache {
            blocks: LruCache::sparse(alloc, capacity)?,
        })
    }

    /// One step: what the cache is after the input, and what it gives. After want of memory nothing is said
    /// of the cache.
    pub fn take(&mut self, alloc: Global, input: In) -> Mem<List<Out>>
        ensures state { OnOk result (self.new ≡ (transition self.old input).state) }
        ensures outs { IfOk result (λ outs. outs ≡ (transition self.old input).outs) }
    {
        let mut outs = List::new(alloc);
        match input {
            In::Clean(block) => {
                let victim = self.clean(block)?;
                add_victim(&mut outs, victim)?;
            }
            In::Touch(block) => self.touch(block),
            In::Dirty(block) => self.leave(block),
            In::Gone(block) => self.leave(block),
        }
        Ok(outs)
    }

    // Here and below, the count shows that each block stands once and that all fit.
    fn clean(&mut self, block: BlockId) -> Mem<Option<BlockId>>
        ensures state { OnOk result (self.new ≡ (cache_clean self.old block).state) }
        ensures outs { IfOk result (λ victim. map Victim (option_to_list victim) ≡ (cache_clean self.old block).outs) }
    {
        let _count = self.blocks.len();
        let was_here = self.blocks.contains(&block);
        let old = self.blocks.push(block, ())?;
        Ok(pushed_out(old, was_here))
    }

    fn touch(&mut self, block: BlockId)
        ensures { self.new ≡ touch self.old block }
    {
        let _count = self.blocks.len();
        let _was_here = self.blocks.promote(&block);
    }

    fn leave(&mut self, block: BlockId)
        ensures { self.new ≡ cache_leave self.old block }
    {
        let _count = self.blocks.len();
        let _was_here = self.blocks.pop(&block);
    }
}

// The block that left for a new one; none where the block was there before.
fn pushed_out(old: Option<(BlockId, ())>, was_here: bool) -> Option<BlockId>
    ensures { result ≡ (if was_here then None else option_map (λ (e : BlockId × Unit {0}). e.0) old) }
{
    if was_here {
        return None;
    }
    match old {
        Some((block, ())) => Some(block),
        None => None,
    }
}

fn add_victim(outs: &mut List<Out>, victim: Option<BlockId>) -> Mem<()>
    ensures { OnOk result (outs.new ≡ outs.old ++ map Victim (option_to_list victim)) }
{
    match victim {
        Some(block) => outs.push(Out::Victim(block)),
        None => Ok(()),
    }
}
