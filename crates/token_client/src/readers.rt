//! What a node reads of its tokens.
ghost use Rattle.std.specs.Prelude.{◌≡◌, ◌<◌, None, Some, option_map, IfOk, MatchOption};
ghost use Rattle.xfs_base.specs.Limits.{slot_count};
ghost use Rattle.token_client.specs.Held.{is_dirty, may_write};
ghost use Rattle.token_client.specs.State.{held_of, held_in, dirty_in, epoch_of};
ghost use Rattle.token_client.specs.Repetitions.{repetition};

use crate::table::{may_write, repetition};
use crate::tokens::Tokens;
use std::alloc::Global;
use xfs_base::{BlockId, List, Mem, Mode, Place, Stamp, Value};

impl Tokens {
    /// What the client may do with a block.
    pub fn mode(&self, block: BlockId) -> Mode
        ensures { result ≡ (held_of self.now.blocks block).mode }
    {
        match self.blocks.get(block) {
            Some(held) => held.mode,
            None => Mode::Nothing,
        }
    }

    /// The version of a block's value; 0 where the block is unknown.
    pub fn ver(&self, block: BlockId) -> u64
        ensures { result ≡ (held_of self.now.blocks block).ver }
    {
        match self.blocks.get(block) {
            Some(held) => held.ver,
            None => 0,
        }
    }

    /// The greatest version of a block that is known to be settled.
    pub fn settled(&self, block: BlockId) -> u64
        ensures { result ≡ (held_of self.now.blocks block).settled }
    {
        match self.blocks.get(block) {
            Some(held) => held.settled,
            None => 0,
        }
    }

    /// The value of a block; none where no value is kept.
    pub fn value(&self, block: BlockId) -> Option<&Value>
        ensures { MatchOption result ((held_of self.now.blocks block).value ≡ None) (λ value. (held_of self.now.blocks block).value ≡ Some value.now) }
    {
        match self.blocks.get(block) {
            Some(held) => match &held.value {
                Some(value) => Some(value),
                None => None,
            },
            None => None,
        }
    }

    /// Where the fetch of a block reads; none where the block has no fetch.
    pub fn fetching(&self, block: BlockId) -> Option<Place>
        ensures { result ≡ option_map (λ fetch. fetch.place) (held_of self.now.blocks block).fetch }
    {
        match self.blocks.get(block) {
            Some(held) => held.fetch.map(|fetch| fetch.place),
            None => None,
        }
    }

    /// The number of a block's want; none where the block has no want.
    pub fn want(&self, block: BlockId) -> Option<u32>
        ensures { result ≡ option_map (λ want. want.req) (held_of self.now.blocks block).want }
    {
        match self.blocks.get(block) {
            Some(held) => held.want.map(|want| want.req),
            None => None,
        }
    }

    /// The recall of a block that is put off, with its stamp and whether a copy may stay; none where the
    /// block isn't being given up.
    pub fn giving(&self, block: BlockId) -> Option<(Stamp, bool)>
        ensures { result ≡ option_map (λ giving. (giving.stamp, giving.keep)) (held_of self.now.blocks block).giving }
    {
        match self.blocks.get(block) {
            Some(held) => held.giving.map(|giving| (giving.stamp, giving.keep)),
            None => None,
        }
    }

    /// The stamp of the last word of a manager on a block that was followed.
    pub fn stamp(&self, block: BlockId) -> Stamp
        ensures { result ≡ (held_of self.now.blocks block).stamp }
    {
        match self.blocks.get(block) {
            Some(held) => held.stamp,
            None => Stamp { epoch: 0, turn: 0 },
        }
    }

    /// The number of the last want; 0 where nothing was asked.
    pub fn asked(&self) -> u32
        ensures { result ≡ self.now.req }
    {
        self.req
    }

    /// How often the want of a block was sent again; 0 where the block has no want.
    pub fn repetition(&self, block: BlockId) -> u32
        ensures { result ≡ repetition (held_of self.now.blocks block).want }
    {
        match self.blocks.get(block) {
            Some(held) => repetition(held.want),
            None => 0,
        }
    }

    /// Whether a block may be written: it is owned, no recall of it is put off, and its version isn't the last of
    /// its type.
    pub fn may_write(&self, block: BlockId) -> bool
        ensures { result ≡ may_write (held_of self.now.blocks block) }
    {
        may_write(&self.blocks, block)
    }

    /// The epoch that a slot is promised to.
    pub fn promised(&self, slot: u8) -> u32
        requires { slot < slot_count }
        ensures { result ≡ epoch_of self.now.epochs slot }
    {
        self.epochs[usize::from(slot)]
    }

    /// The blocks of a slot that are held, by block, each with its mode Copy or Own.
    pub fn held(&self, alloc: Global, slot: u8) -> Mem<List<(BlockId, Mode)>>
        ensures { IfOk result (λ held. held ≡ held_in slot self.now.blocks) }
    {
        self.blocks.held(alloc, slot)
    }

    /// Whether the newest version of a block isn't settled.
    pub fn is_dirty(&self, block: BlockId) -> bool
        ensures { result ≡ is_dirty (held_of self.now.blocks block) }
    {
        match self.blocks.get(block) {
            Some(held) => held.is_dirty(),
            None => false,
        }
    }

    /// The blocks whose newest version isn't settled, by block.
    pub fn dirty(&self, alloc: Global) -> Mem<List<BlockId>>
        ensures { IfOk result (λ dirty. dirty ≡ dirty_in self.now.blocks) }
    {
        self.blocks.dirty(alloc)
    }
}
