//! Whether a list of acts is legal.
ghost use Rattle.std.specs.Prelude.{◌≡◌, ◌↔◌, false, IfOk, OnOk, IsTrue};
ghost use Rattle.std.specs.List.{AllByRecursion};
ghost use Rattle.xfs_base.specs.Blocks.{same_block};
ghost use Rattle.version_model.specs.Effects.{after_act};
ghost use Rattle.version_model.specs.Legal.{IsLegalIn, IsVerdict, MayFall, NamesNoBlockTwice};
ghost use Rattle.version_model.specs.Shown.{shown};

use crate::histories::Histories;
use crate::{Act, Fall, FallTold, Verdict};
use std::alloc::Global;
use xfs_base::{BlockId, Mem};

/// Whether none of these falls is of a block.
fn spares(block: BlockId, falls: &[Fall]) -> bool
    ensures { IsTrue result ↔ AllByRecursion (λ fall. same_block block fall.block ≡ false) falls.now }
{
    for fall in falls {
        if block.is_same(fall.block) {
            return false;
        }
    }
    true
}

/// Whether no block is named twice.
fn names_no_block_twice(falls: &[Fall]) -> bool
    ensures { IsTrue result ↔ NamesNoBlockTwice falls.now }
{
    for place in 0..falls.len() {
        if !spares(falls[place].block, &falls[place + 1..]) {
            return false;
        }
    }
    true
}

impl Histories {
    /// Whether each of these blocks may fall as told.
    fn may_all_fall(&self, client: u8, falls: &[Fall]) -> bool
        ensures { IsTrue result ↔ AllByRecursion (λ fall. MayFall client ((shown self.now).of_block fall.block) fall) falls.now }
    {
        for fall in falls {
            if !self.may_fall(client, *fall) {
                return false;
            }
        }
        true
    }

    /// Whether an act is legal after those that led here.
    fn is_legal(&self, act: &Act) -> bool
        ensures { IsTrue result ↔ IsLegalIn act.now (shown self.now) }
    {
        match act {
            Act::Read {
                client: _,
                block,
                ver,
                value,
            } => self.is_newest(*block, *ver) && self.holds(*block, *ver, value),
            Act::Fell {
                client,
                flight: _,
                falls,
            } => {
                let falls = falls.as_slice();
                names_no_block_twice(falls) && self.may_all_fall(*client, falls)
            }
            _ => true,
        }
    }

    /// The histories after one act more.
    fn take(&mut self, alloc: Global, act: &Act) -> Mem<()>
        ensures { OnOk result (shown self.new ≡ after_act act.now (shown self.old)) }
    {
        match act {
            Act::Wrote {
                client,
                block,
                value,
            } => self.write(alloc, *block, value, *client),
            Act::Read {
                client,
                block,
                ver,
                value: _,
            } => self.read(alloc, *client, *block, *ver),
            Act::Synced { client } => {
                self.sync(*client);
                Ok(())
            }
            Act::Fell {
                client,
                flight,
                falls,
            } => {
                let falls = falls.copy(alloc)?;
                self.tell(
                    alloc,
                    *client,
                    FallTold {
                        flight: *flight,
                        falls,
                    },
                )
            }
            Act::Back { client, chain } => self.settle(alloc, *client, chain.as_slice()),
            _ => Ok(()),
        }
    }
}

/// Whether these acts are legal: `Legal` with their number exactly where each is legal after those before
/// it, else `Illegal` with the number of the first that is not, counted from 1. It takes time by the acts
/// and, for each `Synced`, by the versions of all blocks.
pub fn legal(alloc: Global, acts: &[Act]) -> Mem<Verdict>
    ensures { IfOk result (λ verdict. IsVerdict acts.now verdict) }
{
    let mut histories = Histories::new(alloc);
    for place in 0..acts.len() {
        let act = &acts[place];
        if !histories.is_legal(act) {
            return Ok(Verdict::Illegal(place as u64 + 1));
        }
        histories.take(alloc, act)?;
    }
    Ok(Verdict::Legal(acts.len() as u64))
}
