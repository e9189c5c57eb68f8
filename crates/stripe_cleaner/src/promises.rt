//! The epochs that the cleaner has promised, by slot.
ghost use Rattle.std.specs.Prelude.{◌≡◌};
ghost use Rattle.stripe_cleaner.specs.Promises.{promised_at, is_promised, is_above, promised_with, promised_of};

use xfs_base::SlotNews;
use xfs_base::limits::{BY_SLOT, SLOT_COUNT};

/// The epoch that is promised of a slot; 0 where none is.
fn promised_at(promised: &[u32; BY_SLOT], slot: u8) -> u32
    ensures { result ≡ promised_at promised.now slot }
{
    match promised.get(usize::from(slot)) {
        Some(epoch) => *epoch,
        None => 0,
    }
}

/// Whether an epoch of a slot is the promised one.
pub(crate) fn is_promised(promised: &[u32; BY_SLOT], slot: u8, epoch: u32) -> bool
    ensures { result ≡ is_promised promised.now slot epoch }
{
    slot < SLOT_COUNT && epoch == promised_at(promised, slot)
}

/// Whether an epoch of a slot is above the promised one.
pub(crate) fn is_above(promised: &[u32; BY_SLOT], slot: u8, epoch: u32) -> bool
    ensures { result ≡ is_above promised.now slot epoch }
{
    slot < SLOT_COUNT && promised_at(promised, slot) < epoch
}

/// The promises with this epoch of a slot, where it is above.
pub(crate) fn promised_with(promised: &[u32; BY_SLOT], slot: u8, epoch: u32) -> [u32; BY_SLOT]
    ensures { result ≡ promised_with promised.now slot epoch }
{
    let mut promises = *promised;
    if is_above(promised, slot, epoch) {
        promises[usize::from(slot)] = epoch;
    }
    promises
}

/// The promises with the epochs of these slots.
pub(crate) fn promised_of(slots: &[SlotNews], promised: &[u32; BY_SLOT]) -> [u32; BY_SLOT]
    ensures { result ≡ promised_of slots.now promised.now }
{
    let mut promises = *promised;
    for news in slots {
        promises = promised_with(&promises, news.slot, news.epoch);
    }
    promises
}
