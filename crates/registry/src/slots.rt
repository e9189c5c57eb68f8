//! The slots of the manager map, all at once.
ghost use Rattle.std.specs.Prelude.{◌≡◌, fold};
ghost use Rattle.registry.specs.Slots.{entry_of, raise_one, can_rise_one, can_rise};

use manager_map::{ManagerMap, SlotEntry};
use xfs_base::Ino;
use xfs_base::limits::BY_SLOT;

/// All slots.
pub(crate) const SLOTS: [u8; BY_SLOT] = [0, 1, 2, 3, 4, 5, 6, 7];

/// What a slot has.
pub(crate) fn entry_of(managers: &ManagerMap, slot: u8) -> SlotEntry
    ensures { result ≡ entry_of managers.now slot }
{
    managers.of(Ino(u32::from(slot)))
}

#[tactic(auto, unfolding(crate::specs::Slots::raise_one))]
fn raise_one(managers: &mut ManagerMap, slot: u8, manager: u8)
    ensures { managers.new ≡ raise_one manager managers.old slot }
{
    if entry_of(managers, slot).manager == manager {
        match managers.advance(slot, manager) {
            Ok(_) => {}
            Err(_) => {}
        }
    }
}

/// Gives the slots of a manager to it again, each under its next epoch.
pub(crate) fn raise(managers: &mut ManagerMap, slots: &[u8], manager: u8)
    ensures { managers.new ≡ fold (raise_one manager) managers.old slots.now }
{
    for slot in slots {
        raise_one(managers, *slot, manager);
    }
}

fn can_rise_one(managers: &ManagerMap, slot: u8, manager: u8) -> bool
    ensures { result ≡ can_rise_one manager managers.now slot }
{
    let entry = entry_of(managers, slot);
    entry.manager != manager || entry.epoch < u32::MAX
}

/// Whether each slot of a manager has a next epoch.
pub(crate) fn can_rise(managers: &ManagerMap, manager: u8) -> bool
    ensures { result ≡ can_rise manager managers.now }
{
    SLOTS
        .iter()
        .all(|slot| can_rise_one(managers, *slot, manager))
}
