//! What a slot has.
ghost use Rattle.std.specs.Prelude.{◌≡◌, ◌≤◌};
ghost use Rattle.manager_map.specs.Slots.{first_entry, next_entry};

use xfs_base::Crosses;

/// The manager of a slot, and the epoch since which it is. The epoch counts the slot's managers from 1.
#[derive(Clone, Copy, PartialEq, Eq)]
pub struct SlotEntry {
    /// The number of this assignment among those of its slot, from 1.
    pub epoch: u32,
    /// The manager, from 1.
    pub manager: u8,
}

impl Crosses for SlotEntry {}

impl SlotEntry {
    // Where a slot starts.
    pub(crate) fn first(slot: u8, managers: u8) -> SlotEntry
        requires { 1 ≤ managers }
        ensures { result ≡ first_entry managers slot }
    {
        SlotEntry {
            epoch: 1,
            manager: slot % managers + 1,
        }
    }

    // The slot's next assignment. There is none after the last epoch, and the entry stays.
    pub(crate) fn moved(self, manager: u8) -> SlotEntry
        ensures { result ≡ next_entry self manager }
    {
        if self.epoch == u32::MAX {
            return self;
        }
        SlotEntry {
            epoch: self.epoch + 1,
            manager,
        }
    }
}
