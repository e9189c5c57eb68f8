//! The slots and their entries.
ghost use Rattle.std.specs.Prelude.{◌≡◌, ◌<◌, ◌≤◌, ◌+◌, ◌↔◌, IsErr, OnOk, OnErr, IfOk};
ghost use Rattle.xfs_base.specs.Blocks.{slot_of};
ghost use Rattle.xfs_base.specs.Limits.{u32_end};
ghost use Rattle.manager_map.specs.Slots.{manager_map_start, entry_at, manager_map_advance};

use crate::SlotEntry;
use std::marker::Model;
use xfs_base::limits::BY_SLOT;
use xfs_base::{Crosses, Ino};

/// No slot has this number: they are 0 to 7.
#[derive(Clone, Copy, PartialEq, Eq)]
pub struct BadSlot;

/// Which manager each slot has (the 1996 paper, "The Manager Map": it turns some bits of a file's
/// index number into its manager). Contracts see it as the entries of slots 0 to 7.
#[derive(Clone, Copy, PartialEq, Eq)]
pub struct ManagerMap {
    slots: [SlotEntry; BY_SLOT],
}

impl Model for ManagerMap {
    ghost use Rattle.std.specs.Prelude.{List, ◌≡◌, length};
    ghost use Rattle.xfs_base.specs.Limits.{slot_count};
    ghost use Rattle.manager_map.specs.declared.entry.SlotEntry.{SlotEntry};

    ghost Value = { List SlotEntry };

    ghost view = { λ m. m.slots };

    ghost invariant = { λ m. length m.slots ≡ slot_count };

    ghost inverse = { λ slots. record { slots = slots } };
}

impl Crosses for BadSlot {}

impl Crosses for ManagerMap {}

impl ManagerMap {
    /// The map that a cluster of this many managers starts with: slot i has manager (i mod managers) + 1
    /// and epoch 1. Takes no memory.
    pub fn start(managers: u8) -> ManagerMap
        requires { 1 ≤ managers }
        ensures { result ≡ manager_map_start managers }
    {
        let first = |slot|
            requires { 1 ≤ managers }
        { SlotEntry::first(slot, managers) };
        ManagerMap {
            slots: [0, 1, 2, 3, 4, 5, 6, 7].map(first),
        }
    }

    /// What the slot of a file has: the low 3 bits of its index number name the slot. Takes no memory.
    pub fn of(&self, ino: Ino) -> SlotEntry
        ensures { result ≡ entry_at self.now (slot_of ino.0) }
    {
        self.slots[usize::from(ino.slot())]
    }

    /// Gives a slot to a manager under its next epoch, and answers that epoch (the 1996 paper,
    /// "The Manager Map": it changes when managers come and go). A slot under the last epoch, 4,294,967,295,
    /// stays as it is, and the answer is that epoch. `BadSlot` comes exactly where the slot is above 7,
    /// and then nothing has changed. Takes no memory.
    pub fn advance(&mut self, slot: u8, manager: u8) -> Result<u32, BadSlot>
        ensures bad { IsErr result ↔ (7 < slot) }
        ensures unchanged { OnErr result (self.new ≡ self.old) }
        ensures moved { OnOk result (self.new ≡ manager_map_advance self.old slot manager) }
        ensures answer { IfOk result (λ epoch. epoch ≡ (entry_at self.new slot).epoch) }
        ensures raised { (entry_at self.old slot).epoch < u32_end
            → IfOk result (λ epoch. epoch ≡ (entry_at self.old slot).epoch + 1) }
    {
        if usize::from(slot) >= BY_SLOT {
            return Err(BadSlot);
        }
        let entry = self.slots[usize::from(slot)].moved(manager);
        self.slots[usize::from(slot)] = entry;
        Ok(entry.epoch)
    }
}
