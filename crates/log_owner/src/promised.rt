//! What an owner of a log has promised to whom.
ghost use Rattle.std.specs.Prelude.{◌≡◌, IfOk};
ghost use Rattle.std.specs.List.{list_all};
ghost use Rattle.node_base.specs.Room.{has_room};
ghost use Rattle.log_owner.specs.Promised.{manager_of, managers_set, first_number, managers_start, promised_start, epoch_of, promise_to, promised_of};

use node_base::has_room;
use std::alloc::Global;
use xfs_base::limits::{BY_SLOT, SLOT_COUNT};
use xfs_base::{List, Mem, NodeId, SlotNews};

/// The manager of each slot, as the node knows them.
#[derive(Clone, Copy, PartialEq, Eq)]
pub struct Managers {
    /// Their numbers, by slot.
    pub numbers: [u8; BY_SLOT],
}

impl Managers {
    /// Those of the start, where there are this many managers: they have the slots in turn.
    pub fn start(managers: u8) -> Managers
        ensures { result ≡ managers_start managers }
    {
        Managers {
            numbers: [
                first_number(managers, 0),
                first_number(managers, 1),
                first_number(managers, 2),
                first_number(managers, 3),
                first_number(managers, 4),
                first_number(managers, 5),
                first_number(managers, 6),
                first_number(managers, 7),
            ],
        }
    }

    /// The manager of a slot; the first one where there is no such slot.
    pub fn of(self, slot: u8) -> NodeId
        ensures { result ≡ manager_of self slot }
    {
        match self.numbers.get(usize::from(slot)) {
            Some(number) => NodeId::Manager(*number),
            None => NodeId::Manager(1),
        }
    }

    /// A slot has this manager from now on.
    pub fn set(&mut self, slot: u8, manager: u8)
        ensures { self.new ≡ managers_set self.old slot manager }
    {
        if slot < SLOT_COUNT {
            self.numbers[usize::from(slot)] = manager;
        }
    }
}

// The number of the manager that a slot has at the start.
fn first_number(managers: u8, slot: u8) -> u8
    ensures { result ≡ first_number managers slot }
{
    if managers == 0 {
        1
    } else {
        slot % managers + 1
    }
}

/// Which epoch each slot is promised to, and its manager.
#[derive(Clone, Copy, PartialEq, Eq)]
pub struct Promised {
    /// The epochs, by slot.
    pub epochs: [u32; BY_SLOT],
    /// The managers.
    pub managers: Managers,
}

impl Promised {
    /// Those of the start: each slot is at epoch 1.
    pub fn start(managers: u8) -> Promised
        ensures { result ≡ promised_start managers }
    {
        Promised {
            epochs: [1; BY_SLOT],
            managers: Managers::start(managers),
        }
    }

    /// Those of maps, whose slots are 0 to 7 in order.
    pub fn of(slots: &[SlotNews]) -> Promised
        ensures { result ≡ promised_of slots.now }
    {
        let mut promised = Promised::start(1);
        for news in slots {
            promised.promise(news.slot, news.epoch, news.manager);
        }
        promised
    }

    /// The epoch of a slot; 0 where there is no such slot.
    pub fn epoch(self, slot: u8) -> u32
        ensures { result ≡ epoch_of self slot }
    {
        match self.epochs.get(usize::from(slot)) {
            Some(epoch) => *epoch,
            None => 0,
        }
    }

    /// A slot is promised to this epoch of this manager from now on.
    pub fn promise(&mut self, slot: u8, epoch: u32, manager: u8)
        ensures { self.new ≡ promise_to self.old slot epoch manager }
    {
        if slot < SLOT_COUNT {
            self.epochs[usize::from(slot)] = epoch;
            self.managers.set(slot, manager);
        }
    }

    /// Whether each epoch is at least 65,536 below its end.
    pub fn has_room(&self) -> bool
        ensures { result ≡ list_all has_room self.now.epochs }
    {
        self.epochs.iter().all(|epoch| has_room(*epoch))
    }

    /// The epochs as a list, by slot.
    pub fn listed(&self, alloc: Global) -> Mem<List<u32>>
        ensures { IfOk result (λ epochs. epochs ≡ self.now.epochs) }
    {
        Ok(List::from_vec(Vec::from_slice(alloc, &self.epochs)?))
    }
}
