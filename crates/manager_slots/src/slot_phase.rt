//! What a manager has of a slot.
ghost use Rattle.std.specs.Prelude.{◌≡◌, IfOk};
ghost use Rattle.manager_slots.specs.Slots.{epoch_of, is_active, is_taking, slot_phase_has_room, fetch_of, first_active};

use node_base::{Asked, has_long_room, has_room};
use std::alloc::Global;
use takeover::Take;
use token_manager::Slot;
use xfs_base::limits::BY_LOG;
use xfs_base::{List, Mem, SegName, SegRef};

/// What a manager has of a slot of the manager map.
#[derive(Drop)]
pub enum SlotPhase {
    /// It isn't the slot's manager: the newest epoch that it knows of.
    Away {
        /// The epoch.
        epoch: u32,
    },
    /// It takes the slot over.
    Taking(Taking),
    /// It manages the slot.
    Active(Active),
    /// It can't manage the slot, since a segment that the index needs is lost.
    Broken {
        /// The epoch.
        epoch: u32,
        /// The segment.
        seg: SegName,
    },
}

/// A slot that is being taken over.
pub struct Taking {
    /// The epoch of the slot.
    pub epoch: u32,
    /// The takeover.
    pub take: Take,
    /// The question of its round.
    pub fetches: Asked,
}

impl Drop for Taking {
    fn drop(self) {
        let Taking {
            epoch: _,
            take,
            fetches: _,
        } = self;
        drop(take);
    }
}

/// A slot that is managed.
pub struct Active {
    /// Its tokens and its index.
    pub slot: Slot,
    /// The segments of the checkpoint that was last sent in this epoch.
    pub parts: List<SegRef>,
}

impl Drop for Active {
    fn drop(self) {
        let Active { slot, parts } = self;
        drop(slot);
        drop(parts);
    }
}

impl SlotPhase {
    /// The newest epoch of the slot that the manager knows of.
    pub fn epoch(&self) -> u32
        ensures { result ≡ epoch_of self.now }
    {
        match self {
            SlotPhase::Away { epoch } => *epoch,
            SlotPhase::Taking(taking) => taking.epoch,
            SlotPhase::Active(active) => active.slot.epoch(),
            SlotPhase::Broken { epoch, .. } => *epoch,
        }
    }

    /// Whether the manager manages the slot.
    pub fn is_active(&self) -> bool
        ensures { result ≡ is_active self.now }
    {
        matches!(self, SlotPhase::Active(_))
    }

    /// Whether the manager takes the slot over.
    pub fn is_taking(&self) -> bool
        ensures { result ≡ is_taking self.now }
    {
        matches!(self, SlotPhase::Taking(_))
    }

    /// Whether each counter is at least 65,536 below its end.
    pub fn has_room(&self) -> bool
        ensures { result ≡ slot_phase_has_room self.now }
    {
        has_room(self.epoch())
            && match self {
                SlotPhase::Active(active) => has_long_room(active.slot.turn()),
                _ => true,
            }
    }

    /// The number that the takeover gave the question that is answered; none where it awaits another.
    pub fn fetch_of(&self, ask: u32) -> Option<u32>
        ensures { result ≡ fetch_of self.now ask }
    {
        match self {
            SlotPhase::Taking(taking) => taking.fetches.own(ask),
            _ => None,
        }
    }
}

/// A slot of which nothing is known but that it is managed from the start of a run.
pub(crate) fn first_active(alloc: Global) -> Mem<SlotPhase>
    ensures { IfOk result (λ phase. phase ≡ first_active) }
{
    let applied = List::from_vec(vec![in alloc; 0u32; BY_LOG]?);
    Ok(SlotPhase::Active(Active {
        slot: Slot::start(alloc, 1, List::new(alloc), List::new(alloc), applied)?,
        parts: List::new(alloc),
    }))
}
