//! What a manager grants: modes, and the stamps that order its words.
ghost use Rattle.std.specs.Prelude.{◌≡◌};
ghost use Rattle.xfs_base.specs.Modes.{is_nothing, is_held, is_own, same_mode, allows};
ghost use Rattle.xfs_base.specs.Stamps.{stamp_cmp, is_later};

use std::cmp::Ordering;

/// When a manager said something: in which epoch of its slot, and by which turn in that epoch. The order
/// is by epoch, then by turn.
#[derive(Clone, Copy, PartialEq, Eq, PartialOrd, Ord)]
pub struct Stamp {
    /// The epoch of the slot; it rises each time the slot gets a manager.
    pub epoch: u32,
    /// The turn, which the manager raises for each grant, forward and recall.
    pub turn: u64,
}

impl Stamp {
    /// Where this stamp stands to another.
    pub fn order(self, other: Stamp) -> Ordering
        ensures { result ≡ stamp_cmp self other }
    {
        self.cmp(&other)
    }

    /// Whether this stamp is later than another.
    pub fn is_after(self, other: Stamp) -> bool
        ensures { result ≡ is_later self other }
    {
        self > other
    }
}

/// What a client may do with a block that it caches (the 1996 paper, "Cache Consistency").
#[derive(Clone, Copy, PartialEq, Eq, PartialOrd, Ord)]
pub enum Mode {
    /// It holds nothing.
    Nothing,
    /// It may read.
    Copy,
    /// It may read and write, and no other client holds the block.
    Own,
}

impl Mode {
    /// Whether nothing is held.
    pub fn is_nothing(self) -> bool
        ensures { result ≡ is_nothing self }
    {
        !self.is_held()
    }

    /// Whether something is held: `Copy` or `Own`.
    pub fn is_held(self) -> bool
        ensures { result ≡ is_held self }
    {
        match self {
            Mode::Nothing => false,
            Mode::Copy | Mode::Own => true,
        }
    }

    /// Whether the holder may write.
    pub fn is_own(self) -> bool
        ensures { result ≡ is_own self }
    {
        match self {
            Mode::Own => true,
            Mode::Nothing | Mode::Copy => false,
        }
    }

    /// Whether both are one mode.
    pub fn is_same(self, other: Mode) -> bool
        ensures { result ≡ same_mode self other }
    {
        matches!(
            (self, other),
            (Mode::Nothing, Mode::Nothing) | (Mode::Copy, Mode::Copy) | (Mode::Own, Mode::Own)
        )
    }

    /// Whether it lets its holder do what needs another mode.
    pub fn allows(self, needed: Mode) -> bool
        ensures { result ≡ allows self needed }
    {
        match needed {
            Mode::Nothing => true,
            Mode::Copy => self.is_held(),
            Mode::Own => self.is_own(),
        }
    }
}
