//! One entry of a journal.
ghost use Rattle.std.specs.Prelude.{◌≡◌};

use version_model::Act;
use wire_msg::{Do, SharedPacket};
use xfs_base::{Crosses, List};

/// What happened to a node, and the node's clock after it; and what the node sent and did then, so that no
/// step need be taken again to know it.
pub struct Moment {
    /// The clock.
    pub clock: u64,
    /// What happened.
    pub what: Do,
    /// For a packet that came the place of its sender.
    pub from: usize,
    /// For a packet that came its number among all that the sender sent, from 0.
    pub number: u64,
    /// The packets that the node sent then, with the clock of this moment.
    pub packets: List<SharedPacket>,
    /// What the node did then.
    pub acts: List<Act>,
}

impl Drop for Moment {
    fn drop(self) {
        let (what, packets, acts) = self.into_told();
        drop(what);
        drop(packets);
        drop(acts);
    }
}

impl Moment {
    /// What happened, and what the node sent and did. It takes no memory.
    pub fn into_told(self) -> (Do, List<SharedPacket>, List<Act>)
        ensures what { result.0 ≡ self.what }
        ensures packets { result.1 ≡ self.packets }
        ensures acts { result.2 ≡ self.acts }
    {
        let Moment {
            clock: _,
            what,
            from: _,
            number: _,
            packets,
            acts,
        } = self;
        (what, packets, acts)
    }
}

impl Crosses for Moment {}
