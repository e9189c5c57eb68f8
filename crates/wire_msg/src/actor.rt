//! What all nodes are.
ghost use Rattle.std.specs.Prelude.{◌≡◌, IfOk};

use crate::{Do, Packet};
use std::alloc::Global;
use version_model::Act;
use xfs_base::{List, Mem};

/// A node, as what it does at each event. Whoever runs the nodes sets the clocks of the packets.
pub trait Actor: Sized {
    ghost use Rattle.wire_msg.specs.declared.packet.Do.{Do};
    ghost use Rattle.wire_msg.specs.NodeStep.{NodeStep, HaveNoClock};

    /// The node's transition: what an event makes of the node, and what the node sends and does.
    ghost transition: { Self → Do → NodeStep Self };

    /// One step: the packets that the node sends at the event, and the acts that it does. A node that wants memory is
    /// given up with its run.
    fn step(&mut self, alloc: Global, what: &Do) -> Mem<(List<Packet>, List<Act>)>
        ensures { IfOk result (λ told. record { node = self.new; packets = told.0; acts = told.1 } ≡ transition self.old what.now) };

    /// A transition sends its packets with clock 0.
    ghost no_clock: { (node : Self) (what : Do) → HaveNoClock (transition node what).packets };
}
