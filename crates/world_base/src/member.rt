//! What a node of a world is.
ghost use Rattle.std.specs.Prelude.{◌≡◌, IfOk};
ghost use Rattle.world_base.specs.Cluster.{HasNode};
ghost use Rattle.node_base.specs.Setups.{IsSetup};

use std::alloc::Global;
use version_model::Work;
use wire_msg::Actor;
use xfs_base::{List, Mem, NodeId, Setup};

/// A node that stands in a world from the start of a run.
pub trait Member: Actor + Drop {
    ghost use Rattle.std.specs.Prelude.{List as Seq};
    ghost use Rattle.version_model.specs.declared.work.Work.{Work};
    ghost use Rattle.xfs_base.specs.declared.node.NodeId.{NodeId};
    ghost use Rattle.xfs_base.specs.declared.setup.Setup.{Setup};

    /// The node of this name in a run of this setup before its first event, with its items.
    ghost first: { NodeId → Setup → Seq Work → Self };

    /// The node before its first event.
    fn start(alloc: Global, node: NodeId, setup: &Setup, items: List<Work>) -> Mem<Self>
        requires setup { IsSetup setup.now }
        requires node { HasNode setup.now node }
        ensures { IfOk result (λ started. started ≡ first node setup.now items) };
}
