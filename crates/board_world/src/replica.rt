//! The registry that a board keeps.
ghost use Rattle.std.specs.Prelude.{◌≡◌, ◌++◌, Some, IfOk, OnOk};
ghost use Rattle.node_base.specs.Setups.{IsSetup};
ghost use Rattle.board_world.specs.Replicas.{replica_start, at_clock, replica_happen, replica_apply};

use crate::projecting::{begun_by, is_due};
use board::Command;
use registry_node::RegistryNode;
use script_text::Script;
use std::alloc::Global;
use wire_msg::{Actor, Do, SharedPacket};
use world_base::items_of;
use world_base::turn::{clock_after, send_all};
use xfs_base::{Crosses, List, Mem, NodeId};

/// The registry that a board keeps: it takes the commands that the board applies.
pub struct Replica {
    /// The registry.
    pub node: RegistryNode,
    /// The clock of its last event.
    pub clock: u64,
    /// How many of its items the commands have begun.
    pub begun: u32,
}

impl Drop for Replica {
    fn drop(self) {
        let Replica {
            node,
            clock: _,
            begun: _,
        } = self;
        drop(node);
    }
}

impl Crosses for Replica {}

impl Replica {
    /// The registry before the first event of a script, with its items.
    pub fn start(alloc: Global, script: &Script) -> Mem<Replica>
        requires { IsSetup script.now.setup }
        ensures { IfOk result (λ replica. replica ≡ replica_start script.now) }
    {
        let items = items_of(alloc, script.lines.as_slice(), NodeId::Registry)?;
        Ok(Replica {
            node: RegistryNode::start(alloc, 0, &script.setup, items)?,
            clock: 0,
            begun: 0,
        })
    }

    // This happens to it; nothing does where its clock would pass the end of all clocks.
    #[tactic(auto, unfolding(crate::specs::Replicas::replica_happen))]
    fn happen(&mut self, alloc: Global, handed: &mut List<SharedPacket>, what: &Do) -> Mem<()>
        ensures state { OnOk result (self.new ≡ (replica_happen self.old what.now).state) }
        ensures handed { OnOk result (handed.new ≡ handed.old ++ (replica_happen self.old what.now).outs) }
    {
        match clock_after(self.clock, what) {
            None => Ok(()),
            Some(clock) => self.turn(alloc, handed, clock, what),
        }
    }

    fn turn(
        &mut self,
        alloc: Global,
        handed: &mut List<SharedPacket>,
        clock: u64,
        what: &Do,
    ) -> Mem<()>
        ensures state { OnOk result (self.new ≡ (at_clock self.old what.now (Some clock)).state) }
        ensures handed { OnOk result (handed.new ≡ handed.old ++ (at_clock self.old what.now (Some clock)).outs) }
    {
        let (packets, acts) = self.node.step(alloc, what)?;
        drop(acts);
        send_all(alloc, handed, clock, packets)?;
        self.clock = clock;
        Ok(())
    }

    /// A command is applied, in a run in which the registry has so many items. What the registry sends is put behind
    /// what was handed on. A Begin of another item than the next is nothing.
    #[tactic(auto, unfolding(crate::specs::Replicas::replica_apply))]
    pub fn apply(
        &mut self,
        alloc: Global,
        items: usize,
        handed: &mut List<SharedPacket>,
        command: &Command,
    ) -> Mem<()>
        ensures state { OnOk result (self.new ≡ (replica_apply items self.old command.now).state) }
        ensures handed { OnOk result (handed.new ≡ handed.old ++ (replica_apply items self.old command.now).outs) }
    {
        if !is_due(items, self.begun, command) {
            return Ok(());
        }
        self.begun = begun_by(self.begun, command);
        self.happen(alloc, handed, &command.what)
    }
}
