//! The manager as what it does at each event.
use crate::Manager;
use std::alloc::Global;
use version_model::Act;
use wire_msg::{Actor, Do, Packet};
use xfs_base::{List, Mem};

impl Actor for Manager {
    ghost use Rattle.manager_node.specs.Events.{manager_step};
    ghost use Rattle.manager_node.specs.Clocks.{manager_sends_clock_0};

    ghost transition = { manager_step };

    fn step(&mut self, alloc: Global, what: &Do) -> Mem<(List<Packet>, List<Act>)> {
        self.turn(alloc, what)
    }

    ghost no_clock = { manager_sends_clock_0 };
}
