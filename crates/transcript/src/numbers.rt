//! The numbers of items, as their lines come.
ghost use Rattle.std.specs.Prelude.{◌≡◌, [], IfOk, OnOk};
ghost use Rattle.transcript.specs.Numbers.{last_of, next_of, numbers_next};

use crate::replies::ItemName;
use std::alloc::Global;
use std::collections::BTreeMap;
use std::marker::Model;
use xfs_base::{Mem, NodeId};

/// The number of the last item of each node.
pub struct Numbers {
    last: BTreeMap<NodeId, u32>,
}

impl Drop for Numbers {
    fn drop(self) {
        let Numbers { last } = self;
        drop(last);
    }
}

impl Model for Numbers {
    ghost use Rattle.transcript.specs.Numbers.{Numbers as Table};

    ghost Value = { Table };

    ghost view = { λ n. n.last.entries };
}

impl Numbers {
    /// Before the first line. It takes no memory.
    pub fn new(alloc: Global) -> Numbers
        ensures { result ≡ [] }
    {
        Numbers {
            last: BTreeMap::new(alloc),
        }
    }

    fn last(&self, node: NodeId) -> u32
        ensures { result ≡ last_of self.now node }
    {
        match self.last.get(&node) {
            Some(number) => *number,
            None => 0,
        }
    }

    /// The item that the next line of this node is.
    pub fn next(&mut self, node: NodeId) -> Mem<ItemName>
        ensures name { IfOk result (λ name. name ≡ record { node = node; number = next_of self.old node }) }
        ensures noted { OnOk result (self.new ≡ numbers_next self.old node) }
    {
        let number = self.last(node).saturating_add(1);
        self.last.insert(node, number)?;
        Ok(ItemName { node, number })
    }
}
