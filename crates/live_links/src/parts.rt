//! Cells that were taken apart.
ghost use Rattle.std.specs.Prelude.{◌≡◌, ◌+◌, ◌++◌, ◌∷◌, [], length, OnOk};
ghost use Rattle.live_links.specs.Ending.{IsEnded};
ghost use Rattle.live_links.specs.Parts.{AreParts};

use crate::{Cell, Ins, Outs, RunName};
use journals::Rest;
use std::alloc::{AllocError, Global};
use world_base::Member;
use xfs_base::{List, Mem};

/// The journals, the nodes and the ends of cells, in order of nodes.
pub struct Parts<N> {
    /// Whether each item of each node was begun and is answered; else the run was given up.
    pub full: bool,
    /// What happened to each node.
    pub journals: Vec<Rest>,
    /// The nodes after it.
    pub nodes: List<N>,
    /// Where each node sent.
    pub outs: Vec<Outs>,
    /// Where each node received.
    pub ins: Vec<Ins>,
}

impl<N: Drop> Drop for Parts<N> {
    fn drop(self) {
        let Parts {
            full: _,
            journals,
            nodes,
            outs,
            ins,
        } = self;
        drop(journals);
        drop(nodes);
        drop(outs);
        drop(ins);
    }
}

impl<N: Member> Parts<N> {
    /// Those of no cell, of a full run or of one that was given up.
    pub fn none(alloc: Global, full: bool) -> Parts<N>
        ensures full { result.full ≡ full }
        ensures none { (result.journals.items ≡ []) × (result.nodes ≡ []) × (result.outs.items ≡ []) × (result.ins.items ≡ []) }
    {
        Parts {
            full,
            journals: Vec::new(alloc),
            nodes: List::new(alloc),
            outs: Vec::new(alloc),
            ins: Vec::new(alloc),
        }
    }

    /// Adds those of the next cell, which has ended as the run has. A cell of another place than the next is
    /// answered like want of memory: no type says at which place a cell stands.
    pub fn add<R: RunName>(&mut self, cell: Cell<N, R>) -> Mem<()>
        requires parts { AreParts N.transition N.first R.script R.outs self.old.full self.old.journals.items self.old.nodes self.old.outs.items self.old.ins.items }
        requires ended { IsEnded N.transition N.first R.script self.old.full cell.journal.place cell.journal.moments }
        ensures parts { OnOk result (AreParts N.transition N.first R.script R.outs self.new.full self.new.journals.items self.new.nodes self.new.outs.items self.new.ins.items) }
        ensures full { self.new.full ≡ self.old.full }
        ensures count { OnOk result (length self.new.journals.items ≡ length self.old.journals.items + 1) }
        ensures place { OnOk result (cell.journal.place ≡ length self.old.journals.items) }
        ensures journal { OnOk result (self.new.journals.items ≡ self.old.journals.items ++ cell.journal.moments ∷ []) }
    {
        if cell.place() != self.journals.len() {
            return Err(AllocError);
        }
        let (moments, node, outs, ins) = cell.into_parts();
        self.journals.push(Rest::of(moments))?;
        self.nodes.push(node)?;
        self.outs.push(outs)?;
        self.ins.push(ins)?;
        Ok(())
    }

    /// The journals, the nodes, and the ends. It takes no memory.
    pub fn into_rows(self) -> (Vec<Rest>, List<N>, Vec<Outs>, Vec<Ins>)
        ensures { result ≡ (self.journals, self.nodes, self.outs, self.ins) }
    {
        let Parts {
            full: _,
            journals,
            nodes,
            outs,
            ins,
        } = self;
        (journals, nodes, outs, ins)
    }
}
