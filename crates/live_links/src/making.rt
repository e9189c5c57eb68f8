//! The rings of a run, as they are made.
ghost use Rattle.std.specs.Prelude.{◌≡◌, [], replicate, IfOk};
ghost use Rattle.live_links.specs.Made.{AreLinks, IsRowMade};

use crate::{Ins, Letter, Outs};
use rtrb::RingBuffer;
use std::alloc::Global;
use xfs_base::Mem;

/// How many packets a ring has room for.
const ROOM: usize = 64;

/// Makes the rings from one more node to each node.
fn link_row(alloc: Global, ins: &mut Vec<Ins>) -> Mem<Outs>
    ensures { IfOk result (λ row. IsRowMade ins.old.items row ins.new.items) }
{
    let mut row = Outs::none(alloc);
    for to in 0..ins.len() {
        let (out, end) = RingBuffer::<Letter>::new(alloc, ROOM)?;
        let mail = ins[to].mail()?;
        row.add(out, mail)?;
        ins[to].add(end)?;
    }
    Ok(row)
}

/// For each of so many nodes no end yet.
fn no_ins(alloc: Global, count: usize) -> Mem<Vec<Ins>>
    ensures { IfOk result (λ ins. ins.items ≡ replicate count []) }
{
    let mut ins = Vec::new(alloc);
    for _ in 0..count {
        let none = Ins::none(alloc)?;
        ins.push(none)?;
    }
    Ok(ins)
}

/// One ring for each ordered pair of so many nodes. The ends stand in order of their nodes.
pub fn links(alloc: Global, count: usize) -> Mem<(Vec<Outs>, Vec<Ins>)>
    ensures { IfOk result (λ r. AreLinks count count r.0.items r.1.items) }
{
    let mut ins = no_ins(alloc, count)?;
    let mut outs = Vec::new(alloc);
    for _ in 0..count {
        let row = link_row(alloc, &mut ins)?;
        outs.push(row)?;
    }
    Ok((outs, ins))
}
