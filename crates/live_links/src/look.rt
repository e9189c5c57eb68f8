//! What was received is what was sent, once all ends are in one thread.
ghost use Rattle.live_links.specs.Ends.{ArePairs, AtEach, KnowsAll, KnowsRow, RowPairs, StillIn, StillRow};

use crate::{Ins, Letter, Outs};
use rtrb::Consumer;

/// Compares what one node received with what was sent to it.
pub(crate) fn look_row(place: usize, ends: &mut Vec<Consumer<Letter>>, outs: &mut Vec<Outs>)
    requires { RowPairs place ends.old.items outs.old.items }
    ensures ends { AtEach StillIn ends.old.items ends.new.items }
    ensures outs { AtEach StillRow outs.old.items outs.new.items }
    ensures known { KnowsRow place ends.old.items outs.old.items }
{
    for from in 0..ends.len() {
        outs[from].look(place, &mut ends[from]);
    }
}

/// Compares what each node received with what was sent to it.
pub fn look_all(outs: &mut Vec<Outs>, ins: &mut Vec<Ins>)
    requires { ArePairs outs.old.items ins.old.items }
    ensures { KnowsAll outs.old.items ins.old.items }
{
    for place in 0..ins.len() {
        ins[place].look(place, outs);
    }
}
