//! When the items of a node may be begun, in a run with threads.
ghost use Rattle.std.specs.Prelude.{◌≡◌, length, IfOk};
ghost use Rattle.world_base.specs.Dues.{dues_of, is_free};
ghost use Rattle.world_base.specs.Items.{items_of};

use crate::items::is_for;
use script_text::Line;
use std::alloc::Global;
use version_model::Work;
use xfs_base::{List, Mem, NodeId};

/// When an item may be begun.
#[derive(Clone, Copy, PartialEq, Eq)]
pub struct Due {
    /// So many events of its node stand before it.
    pub after: u32,
    /// Whether it is begun also where an earlier item of its node has no answer yet.
    pub free: bool,
}

/// Whether an item is begun also where an earlier one has no answer: a crash, or the loss of a disk.
fn is_free(work: &Work) -> bool
    ensures { result ≡ is_free work.now }
{
    match work {
        Work::Crash { node: _ } => true,
        Work::Lose { server: _ } => true,
        _ => false,
    }
}

/// When each item of a node may be begun, in the order of its items: one for each of them.
pub fn dues_of(alloc: Global, lines: &[Line], node: NodeId) -> Mem<List<Due>>
    ensures exact { IfOk result (λ dues. dues ≡ dues_of lines.now node) }
    ensures one_each { IfOk result (λ dues. length dues ≡ length (items_of lines.now node)) }
{
    let mut dues = List::new(alloc);
    for line in lines {
        if is_for(&line.work, node) {
            dues.push(Due {
                after: line.after,
                free: is_free(&line.work),
            })?;
        }
    }
    Ok(dues)
}
