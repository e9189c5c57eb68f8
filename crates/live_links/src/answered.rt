//! What a node answered to its own items.
ghost use Rattle.std.specs.Prelude.{◌≡◌, ◌++◌, OnOk};
ghost use Rattle.live_links.specs.Answered.{answers_by, is_answer_by};

use std::alloc::Global;
use version_model::Act;
use xfs_base::{List, Mem, NodeId};

/// Whether an act answers an item of a node.
fn is_answer_by(act: &Act, node: NodeId) -> bool
    ensures { result ≡ is_answer_by node act.now }
{
    match act {
        Act::Answered {
            node: by,
            item: _,
            answer: _,
        } => *by == node,
        _ => false,
    }
}

/// Keeps copies of the answers of a node that are among these acts, behind those that are kept.
pub(crate) fn keep_answers(
    kept: &mut List<Act>,
    alloc: Global,
    node: NodeId,
    acts: &[Act],
) -> Mem<()>
    ensures { OnOk result (kept.new ≡ kept.old ++ answers_by node acts.now) }
{
    for act in acts {
        if is_answer_by(act, node) {
            kept.push(act.copy(alloc)?)?;
        }
    }
    Ok(())
}
