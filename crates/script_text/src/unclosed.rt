//! Crashes that no later restart follows.
ghost use Rattle.std.specs.Prelude.{◌≡◌, IfOk, OnOk};
ghost use Rattle.std.specs.List.{list_any};
ghost use Rattle.xfs_base.specs.Nodes.{same_node};
ghost use Rattle.script_text.specs.Script.{unclosed, open_crash};
ghost use Rattle.script_text.specs.Reading.{with_node, after_work, found_before};

use crate::Line;
use std::alloc::Global;
use version_model::Work;
use xfs_base::{List, Mem, NodeId};

/// Whether one of these nodes is this one.
fn has(nodes: &[NodeId], node: NodeId) -> bool
    ensures { result ≡ list_any (λ n. same_node n node) nodes.now }
{
    nodes.iter().any(|other| other.is_same(node))
}

/// Adds a node, unless it is one of these.
fn add(nodes: &mut List<NodeId>, node: NodeId) -> Mem<()>
    ensures { OnOk result (nodes.new ≡ with_node nodes.old node) }
{
    if has(nodes.as_slice(), node) {
        return Ok(());
    }
    nodes.push(node)
}

/// What the first crash among these items that no later restart follows becomes with one more item
/// before them, where these nodes are restarted later.
fn found_before(item: &Line, restarted: &[NodeId], found: Option<u32>) -> Option<u32>
    ensures { result ≡ found_before item.now restarted.now found }
{
    match &item.work {
        Work::Crash { node } => {
            if has(restarted, *node) {
                found
            } else {
                Some(item.number)
            }
        }
        _ => found,
    }
}

/// Notes what an item restarts.
fn note_restart(restarted: &mut List<NodeId>, work: &Work) -> Mem<()>
    ensures { OnOk result (restarted.new ≡ after_work restarted.old work.now) }
{
    match work {
        Work::Restart { node } => add(restarted, *node),
        _ => Ok(()),
    }
}

/// The line of the first crash that no later restart of its node follows.
fn unclosed(alloc: Global, items: &[Line]) -> Mem<Option<u32>>
    ensures { IfOk result (λ line. line ≡ unclosed items.now) }
{
    let mut found = None;
    let mut restarted: List<NodeId> = List::new(alloc);
    let mut left = items.len();
    while left > 0 {
        left -= 1;
        let item = &items[left];
        found = found_before(item, restarted.as_slice(), found);
        note_restart(&mut restarted, &item.work)?;
    }
    Ok(found)
}

/// The line of the first crash that counts: in a run with threads alone.
pub fn open_crash(alloc: Global, live: bool, items: &[Line]) -> Mem<Option<u32>>
    ensures { IfOk result (λ line. line ≡ open_crash live items.now) }
{
    if live {
        unclosed(alloc, items)
    } else {
        Ok(None)
    }
}
