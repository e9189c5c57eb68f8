//! Which node a line of a script is for.
ghost use Rattle.std.specs.Prelude.{◌≡◌, IfOk};
ghost use Rattle.world_base.specs.Items.{actor_of, is_for, items_of};

use script_text::Line;
use std::alloc::Global;
use version_model::Work;
use xfs_base::{List, Mem, NodeId};

/// The node of whose list a work is an item; none for what the network or a disk is asked.
pub fn actor_of(work: &Work) -> Option<NodeId>
    ensures { result ≡ actor_of work.now }
{
    match work {
        Work::Bput {
            client,
            block: _,
            value: _,
        } => Some(NodeId::Client(*client)),
        Work::Bget { client, block: _ } => Some(NodeId::Client(*client)),
        Work::Sync { client } => Some(NodeId::Client(*client)),
        Work::File { client, call: _ } => Some(NodeId::Client(*client)),
        Work::Crash { node } => Some(*node),
        Work::Restart { node } => Some(*node),
        Work::Checkpoint { manager } => Some(NodeId::Manager(*manager)),
        Work::Lose { server } => Some(NodeId::Server(*server)),
        Work::Rebuild { server } => Some(NodeId::Server(*server)),
        Work::Move {
            slot: _,
            manager: _,
        } => Some(NodeId::Registry),
        Work::Clean { count: _ } => Some(NodeId::Cleaner),
        _ => None,
    }
}

/// Whether a work is an item of a node's list.
pub(crate) fn is_for(work: &Work, node: NodeId) -> bool
    ensures { result ≡ is_for node work.now }
{
    match actor_of(work) {
        Some(actor) => actor == node,
        None => false,
    }
}

/// The items of a node: what its lines ask for, in their order.
pub fn items_of(alloc: Global, lines: &[Line], node: NodeId) -> Mem<List<Work>>
    ensures { IfOk result (λ items. items ≡ items_of lines.now node) }
{
    let mut items = List::new(alloc);
    for line in lines {
        if is_for(&line.work, node) {
            items.push(line.work.copy(alloc)?)?;
        }
    }
    Ok(items)
}
