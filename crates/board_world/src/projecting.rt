//! Which commands happen to a registry that takes them in their order, and as which events.
ghost use Rattle.std.specs.Prelude.{◌≡◌, ◌++◌, OnOk, IfOk};
ghost use Rattle.wire_msg.specs.Kinds.{is_begin};
ghost use Rattle.board_world.specs.Projection.{is_next, is_due, begun_by, project, project_all};

use board::Command;
use std::alloc::Global;
use wire_msg::Do;
use world_base::Event;
use xfs_base::{List, Mem, NodeId};

fn is_begin(what: &Do) -> bool
    ensures { result ≡ is_begin what.now }
{
    match what {
        Do::Begin => true,
        Do::Deliver(_) => false,
        Do::Tick => false,
    }
}

fn is_next(items: usize, begun: u32, item: u32) -> bool
    ensures { result ≡ is_next items begun item }
{
    u64::from(item) == u64::from(begun) + 1 && item as usize <= items
}

/// Whether a command happens to a registry of so many items of which so many are begun: a Begin of another item than
/// the next is nothing.
pub(crate) fn is_due(items: usize, begun: u32, command: &Command) -> bool
    ensures { result ≡ is_due items begun command.now }
{
    !is_begin(&command.what) || is_next(items, begun, command.item)
}

/// How many items are begun after a command.
pub(crate) fn begun_by(begun: u32, command: &Command) -> u32
    ensures { result ≡ begun_by begun command.now }
{
    if is_begin(&command.what) {
        command.item
    } else {
        begun
    }
}

// A command becomes an event of the registry, or nothing.
#[tactic(auto, unfolding(crate::specs::Projection::project))]
fn project(
    alloc: Global,
    events: &mut List<Event>,
    items: usize,
    begun: &mut u32,
    command: &Command,
) -> Mem<()>
    ensures begun { OnOk result (begun.new ≡ (project items begun.old command.now).state) }
    ensures events { OnOk result (events.new ≡ events.old ++ (project items begun.old command.now).outs) }
{
    if !is_due(items, *begun, command) {
        return Ok(());
    }
    let what = command.what.copy(alloc)?;
    events.push(Event::of(NodeId::Registry, what))?;
    *begun = begun_by(*begun, command);
    Ok(())
}

/// These commands as events of the registry, after so many of its items were begun.
pub(crate) fn project_all(
    alloc: Global,
    items: usize,
    begun: &mut u32,
    commands: &[Command],
) -> Mem<List<Event>>
    ensures begun { OnOk result (begun.new ≡ (project_all items begun.old commands.now).state) }
    ensures events { IfOk result (λ events. events ≡ (project_all items begun.old commands.now).outs) }
{
    let mut events = List::new(alloc);
    for command in commands {
        project(alloc, &mut events, items, begun, command)?;
    }
    Ok(events)
}
