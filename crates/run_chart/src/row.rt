//! The rows of a picture: one for each event of a run that is drawn, with what it left.
ghost use Rattle.std.specs.Prelude.{◌≡◌, map, IfOk, OnOk};
ghost use Rattle.std.specs.List.{count_by};
ghost use Rattle.core_world.specs.Serving.{is_serving};
ghost use Rattle.core_world.specs.AnyNode.{any_step};
ghost use Rattle.node_base.specs.Setups.{IsSetup};
ghost use Rattle.world_base.specs.NextWorld.{next_world};
ghost use Rattle.run_chart.specs.Rows.{begun_with, clock_in, has, is_before, of_lines, row_of, rows_of, so_far, with_event, with_row};

use crate::stretch::Stretch;
use core_world::AnyNode;
use script_text::{Line, Script};
use std::alloc::Global;
use world_base::{Event, World, actor_of};
use xfs_base::{List, Mem, NodeId};

/// Which events are drawn.
#[derive(Clone, Copy)]
pub enum Span {
    /// All.
    Whole,
    /// Those of some items, which are counted over all nodes, in the order in which they begin.
    Items {
        /// How many items stand before them.
        behind: usize,
        /// How many items there are up to the last of them.
        upto: usize,
    },
}

/// The row of an event.
#[derive(Drop)]
pub struct Row {
    /// Its number in the picture, from 0.
    pub number: usize,
    /// How many items, of all nodes, have begun with it.
    pub begun: usize,
    /// The place of the event among those of the run.
    pub event: usize,
    /// The node to which it happens.
    pub node: NodeId,
    /// The clock of that node behind it, which the packets have that are sent in it.
    pub clock: u64,
    /// What was sent in it, of all that was sent.
    pub sent: Stretch,
    /// What was done in it, of all that was done.
    pub acts: Stretch,
    /// Of each node, in their order, whether it serves behind the event.
    pub serving: List<bool>,
}

/// How many items of some lines stand before the line of a number.
fn count_before(lines: &[Line], number: u64) -> usize
    ensures { result ≡ count_by (is_before number) lines.now }
{
    let mut count: usize = 0;
    for line in lines {
        if is_before(line, number) {
            count += 1;
        }
    }
    count
}

/// Whether a line is an item that stands before the line of a number.
fn is_before(line: &Line, number: u64) -> bool
    ensures { result ≡ is_before number line.now }
{
    actor_of(&line.work).is_some() && u64::from(line.number) < number
}

impl Span {
    /// The events of the items of the lines from one number to another.
    pub fn of_lines(lines: &[Line], first: u32, last: u32) -> Span
        ensures { result ≡ of_lines lines.now first last }
    {
        Span::Items {
            behind: count_before(lines, u64::from(first)),
            upto: count_before(lines, u64::from(last) + 1),
        }
    }

    /// Whether an event is drawn with which so many items have begun.
    fn has(self, begun: usize) -> bool
        ensures { result ≡ has self begun }
    {
        match self {
            Span::Whole => true,
            Span::Items { behind, upto } => behind < begun && begun <= upto,
        }
    }
}

/// How many items have begun with an event, where so many had before.
fn begun_with(count: usize, event: &Event) -> usize
    ensures { result ≡ begun_with count event.now }
{
    match event {
        Event::Begin(_) => count.saturating_add(1),
        Event::Deliver(_) => count,
        Event::Tick(_) => count,
    }
}

/// The clock of a node of a world.
fn clock_in(world: &World<AnyNode>, node: NodeId) -> u64
    ensures { result ≡ clock_in world.now node }
{
    match world.cluster.place(node) {
        None => 0,
        Some(place) => match world.clocks.get(place) {
            None => 0,
            Some(clock) => *clock,
        },
    }
}

/// Of each node, whether it serves.
fn serving_of(alloc: Global, nodes: &[AnyNode]) -> Mem<List<bool>>
    ensures { IfOk result (λ serving. serving ≡ map is_serving nodes.now) }
{
    let mut serving = List::new(alloc);
    for node in nodes {
        serving.push(node.is_serving())?;
    }
    Ok(serving)
}

/// The world behind some events, how many items have begun, and the rows of those that are drawn.
#[derive(Drop)]
pub struct Walk {
    /// The world.
    pub world: World<AnyNode>,
    /// How many items of all nodes have begun.
    pub begun: usize,
    /// The rows so far.
    pub rows: List<Row>,
}

/// How much was sent and done.
#[derive(Clone, Copy)]
pub struct Before {
    /// How many packets were sent.
    pub sent: usize,
    /// How many acts there were.
    pub acts: usize,
}

/// The row of the event at a place, which happened to a node, and before which so much was sent and done.
#[tactic(auto, unfolding(crate::specs::Rows::row_of))]
fn row_of(
    alloc: Global,
    before: Before,
    world: &World<AnyNode>,
    number: usize,
    begun: usize,
    place: usize,
    node: NodeId,
) -> Mem<Row>
    ensures { IfOk result (λ row. row ≡ row_of before world.now number begun place node) }
{
    Ok(Row {
        number,
        begun,
        event: place,
        node,
        clock: clock_in(world, node),
        sent: Stretch {
            from: before.sent,
            upto: world.sent.len(),
        },
        acts: Stretch {
            from: before.acts,
            upto: world.acts.len(),
        },
        serving: serving_of(alloc, world.nodes.as_slice())?,
    })
}

/// The rows with that of an event, where it is drawn.
#[tactic(auto, unfolding(crate::specs::Rows::with_row))]
fn add_row(
    alloc: Global,
    rows: &mut List<Row>,
    span: Span,
    before: Before,
    world: &World<AnyNode>,
    begun: usize,
    place: usize,
    node: NodeId,
) -> Mem<()>
    ensures { OnOk result (rows.new ≡ with_row span rows.old before world.now begun place node) }
{
    if !span.has(begun) {
        return Ok(());
    }
    let number = rows.len();
    rows.push(row_of(alloc, before, world, number, begun, place, node)?)
}

/// How much was sent and done in a world.
fn so_far(world: &World<AnyNode>) -> Before
    ensures { result ≡ so_far world.now }
{
    Before {
        sent: world.sent.len(),
        acts: world.acts.len(),
    }
}

/// An event happens.
fn happen(alloc: Global, world: &mut World<AnyNode>, event: &Event) -> Mem<()>
    ensures { OnOk result (world.new ≡ next_world any_step world.old event.now) }
{
    let what = event.what(alloc)?;
    world.happen(alloc, event.node(), &what)
}

impl Walk {
    /// The next event, which stands at a place.
    fn take(&mut self, alloc: Global, span: Span, place: usize, event: &Event) -> Mem<()>
        ensures { OnOk result (self.new ≡ with_event span self.old place event.now) }
    {
        let before = so_far(&self.world);
        happen(alloc, &mut self.world, event)?;
        self.begun = begun_with(self.begun, event);
        add_row(
            alloc,
            &mut self.rows,
            span,
            before,
            &self.world,
            self.begun,
            place,
            event.node(),
        )
    }
}

/// The rows of a run of a script: one for each event that is drawn.
#[tactic(auto, unfolding(crate::specs::Rows::rows_of))]
pub fn rows_of(alloc: Global, script: &Script, span: Span, events: &[Event]) -> Mem<List<Row>>
    requires { IsSetup script.now.setup }
    ensures { IfOk result (λ rows. rows ≡ rows_of script.now span events.now) }
{
    let mut walk = Walk {
        world: World::start(alloc, script)?,
        begun: 0,
        rows: List::new(alloc),
    };
    for place in 0..events.len() {
        walk.take(alloc, span, place, &events[place])?;
    }
    Ok(walk.rows)
}
