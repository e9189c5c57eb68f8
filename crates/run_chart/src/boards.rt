//! The picture of a run with three boards: that of the run with one registry that it stands for, and which boards are up.
ghost use Rattle.std.specs.Prelude.{◌≡◌, ◌<◌, ◌≤◌, ◌++◌, length, map, slice_get, IfOk, OnOk, Err};
ghost use Rattle.node_base.specs.Setups.{IsSetup};
ghost use Rattle.run_chart.specs.Boards.{begun_items, begun_next, begun_one, board_chart_of, board_picture_of, board_rows, is_begun_by, items_by, one_of, ups_in, ups_of, with_boards};
ghost use Rattle.run_chart.specs.Charts.{max_rows};
ghost use Rattle.run_chart.specs.Marks.{ArrowsOnce, StandAtRows};
ghost use Rattle.run_chart.specs.Rows.{NumberedFrom};
ghost use Rattle.run_chart.specs.declared.charting.ChartError.TheVariants.{TooMany};

use crate::charting::{ChartError, MAX_ROWS};
use crate::law::{
    board_rows_are_numbered, each_packet_that_comes_is_drawn_once, marks_stand_at_rows,
};
use crate::mark::marks_of;
use crate::picture::svg;
use crate::row::{Row, Span, rows_of};
use board_world::{BoardEvent, Boards};
use core_world::AnyNode;
use script_text::{Line, Script};
use std::alloc::Global;
use world_base::{Estate, Event, actor_of};
use xfs_base::{List, Mem, NodeId, Text};

/// Which boards are up.
#[derive(Clone, Copy)]
pub struct Ups {
    /// Board 1.
    pub first: bool,
    /// Board 2.
    pub second: bool,
    /// Board 3.
    pub third: bool,
}

/// Which boards are up.
fn ups_in(boards: &Boards) -> Ups
    ensures { result ≡ ups_in boards.now }
{
    Ups {
        first: boards.is_up(1),
        second: boards.is_up(2),
        third: boards.is_up(3),
    }
}

/// The boards stand so behind each of these events.
fn add_ups(all: &mut List<Ups>, ups: Ups, events: &[Event]) -> Mem<()>
    ensures { OnOk result (all.new ≡ all.old ++ map (λ _. ups) events.now) }
{
    for event in events {
        let _ = event;
        all.push(ups)?;
    }
    Ok(())
}

/// Which boards are up behind each event of the nodes that these events stand for.
#[tactic(auto, unfolding(crate::specs::Boards::ups_of))]
fn ups_of(alloc: Global, script: &Script, events: &[BoardEvent]) -> Mem<List<Ups>>
    requires { IsSetup script.now.setup }
    ensures { IfOk result (λ all. all ≡ ups_of script.now events.now) }
{
    let mut boards = Boards::start(alloc, script)?;
    let mut all = List::new(alloc);
    for event in events {
        let outs = boards.take(alloc, event)?;
        add_ups(&mut all, ups_in(&boards), outs.as_slice())?;
    }
    Ok(all)
}

/// A row that shows the boards too.
#[tactic(auto, unfolding(crate::specs::Boards::with_boards))]
fn with_boards(ups: &List<Ups>, row: Row) -> Mem<Row>
    ensures { IfOk result (λ shown. shown ≡ with_boards ups.now row) }
{
    let mut row = row;
    match ups.get(row.event) {
        None => Ok(row),
        Some(ups) => {
            row.serving.push(ups.first)?;
            row.serving.push(ups.second)?;
            row.serving.push(ups.third)?;
            Ok(row)
        }
    }
}

/// The rows of a run with boards.
fn board_rows(alloc: Global, estate: &Estate<AnyNode>, events: &[BoardEvent]) -> Mem<List<Row>>
    requires { IsSetup estate.now.script.setup }
    ensures { IfOk result (λ rows. rows ≡ board_rows estate.now events.now) }
{
    let ups = ups_of(alloc, &estate.script, events)?;
    let bare = rows_of(alloc, &estate.script, Span::Whole, estate.events.as_slice())?;
    let mut rows = List::new(alloc);
    for row in bare.into_vec() {
        rows.push(with_boards(&ups, row)?)?;
    }
    Ok(rows)
}

/// Whether a line is an item of the registry, or of another node.
fn is_begun_by(own: bool, actor: Option<NodeId>) -> bool
    ensures { result ≡ is_begun_by own actor }
{
    match actor {
        None => false,
        Some(node) => {
            if own {
                node.is_same(NodeId::Registry)
            } else {
                !node.is_same(NodeId::Registry)
            }
        }
    }
}

/// The places of the items of the registry, or of those of all other nodes.
fn items_by(alloc: Global, own: bool, lines: &[Line]) -> Mem<List<usize>>
    ensures { IfOk result (λ items. items ≡ items_by own 0 lines.now) }
{
    let mut items = List::new(alloc);
    for place in 0..lines.len() {
        if is_begun_by(own, actor_of(&lines[place].work)) {
            items.push(place)?;
        }
    }
    Ok(items)
}

/// How many items of the registry have begun, and how many of all other nodes.
#[derive(Clone, Copy)]
pub struct Begun {
    /// Of the registry.
    pub registry: usize,
    /// Of all other nodes.
    pub others: usize,
}

/// Appends the place of this number, where there is one.
fn add_one(items: &mut List<usize>, places: &List<usize>, nth: usize) -> Mem<()>
    ensures { OnOk result (items.new ≡ items.old ++ one_of (slice_get places.now nth)) }
{
    match places.get(nth) {
        None => Ok(()),
        Some(place) => items.push(*place),
    }
}

/// Appends the place of the item that begins by an event, where so many have begun.
fn add_begun(
    items: &mut List<usize>,
    registry: &List<usize>,
    others: &List<usize>,
    begun: Begun,
    event: &Event,
) -> Mem<()>
    ensures { OnOk result (items.new ≡ items.old ++ begun_one registry.now others.now begun event.now) }
{
    match event {
        Event::Begin(node) => {
            if node.is_same(NodeId::Registry) {
                add_one(items, registry, begun.registry)
            } else {
                add_one(items, others, begun.others)
            }
        }
        Event::Deliver(_) => Ok(()),
        Event::Tick(_) => Ok(()),
    }
}

impl Begun {
    /// How many have begun after an event.
    fn next(self, event: &Event) -> Begun
        ensures { result ≡ begun_next self event.now }
    {
        match event {
            Event::Begin(node) => {
                if node.is_same(NodeId::Registry) {
                    Begun {
                        registry: self.registry.saturating_add(1),
                        others: self.others,
                    }
                } else {
                    Begun {
                        registry: self.registry,
                        others: self.others.saturating_add(1),
                    }
                }
            }
            Event::Deliver(_) => self,
            Event::Tick(_) => self,
        }
    }
}

/// The places of items in the order in which they begin.
#[tactic(auto, unfolding(crate::specs::Boards::begun_items))]
fn begun_items(alloc: Global, lines: &[Line], events: &[Event]) -> Mem<List<usize>>
    ensures { IfOk result (λ items. items ≡ begun_items lines.now events.now) }
{
    let registry = items_by(alloc, true, lines)?;
    let others = items_by(alloc, false, lines)?;
    let mut begun = Begun {
        registry: 0,
        others: 0,
    };
    let mut items = List::new(alloc);
    for event in events {
        add_begun(&mut items, &registry, &others, begun, event)?;
        begun = begun.next(event);
    }
    Ok(items)
}

/// The picture of these rows.
fn board_picture(alloc: Global, estate: &Estate<AnyNode>, rows: &[Row]) -> Mem<Text>
    ensures { IfOk result (λ text. text ≡ board_picture_of estate.now rows.now) }
{
    let items = begun_items(
        alloc,
        estate.script.lines.as_slice(),
        estate.events.as_slice(),
    )?;
    let marks = marks_of(alloc, estate, rows)?;
    svg(alloc, estate, 3, items.as_slice(), rows, marks.as_slice())
}

/// The picture of a run with three boards: that of all events of the run with one registry that it stands for, and a
/// column more for each board, with a grey bar where it is stopped. Its clauses are those of `chart`.
pub fn board_chart(
    alloc: Global,
    estate: &Estate<AnyNode>,
    events: &[BoardEvent],
) -> Result<Text, ChartError>
    requires { IsSetup estate.now.script.setup }
    ensures drawn { IfOk result (λ text. (length (board_rows estate.now events.now) ≤ max_rows) × (text ≡ board_chart_of estate.now events.now)) }
    ensures once { ArrowsOnce estate.now (board_rows estate.now events.now) }
    ensures numbered { NumberedFrom 0 (board_rows estate.now events.now) }
    ensures within { StandAtRows estate.now (board_rows estate.now events.now) }
    ensures too_many { result ≡ Err TooMany → max_rows < length (board_rows estate.now events.now) }
{
    each_packet_that_comes_is_drawn_once();
    board_rows_are_numbered();
    marks_stand_at_rows();
    let rows = board_rows(alloc, estate, events)?;
    if rows.len() > MAX_ROWS {
        return Err(ChartError::TooMany);
    }
    Ok(board_picture(alloc, estate, rows.as_slice())?)
}
