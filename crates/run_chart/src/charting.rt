//! The picture of a run.
ghost use Rattle.std.specs.Prelude.{◌≡◌, ◌<◌, ◌≤◌, length, Err, IfOk};
ghost use Rattle.node_base.specs.Setups.{IsSetup};
ghost use Rattle.run_chart.specs.Charts.{chart_of, items_from, max_rows, picture_of, rows_drawn};
ghost use Rattle.run_chart.specs.Marks.{ArrowsOnce, StandAtRows};
ghost use Rattle.run_chart.specs.Rows.{NumberedFrom};
ghost use Rattle.run_chart.specs.declared.charting.ChartError.TheVariants.{TooMany};

use crate::law::{each_packet_that_comes_is_drawn_once, marks_stand_at_rows, rows_are_numbered};
use crate::mark::marks_of;
use crate::picture::svg;
use crate::row::{Row, Span, rows_of};
use core_world::AnyNode;
use script_text::Line;
use std::alloc::{AllocError, Global};
use world_base::{Estate, actor_of};
use xfs_base::{List, Mem, Text};

/// A picture has at most so many rows.
pub(crate) const MAX_ROWS: usize = 20_000;

/// Why a run is not drawn.
#[derive(Clone, Copy, PartialEq, Eq)]
pub enum ChartError {
    /// More than 20,000 events would be drawn; a picture of fewer lines may be wanted.
    TooMany,
    /// Memory is wanting.
    Memory,
}

impl From<AllocError> for ChartError {
    ghost use Rattle.run_chart.specs.declared.charting.ChartError.TheVariants.{Memory};

    ghost from_gives = { λ _ e. e ≡ Memory };

    fn from(_: AllocError) -> ChartError {
        ChartError::Memory
    }
}

/// The places of items among the lines of a script.
fn items_of(alloc: Global, lines: &[Line]) -> Mem<List<usize>>
    ensures { IfOk result (λ items. items ≡ items_from 0 lines.now) }
{
    let mut items = List::new(alloc);
    for place in 0..lines.len() {
        if actor_of(&lines[place].work).is_some() {
            items.push(place)?;
        }
    }
    Ok(items)
}

/// The picture of these rows.
fn picture(alloc: Global, estate: &Estate<AnyNode>, rows: &[Row]) -> Mem<Text>
    ensures { IfOk result (λ text. text ≡ picture_of estate.now rows.now) }
{
    let items = items_of(alloc, estate.script.lines.as_slice())?;
    let marks = marks_of(alloc, estate, rows)?;
    svg(alloc, estate, 0, items.as_slice(), rows, marks.as_slice())
}

/// The picture of the events of a run that are drawn, one SVG: a column for each node, a row for each event, time
/// downward. It draws at most 20,000 events.
///
/// - `drawn`: the text is that of the marks of these events (`specs/Marks.antt`, `specs/Drawing.antt`).
/// - `once`: of these marks the arrows are just one for each drawn event by which a packet comes.
/// - `numbered`: each event that is drawn has a row of its own, and these are numbered from 0 on.
/// - `within`: each mark stands at a row of the picture.
/// - `too_many`: it is refused only where more than 20,000 events would be drawn.
pub fn chart(alloc: Global, estate: &Estate<AnyNode>, span: Span) -> Result<Text, ChartError>
    requires { IsSetup estate.now.script.setup }
    ensures drawn { IfOk result (λ text. (length (rows_drawn estate.now span) ≤ max_rows) × (text ≡ chart_of estate.now span)) }
    ensures once { ArrowsOnce estate.now (rows_drawn estate.now span) }
    ensures numbered { NumberedFrom 0 (rows_drawn estate.now span) }
    ensures within { StandAtRows estate.now (rows_drawn estate.now span) }
    ensures too_many { result ≡ Err TooMany → max_rows < length (rows_drawn estate.now span) }
{
    each_packet_that_comes_is_drawn_once();
    rows_are_numbered();
    marks_stand_at_rows();
    let rows = rows_of(alloc, &estate.script, span, estate.events.as_slice())?;
    if rows.len() > MAX_ROWS {
        return Err(ChartError::TooMany);
    }
    Ok(picture(alloc, estate, rows.as_slice())?)
}
