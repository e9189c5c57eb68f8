//! The marks of a picture: what is drawn, in the order in which it is.
ghost use Rattle.std.specs.Prelude.{◌≡◌, ◌++◌, slice_get, IfOk, OnOk};
ghost use Rattle.std.specs.List.{flat_map};
ghost use Rattle.run_chart.specs.Marks.{acts_from, arrow, arrow_at, drawn_at, drawn_by, is_answer, labels_of, lost_from, marks_of, out_from};
ghost use Rattle.run_chart.specs.Moments.{is_there, row_found};

use crate::moment::{Comings, FirstRows};
use crate::row::Row;
use crate::stretch::within;
use core_world::AnyNode;
use std::alloc::Global;
use version_model::Act;
use wire_msg::SharedPacket;
use world_base::{Estate, Event};
use xfs_base::{List, Mem};

/// A mark of a picture. Rows and columns count from 0.
#[derive(Clone, Copy, PartialEq, Eq)]
pub enum Mark {
    /// At this row the node of this column doesn't serve: a grey bar.
    Out {
        /// The row.
        row: usize,
        /// The column.
        column: usize,
    },
    /// The packet of the row's event comes: an arrow from the row in which it was sent, where that is drawn.
    Arrow {
        /// The row.
        row: usize,
        /// The row in which it was sent; none where that isn't drawn.
        sent: Option<usize>,
    },
    /// A packet is sent that never comes: a short arrow that ends in a cross.
    Lost {
        /// The row.
        row: usize,
        /// Its number among those that are sent in the event, from 0.
        nth: usize,
    },
    /// Something is done.
    Done {
        /// The row.
        row: usize,
        /// The number of the act among those of the event, from 0.
        nth: usize,
    },
    /// What is written at a row: the line that begins or the packet that comes, and the answers. It stands above all that
    /// is drawn.
    Label {
        /// The row.
        row: usize,
    },
}

/// Appends a bar for each node that doesn't serve.
fn add_out(marks: &mut List<Mark>, number: usize, serving: &[bool]) -> Mem<()>
    ensures { OnOk result (marks.new ≡ marks.old ++ out_from number 0 serving.now) }
{
    for column in 0..serving.len() {
        if !serving[column] {
            marks.push(Mark::Out {
                row: number,
                column,
            })?;
        }
    }
    Ok(())
}

/// Appends an arrow where a packet comes.
fn add_arrow(marks: &mut List<Mark>, first: &FirstRows, row: usize, event: &Event) -> Mem<()>
    ensures { OnOk result (marks.new ≡ marks.old ++ arrow (row_found first.now) row event.now) }
{
    match event {
        Event::Begin(_) => Ok(()),
        Event::Deliver(packet) => marks.push(Mark::Arrow {
            row,
            sent: first.find(packet.as_packet()),
        }),
        Event::Tick(_) => Ok(()),
    }
}

/// Appends an arrow where the event at a place is the coming of a packet.
fn add_arrow_at(
    marks: &mut List<Mark>,
    first: &FirstRows,
    row: usize,
    events: &List<Event>,
    place: usize,
) -> Mem<()>
    ensures { OnOk result (marks.new ≡ marks.old ++ arrow_at (row_found first.now) row (slice_get events.now place)) }
{
    match events.get(place) {
        None => Ok(()),
        Some(event) => add_arrow(marks, first, row, event),
    }
}

/// Appends a mark for each packet that never comes, of those that are sent in the event of a row.
fn add_lost(
    marks: &mut List<Mark>,
    number: usize,
    coming: &Comings,
    packets: &[SharedPacket],
) -> Mem<()>
    ensures { OnOk result (marks.new ≡ marks.old ++ lost_from (is_there coming.now) number 0 packets.now) }
{
    for nth in 0..packets.len() {
        if !coming.has(packets[nth].as_packet()) {
            marks.push(Mark::Lost { row: number, nth })?;
        }
    }
    Ok(())
}

/// Whether an act answers an item.
fn is_answer(act: &Act) -> bool
    ensures { result ≡ is_answer act.now }
{
    matches!(act, Act::Answered { .. })
}

/// Appends a mark for each act but answers, of those of the event of a row.
fn add_acts(marks: &mut List<Mark>, number: usize, acts: &[Act]) -> Mem<()>
    ensures { OnOk result (marks.new ≡ marks.old ++ acts_from number 0 acts.now) }
{
    for nth in 0..acts.len() {
        if !is_answer(&acts[nth]) {
            marks.push(Mark::Done { row: number, nth })?;
        }
    }
    Ok(())
}

/// Appends what is drawn at a row.
#[tactic(auto, unfolding(crate::specs::Marks::drawn_by))]
fn add_row(
    marks: &mut List<Mark>,
    estate: &Estate<AnyNode>,
    first: &FirstRows,
    coming: &Comings,
    row: &Row,
) -> Mem<()>
    ensures { OnOk result (marks.new ≡ marks.old ++ drawn_by (row_found first.now) (is_there coming.now) estate.now row.now) }
{
    let number = row.number;
    add_out(marks, number, row.serving.as_slice())?;
    add_arrow_at(marks, first, number, &estate.events, row.event)?;
    let sent = within(estate.world.sent.as_slice(), row.sent);
    add_lost(marks, number, coming, sent)?;
    add_acts(
        marks,
        number,
        within(estate.world.acts.as_slice(), row.acts),
    )
}

/// Appends what is drawn at these rows.
fn add_drawn(
    marks: &mut List<Mark>,
    estate: &Estate<AnyNode>,
    first: &FirstRows,
    coming: &Comings,
    rows: &[Row],
) -> Mem<()>
    ensures { OnOk result (marks.new ≡ marks.old ++ flat_map (drawn_by (row_found first.now) (is_there coming.now) estate.now) rows.now) }
{
    for row in rows {
        add_row(marks, estate, first, coming, row)?;
    }
    Ok(())
}

/// Appends what is drawn at all rows.
fn add_rows(
    alloc: Global,
    marks: &mut List<Mark>,
    estate: &Estate<AnyNode>,
    rows: &[Row],
) -> Mem<()>
    ensures { OnOk result (marks.new ≡ marks.old ++ flat_map (drawn_at estate.now rows.now) rows.now) }
{
    let first = FirstRows::of(alloc, rows)?;
    let coming = Comings::of(alloc, estate.events.as_slice())?;
    add_drawn(marks, estate, &first, &coming, rows)
}

/// Appends what is written at each row.
fn add_labels(marks: &mut List<Mark>, rows: &[Row]) -> Mem<()>
    ensures { OnOk result (marks.new ≡ marks.old ++ labels_of rows.now) }
{
    for row in rows {
        marks.push(Mark::Label { row: row.number })?;
    }
    Ok(())
}

/// The marks of a picture: above all that is drawn what is written.
#[tactic(auto, unfolding(crate::specs::Marks::marks_of))]
pub fn marks_of(alloc: Global, estate: &Estate<AnyNode>, rows: &[Row]) -> Mem<List<Mark>>
    ensures { IfOk result (λ marks. marks ≡ marks_of estate.now rows.now) }
{
    let mut marks = List::new(alloc);
    add_rows(alloc, &mut marks, estate, rows)?;
    add_labels(&mut marks, rows)?;
    Ok(marks)
}
