//! The whole text of a picture: its head, the columns and the marks.
ghost use Rattle.std.specs.Prelude.{◌≡◌, ◌++◌, IfOk, OnOk};
ghost use Rattle.std.specs.List.{flat_map};
ghost use Rattle.run_chart.specs.Drawing.{arrow_meaning, arrow_meanings, arrow_sample, column_text, column_of, columns_in, columns_text, dot_meaning, dot_meanings, dot_sample, first_dots, frame_text, head_text, label_text, last_dots, legend, mark_text, name_text, signs, style, svg, text_at, written_at};
ghost use Rattle.run_chart.specs.Marks.{row_of};

use crate::drawing::{
    add_arrow_by, add_column_name, add_done_by, add_lost_by, add_out, add_written, column_of,
    part_class, written_at,
};
use crate::label::Part;
use crate::mark::Mark;
use crate::piece::{
    arrow_open, arrow_row, bar_sign, circle_open, circle_row, cross_sign, life_close, life_open,
    moved_to, name_open, sample_close, svg_font, svg_height, svg_open, text_close, title_line,
};
use crate::place::{height_of, width_of, x_of, y_of};
use crate::row::Row;
use act_text::piece::add_marked;
use core_world::AnyNode;
use std::alloc::Global;
use world_base::{Cluster, Estate};
use xfs_base::{Mem, Text};

/// The row of a mark.
fn row_of(mark: Mark) -> usize
    ensures { result ≡ row_of mark }
{
    match mark {
        Mark::Out { row, column: _ } => row,
        Mark::Arrow { row, sent: _ } => row,
        Mark::Lost { row, nth: _ } => row,
        Mark::Done { row, nth: _ } => row,
        Mark::Label { row } => row,
    }
}

/// Appends what is written at a row.
fn add_label_at(
    alloc: Global,
    out: &mut Text,
    estate: &Estate<AnyNode>,
    items: &[usize],
    row: &Row,
) -> Mem<()>
    ensures { OnOk result (out.new ≡ out.old ++ label_text (column_of estate.now.world.cluster row.now.node) row.now.number (written_at estate.now items.now row.now)) }
{
    let text = written_at(alloc, estate, items, row)?;
    let column = column_of(estate.world.cluster, row.node);
    add_written(alloc, out, column, row.number, text.as_bytes())
}

/// Appends a mark of a row.
fn add_mark_at(
    alloc: Global,
    out: &mut Text,
    estate: &Estate<AnyNode>,
    items: &[usize],
    row: &Row,
    mark: Mark,
) -> Mem<()>
    ensures { OnOk result (out.new ≡ out.old ++ text_at estate.now items.now row.now mark) }
{
    match mark {
        Mark::Out { row: _, column } => {
            add_out(alloc, out, estate.world.cluster, row.number, column)
        }
        Mark::Arrow { row: _, sent } => {
            add_arrow_by(alloc, out, estate, row.number, sent, row.event)
        }
        Mark::Lost { row: _, nth } => add_lost_by(alloc, out, estate, row, nth),
        Mark::Done { row: _, nth } => add_done_by(alloc, out, estate, row, nth),
        Mark::Label { row: _ } => add_label_at(alloc, out, estate, items, row),
    }
}

/// Appends a mark.
fn add_mark(
    alloc: Global,
    out: &mut Text,
    estate: &Estate<AnyNode>,
    items: &[usize],
    rows: &[Row],
    mark: Mark,
) -> Mem<()>
    ensures { OnOk result (out.new ≡ out.old ++ mark_text estate.now items.now rows.now mark) }
{
    match rows.get(row_of(mark)) {
        None => Ok(()),
        Some(row) => add_mark_at(alloc, out, estate, items, row, mark),
    }
}

/// Appends all marks.
fn add_marks(
    alloc: Global,
    out: &mut Text,
    estate: &Estate<AnyNode>,
    items: &[usize],
    rows: &[Row],
    marks: &[Mark],
) -> Mem<()>
    ensures { OnOk result (out.new ≡ out.old ++ flat_map (mark_text estate.now items.now rows.now) marks.now) }
{
    for mark in marks {
        add_mark(alloc, out, estate, items, rows, *mark)?;
    }
    Ok(())
}

/// Appends the name over a column.
#[tactic(auto, unfolding(crate::specs::Drawing::name_text))]
fn add_name(alloc: Global, out: &mut Text, cluster: Cluster, column: usize) -> Mem<()>
    ensures { OnOk result (out.new ≡ out.old ++ name_text cluster column) }
{
    out.add(name_open())?;
    add_column_name(alloc, out, cluster, column)?;
    out.add(text_close())
}

/// Appends a column: the name of a node or a board, and its line.
#[tactic(auto, unfolding(crate::specs::Drawing::column_text))]
fn add_column(
    alloc: Global,
    out: &mut Text,
    cluster: Cluster,
    rows: usize,
    column: usize,
) -> Mem<()>
    ensures { OnOk result (out.new ≡ out.old ++ column_text cluster rows column) }
{
    add_marked(alloc, out, moved_to(), x_of(column) as u64)?;
    add_name(alloc, out, cluster, column)?;
    add_marked(alloc, out, life_open(), y_of(rows) as u64)?;
    out.add(life_close())
}

/// How many columns there are, with so many boards.
fn columns_in(cluster: Cluster, boards: u8) -> usize
    ensures { result ≡ columns_in cluster boards }
{
    cluster.count().saturating_add(usize::from(boards))
}

/// Appends all columns.
#[tactic(auto, unfolding(crate::specs::Drawing::columns_text))]
fn add_columns(alloc: Global, out: &mut Text, cluster: Cluster, boards: u8, rows: usize) -> Mem<()>
    ensures { OnOk result (out.new ≡ out.old ++ columns_text cluster boards rows) }
{
    for column in 0..columns_in(cluster, boards) {
        add_column(alloc, out, cluster, rows, column)?;
    }
    Ok(())
}

/// Appends an arrow and its name.
#[tactic(auto, unfolding(crate::specs::Drawing::arrow_sample))]
fn add_arrow_sample(out: &mut Text, name: &[u8]) -> Mem<()>
    ensures { OnOk result (out.new ≡ out.old ++ arrow_sample name.now) }
{
    out.add(arrow_open())?;
    out.add(name)?;
    out.add(sample_close())
}

/// Appends what the colour of a packet means.
#[tactic(auto, unfolding(crate::specs::Drawing::arrow_meaning))]
fn add_arrow_meaning(alloc: Global, out: &mut Text, x: u64, part: Part) -> Mem<()>
    ensures { OnOk result (out.new ≡ out.old ++ arrow_meaning x part) }
{
    add_marked(alloc, out, moved_to(), x)?;
    out.add(arrow_row())?;
    out.add(part_class(part))?;
    add_arrow_sample(out, part_class(part))
}

/// Appends a circle and its name.
#[tactic(auto, unfolding(crate::specs::Drawing::dot_sample))]
fn add_dot_sample(out: &mut Text, name: &[u8]) -> Mem<()>
    ensures { OnOk result (out.new ≡ out.old ++ dot_sample name.now) }
{
    out.add(circle_open())?;
    out.add(name)?;
    out.add(sample_close())
}

/// Appends what the colour of an act means.
#[tactic(auto, unfolding(crate::specs::Drawing::dot_meaning))]
fn add_dot_meaning(alloc: Global, out: &mut Text, x: u64, name: &[u8]) -> Mem<()>
    ensures { OnOk result (out.new ≡ out.old ++ dot_meaning x name.now) }
{
    add_marked(alloc, out, moved_to(), x)?;
    out.add(circle_row())?;
    out.add(name)?;
    add_dot_sample(out, name)
}

#[tactic(auto, unfolding(crate::specs::Drawing::arrow_meanings))]
fn add_arrow_meanings(alloc: Global, out: &mut Text) -> Mem<()>
    ensures { OnOk result (out.new ≡ out.old ++ arrow_meanings) }
{
    add_arrow_meaning(alloc, out, 20, Part::Tokens)?;
    add_arrow_meaning(alloc, out, 100, Part::Logs)?;
    add_arrow_meaning(alloc, out, 170, Part::Reading)?;
    add_arrow_meaning(alloc, out, 250, Part::Maps)
}

#[tactic(auto, unfolding(crate::specs::Drawing::first_dots))]
fn add_first_dots(alloc: Global, out: &mut Text) -> Mem<()>
    ensures { OnOk result (out.new ≡ out.old ++ first_dots) }
{
    add_dot_meaning(alloc, out, 23, b"wrote")?;
    add_dot_meaning(alloc, out, 75, b"read")?;
    add_dot_meaning(alloc, out, 120, b"synced")?;
    add_dot_meaning(alloc, out, 178, b"filed")
}

#[tactic(auto, unfolding(crate::specs::Drawing::last_dots))]
fn add_last_dots(alloc: Global, out: &mut Text) -> Mem<()>
    ensures { OnOk result (out.new ≡ out.old ++ last_dots) }
{
    add_dot_meaning(alloc, out, 222, b"dropped")?;
    add_dot_meaning(alloc, out, 285, b"fell")?;
    add_dot_meaning(alloc, out, 325, b"back")?;
    add_dot_meaning(alloc, out, 370, b"gone")
}

#[tactic(auto, unfolding(crate::specs::Drawing::dot_meanings))]
fn add_dot_meanings(alloc: Global, out: &mut Text) -> Mem<()>
    ensures { OnOk result (out.new ≡ out.old ++ dot_meanings) }
{
    add_first_dots(alloc, out)?;
    add_last_dots(alloc, out)?;
    out.add(b"\n")
}

#[tactic(auto, unfolding(crate::specs::Drawing::signs))]
fn add_signs(out: &mut Text) -> Mem<()>
    ensures { OnOk result (out.new ≡ out.old ++ signs) }
{
    out.add(bar_sign())?;
    out.add(cross_sign())
}

/// Appends what the colours mean.
#[tactic(auto, unfolding(crate::specs::Drawing::legend))]
fn add_legend(alloc: Global, out: &mut Text) -> Mem<()>
    ensures { OnOk result (out.new ≡ out.old ++ legend) }
{
    out.add(title_line())?;
    add_signs(out)?;
    add_arrow_meanings(alloc, out)?;
    add_dot_meanings(alloc, out)
}

/// Appends the colours.
#[tactic(auto, unfolding(crate::specs::Drawing::style))]
fn add_style(out: &mut Text) -> Mem<()>
    ensures { OnOk result (out.new ≡ out.old ++ style) }
{
    out.add(
        b"<style>text{fill:#222;stroke:#fff;stroke-width:4px;stroke-linejoin:round;paint-order:stroke}path{fill:none}.life{stroke:#ccc}.out,.out path{fill:#999}",
    )?;
    out.add(
        b".tokens{stroke:#c2452d}.logs{stroke:#2f6db3}.reading{stroke:#3b8a3e}.maps{stroke:#8a5fb0}",
    )?;
    out.add(
        b".wrote{fill:#c2452d}.read{fill:#3b8a3e}.synced{fill:#c9a227}.filed{fill:#2f6db3}.dropped{fill:#999}.fell{fill:#222}.back{fill:#8a5fb0}.gone{fill:#e0218a}</style>",
    )?;
    out.add(
        b"<defs><marker id='tip' viewBox='0 0 6 6' refX='6' refY='3' markerWidth='6' markerHeight='6' orient='auto'>",
    )?;
    out.add(b"<path d='M0 0L6 3L0 6z' style='fill:#444'/></marker></defs>\n")
}

/// Appends the head of the text: the size.
#[tactic(auto, unfolding(crate::specs::Drawing::head_text))]
fn add_head(alloc: Global, out: &mut Text, cluster: Cluster, boards: u8, rows: usize) -> Mem<()>
    ensures { OnOk result (out.new ≡ out.old ++ head_text cluster boards rows) }
{
    let width = width_of(columns_in(cluster, boards));
    add_marked(alloc, out, svg_open(), width as u64)?;
    add_marked(alloc, out, svg_height(), height_of(rows) as u64)?;
    out.add(svg_font())
}

/// Appends what stands before the marks.
#[tactic(auto, unfolding(crate::specs::Drawing::frame_text))]
fn add_frame(alloc: Global, out: &mut Text, cluster: Cluster, boards: u8, rows: usize) -> Mem<()>
    ensures { OnOk result (out.new ≡ out.old ++ frame_text cluster boards rows) }
{
    add_head(alloc, out, cluster, boards, rows)?;
    add_style(out)?;
    add_legend(alloc, out)?;
    add_columns(alloc, out, cluster, boards, rows)
}

/// The text of a picture of these rows, with so many boards.
#[tactic(auto, unfolding(crate::specs::Drawing::svg))]
pub fn svg(
    alloc: Global,
    estate: &Estate<AnyNode>,
    boards: u8,
    items: &[usize],
    rows: &[Row],
    marks: &[Mark],
) -> Mem<Text>
    ensures { IfOk result (λ text. text ≡ svg estate.now boards items.now rows.now marks.now) }
{
    let mut out = Text::new(alloc);
    add_frame(alloc, &mut out, estate.world.cluster, boards, rows.len())?;
    add_marks(alloc, &mut out, estate, items, rows, marks)?;
    out.add(b"</svg>\n")?;
    Ok(out)
}
