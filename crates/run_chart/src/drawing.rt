//! The text of a picture: one SVG, made of its marks alone. The title of each mark tells it whole.
ghost use Rattle.std.specs.Prelude.{◌≡◌, ◌++◌, slice_get, IfOk, MatchOption, OnOk, Some, None};
ghost use Rattle.std.specs.List.{flat_map};
ghost use Rattle.act_text.specs.Acts.{act_text};
ghost use Rattle.run_chart.specs.Drawing.{act_class, answer_of, arrow_by, arrow_text, at_text, begun_line, class_text, column_name, column_of, cross_text, done_by, done_text, dot_text, ends_text, event_text, label_text, line_of_arrow, line_text, lost_by, lost_text, lost_title, out_text, out_title, packet_title, part_text, tail_of, title_text, turn_of, words_text, written_at, xml_byte, xml_text};
ghost use Rattle.run_chart.specs.Stretches.{within};

use crate::label::{Part, add_label, add_ways, part_of};
use crate::piece::{
    arrow_tip, bar_path, circle_at, circle_close, class_open, cross_path, mark_end, moved_to,
    text_close, turned_by, words_open,
};
use crate::place::{x_of, y_of};
use crate::row::Row;
use crate::stretch::{front, within};
use act_text::piece::{add_marked, add_node, add_number};
use act_text::{add_act, add_answer};
use core_world::AnyNode;
use script_print::add_work;
use script_text::Line;
use std::alloc::Global;
use version_model::Act;
use wire_msg::Packet;
use world_base::{Cluster, Estate, Event};
use xfs_base::{Mem, NodeId, Text};

/// Appends a byte of a text that stands within a mark.
fn add_byte(out: &mut Text, byte: u8) -> Mem<()>
    ensures { OnOk result (out.new ≡ out.old ++ xml_byte byte) }
{
    match byte {
        b'&' => out.add(b"&amp;"),
        b'<' => out.add(b"&lt;"),
        b'>' => out.add(b"&gt;"),
        _ => out.add(&[byte]),
    }
}

/// Appends a text that stands within a mark.
#[tactic(auto, unfolding(crate::specs::Drawing::xml_text))]
fn add_xml(out: &mut Text, text: &[u8]) -> Mem<()>
    ensures { OnOk result (out.new ≡ out.old ++ xml_text text.now) }
{
    for byte in text {
        add_byte(out, *byte)?;
    }
    Ok(())
}

/// Appends the title of a mark.
#[tactic(auto, unfolding(crate::specs::Drawing::title_text))]
fn add_title(out: &mut Text, text: &[u8]) -> Mem<()>
    ensures { OnOk result (out.new ≡ out.old ++ title_text text.now) }
{
    out.add(b"<title>")?;
    add_xml(out, front(text, 400))?;
    out.add(b"</title>")
}

/// The class by which a packet has its colour.
#[tactic(auto, unfolding(crate::specs::Drawing::part_text))]
pub(crate) fn part_class(part: Part) -> &'static [u8]
    ensures { result.now ≡ part_text part }
{
    match part {
        Part::Tokens => b"tokens",
        Part::Logs => b"logs",
        Part::Reading => b"reading",
        Part::Maps => b"maps",
    }
}

/// The class by which an act has its colour.
#[tactic(auto, unfolding(crate::specs::Drawing::act_class))]
fn act_class(act: &Act) -> &'static [u8]
    ensures { result.now ≡ act_class act.now }
{
    match act {
        Act::Wrote { .. } => b"wrote",
        Act::Read { .. } => b"read",
        Act::Synced { .. } => b"synced",
        Act::Fell { .. } => b"fell",
        Act::Back { .. } => b"back",
        Act::Lost { .. } => b"gone",
        Act::Filed { .. } => b"filed",
        Act::Dropped { .. } => b"dropped",
        Act::Answered { .. } => b"answered",
    }
}

/// The column of a node.
pub(crate) fn column_of(cluster: Cluster, node: NodeId) -> usize
    ensures { result ≡ column_of cluster node }
{
    match cluster.place(node) {
        None => 0,
        Some(column) => column,
    }
}

/// Appends what begins a mark that stands at a node's column and at a row.
#[tactic(auto, unfolding(crate::specs::Drawing::at_text))]
fn add_at(alloc: Global, out: &mut Text, column: usize, row: usize) -> Mem<()>
    ensures { OnOk result (out.new ≡ out.old ++ at_text column row) }
{
    add_marked(alloc, out, moved_to(), x_of(column) as u64)?;
    add_marked(alloc, out, b",", y_of(row) as u64)?;
    out.add(b")'")
}

// ---- what is written at a row

/// Appends a line of the script.
#[tactic(auto, unfolding(crate::specs::Drawing::line_text))]
fn add_line(alloc: Global, text: &mut Text, line: &Line) -> Mem<()>
    ensures { OnOk result (text.new ≡ text.old ++ line_text (Some line.now)) }
{
    add_number(alloc, text, u64::from(line.number))?;
    text.add(b" ")?;
    add_work(alloc, text, &line.work)
}

/// The line of the item that begins after so many others.
fn begun_line<'a>(lines: &'a [Line], items: &[usize], begun: usize) -> Option<&'a Line>
    ensures { MatchOption result (begun_line lines.now items.now begun ≡ None) (λ line. begun_line lines.now items.now begun ≡ Some line.now) }
{
    match items.get(begun.saturating_sub(1)) {
        None => None,
        Some(place) => lines.get(*place),
    }
}

/// Appends the line of the item that begins after so many others.
#[tactic(auto, unfolding(crate::specs::Drawing::line_text))]
fn add_begun(
    alloc: Global,
    text: &mut Text,
    lines: &[Line],
    items: &[usize],
    begun: usize,
) -> Mem<()>
    ensures { OnOk result (text.new ≡ text.old ++ line_text (begun_line lines.now items.now begun)) }
{
    match begun_line(lines, items, begun) {
        None => Ok(()),
        Some(line) => add_line(alloc, text, line),
    }
}

/// Appends the line that begins by the event of a row, or the packet that comes.
#[tactic(auto, unfolding(crate::specs::Drawing::event_text))]
fn add_event(
    alloc: Global,
    text: &mut Text,
    lines: &[Line],
    items: &[usize],
    row: &Row,
    events: &[Event],
) -> Mem<()>
    ensures { OnOk result (text.new ≡ text.old ++ event_text lines.now items.now row.now (slice_get events.now row.now.event)) }
{
    match events.get(row.event) {
        None => Ok(()),
        Some(Event::Begin(_)) => add_begun(alloc, text, lines, items, row.begun),
        Some(Event::Deliver(packet)) => add_label(alloc, text, &packet.as_packet().body),
        Some(Event::Tick(_)) => Ok(()),
    }
}

/// Appends an answer behind an equals sign.
fn add_answer_of(alloc: Global, text: &mut Text, act: &Act) -> Mem<()>
    ensures { OnOk result (text.new ≡ text.old ++ answer_of act.now) }
{
    match act {
        Act::Answered {
            node: _,
            item: _,
            answer,
        } => {
            text.add(b" = ")?;
            add_answer(alloc, text, answer)
        }
        _ => Ok(()),
    }
}

/// Appends the answers among some acts.
fn add_answers(alloc: Global, text: &mut Text, acts: &[Act]) -> Mem<()>
    ensures { OnOk result (text.new ≡ text.old ++ flat_map answer_of acts.now) }
{
    for act in acts {
        add_answer_of(alloc, text, act)?;
    }
    Ok(())
}

/// What is written at a row.
#[tactic(auto, unfolding(crate::specs::Drawing::written_at))]
pub(crate) fn written_at(
    alloc: Global,
    estate: &Estate<AnyNode>,
    items: &[usize],
    row: &Row,
) -> Mem<Text>
    ensures { IfOk result (λ text. text ≡ written_at estate.now items.now row.now) }
{
    let mut text = Text::new(alloc);
    let lines = estate.script.lines.as_slice();
    add_event(
        alloc,
        &mut text,
        lines,
        items,
        row,
        estate.events.as_slice(),
    )?;
    let acts = within(estate.world.acts.as_slice(), row.acts);
    add_answers(alloc, &mut text, acts)?;
    Ok(text)
}

// ---- marks

/// Appends the name over a column: that of a node, or of a board, which stand behind all nodes.
#[tactic(auto, unfolding(crate::specs::Drawing::column_name))]
pub(crate) fn add_column_name(
    alloc: Global,
    out: &mut Text,
    cluster: Cluster,
    column: usize,
) -> Mem<()>
    ensures { OnOk result (out.new ≡ out.old ++ column_name cluster column) }
{
    if column < cluster.count() {
        return add_node(alloc, out, cluster.node_at(column));
    }
    let place = column - cluster.count();
    add_marked(alloc, out, b"b", place.saturating_add(1) as u64)
}

/// Appends what begins a mark of a class that stands by itself.
#[tactic(auto, unfolding(crate::specs::Drawing::class_text))]
fn add_class(out: &mut Text, name: &[u8]) -> Mem<()>
    ensures { OnOk result (out.new ≡ out.old ++ class_text name.now) }
{
    out.add(b"<g class='")?;
    out.add(name)?;
    out.add(b"'>")
}

/// The title of a grey bar.
#[tactic(auto, unfolding(crate::specs::Drawing::out_title))]
fn out_title(alloc: Global, cluster: Cluster, column: usize) -> Mem<Text>
    ensures { IfOk result (λ text. text ≡ out_title cluster column) }
{
    let mut title = Text::new(alloc);
    add_column_name(alloc, &mut title, cluster, column)?;
    title.add(b" doesn't serve")?;
    Ok(title)
}

/// Appends a grey bar at a node or a board that doesn't serve.
#[tactic(auto, unfolding(crate::specs::Drawing::out_text))]
pub(crate) fn add_out(
    alloc: Global,
    out: &mut Text,
    cluster: Cluster,
    row: usize,
    column: usize,
) -> Mem<()>
    ensures { OnOk result (out.new ≡ out.old ++ out_text cluster row column) }
{
    let title = out_title(alloc, cluster, column)?;
    add_at(alloc, out, column, row)?;
    out.add(bar_path())?;
    add_title(out, title.as_bytes())?;
    out.add(mark_end())
}

/// Where an arrow begins: at its row, or at the upper end of the columns.
fn tail_of(sent: Option<usize>) -> usize
    ensures { result ≡ tail_of sent }
{
    match sent {
        None => 90,
        Some(row) => y_of(row),
    }
}

/// Appends the four ends of an arrow.
#[tactic(auto, unfolding(crate::specs::Drawing::ends_text))]
fn add_ends(
    alloc: Global,
    out: &mut Text,
    cluster: Cluster,
    row: usize,
    sent: Option<usize>,
    packet: &Packet,
) -> Mem<()>
    ensures { OnOk result (out.new ≡ out.old ++ ends_text cluster row sent packet.now) }
{
    let (from, to) = (
        column_of(cluster, packet.from),
        column_of(cluster, packet.to),
    );
    add_marked(alloc, out, b"<line x1='", x_of(from) as u64)?;
    add_marked(alloc, out, b"' y1='", tail_of(sent) as u64)?;
    add_marked(alloc, out, b"' x2='", x_of(to) as u64)?;
    add_marked(alloc, out, b"' y2='", y_of(row) as u64)
}

/// Appends the line of an arrow.
#[tactic(auto, unfolding(crate::specs::Drawing::line_of_arrow))]
fn add_line_of_arrow(
    alloc: Global,
    out: &mut Text,
    cluster: Cluster,
    row: usize,
    sent: Option<usize>,
    packet: &Packet,
) -> Mem<()>
    ensures { OnOk result (out.new ≡ out.old ++ line_of_arrow cluster row sent packet.now) }
{
    add_ends(alloc, out, cluster, row, sent, packet)?;
    out.add(arrow_tip())
}

/// The title of a packet that comes.
#[tactic(auto, unfolding(crate::specs::Drawing::packet_title))]
fn packet_title(alloc: Global, packet: &Packet) -> Mem<Text>
    ensures { IfOk result (λ text. text ≡ packet_title packet.now) }
{
    let mut title = Text::new(alloc);
    add_label(alloc, &mut title, &packet.body)?;
    add_ways(alloc, &mut title, packet)?;
    Ok(title)
}

/// Appends the arrow of a packet that comes.
#[tactic(auto, unfolding(crate::specs::Drawing::arrow_text))]
fn add_arrow(
    alloc: Global,
    out: &mut Text,
    cluster: Cluster,
    row: usize,
    sent: Option<usize>,
    packet: &Packet,
) -> Mem<()>
    ensures { OnOk result (out.new ≡ out.old ++ arrow_text cluster row sent packet.now) }
{
    let title = packet_title(alloc, packet)?;
    add_class(out, part_class(part_of(&packet.body)))?;
    add_line_of_arrow(alloc, out, cluster, row, sent, packet)?;
    add_title(out, title.as_bytes())?;
    out.add(mark_end())
}

/// By how much a lost packet's arrow is turned.
fn turn_of(nth: usize) -> usize
    ensures { result ≡ turn_of nth }
{
    usize::min(nth, 8) * 10
}

/// Appends a short arrow that ends in a cross.
#[tactic(auto, unfolding(crate::specs::Drawing::cross_text))]
fn add_cross(alloc: Global, out: &mut Text, part: Part, nth: usize) -> Mem<()>
    ensures { OnOk result (out.new ≡ out.old ++ cross_text part nth) }
{
    out.add(class_open())?;
    out.add(part_class(part))?;
    add_marked(alloc, out, turned_by(), turn_of(nth) as u64)?;
    out.add(cross_path())
}

/// The title of a packet that never comes.
#[tactic(auto, unfolding(crate::specs::Drawing::lost_title))]
fn lost_title(alloc: Global, packet: &Packet) -> Mem<Text>
    ensures { IfOk result (λ text. text ≡ lost_title packet.now) }
{
    let mut title = packet_title(alloc, packet)?;
    title.add(b", never delivered")?;
    Ok(title)
}

/// Appends the short arrow of a packet that never comes, the so-many-th that is sent in its event.
#[tactic(auto, unfolding(crate::specs::Drawing::lost_text))]
fn add_lost(
    alloc: Global,
    out: &mut Text,
    cluster: Cluster,
    row: usize,
    nth: usize,
    packet: &Packet,
) -> Mem<()>
    ensures { OnOk result (out.new ≡ out.old ++ lost_text cluster row nth packet.now) }
{
    let title = lost_title(alloc, packet)?;
    add_at(alloc, out, column_of(cluster, packet.from), row)?;
    add_cross(alloc, out, part_of(&packet.body), nth)?;
    add_title(out, title.as_bytes())?;
    out.add(mark_end())
}

/// Appends the circle of an act, the so-many-th of its event.
#[tactic(auto, unfolding(crate::specs::Drawing::dot_text))]
fn add_dot(alloc: Global, out: &mut Text, act: &Act, nth: usize) -> Mem<()>
    ensures { OnOk result (out.new ≡ out.old ++ dot_text act.now nth) }
{
    out.add(class_open())?;
    out.add(act_class(act))?;
    add_marked(alloc, out, circle_at(), (usize::min(nth, 8) * 6) as u64)?;
    out.add(circle_close())
}

/// The title of an act.
fn act_title(alloc: Global, act: &Act) -> Mem<Text>
    ensures { IfOk result (λ text. text ≡ act_text act.now) }
{
    let mut title = Text::new(alloc);
    add_act(alloc, &mut title, act)?;
    Ok(title)
}

/// Appends the mark of an act, the so-many-th of its event.
#[tactic(auto, unfolding(crate::specs::Drawing::done_text))]
fn add_done(
    alloc: Global,
    out: &mut Text,
    column: usize,
    row: usize,
    nth: usize,
    act: &Act,
) -> Mem<()>
    ensures { OnOk result (out.new ≡ out.old ++ done_text column row nth act.now) }
{
    let title = act_title(alloc, act)?;
    add_at(alloc, out, column, row)?;
    add_dot(alloc, out, act, nth)?;
    add_title(out, title.as_bytes())?;
    out.add(mark_end())
}

/// Appends at most 44 bytes of what is written at a row.
#[tactic(auto, unfolding(crate::specs::Drawing::words_text))]
fn add_words(out: &mut Text, text: &[u8]) -> Mem<()>
    ensures { OnOk result (out.new ≡ out.old ++ words_text text.now) }
{
    out.add(words_open())?;
    add_xml(out, front(text, 44))?;
    out.add(text_close())
}

/// Appends what is written at a row.
#[tactic(auto, unfolding(crate::specs::Drawing::label_text))]
pub(crate) fn add_written(
    alloc: Global,
    out: &mut Text,
    column: usize,
    row: usize,
    text: &[u8],
) -> Mem<()>
    ensures { OnOk result (out.new ≡ out.old ++ label_text column row text.now) }
{
    add_at(alloc, out, column, row)?;
    add_words(out, text)?;
    add_title(out, text)?;
    out.add(mark_end())
}

/// Appends the arrow of a row's event, where a packet comes by it.
pub(crate) fn add_arrow_by(
    alloc: Global,
    out: &mut Text,
    estate: &Estate<AnyNode>,
    row: usize,
    sent: Option<usize>,
    event: usize,
) -> Mem<()>
    ensures { OnOk result (out.new ≡ out.old ++ arrow_by estate.now row sent (slice_get estate.now.events event)) }
{
    match estate.events.get(event) {
        Some(Event::Deliver(packet)) => {
            add_arrow(
                alloc,
                out,
                estate.world.cluster,
                row,
                sent,
                packet.as_packet(),
            )
        }
        _ => Ok(()),
    }
}

/// Appends the short arrow of the packet of this number, of those that are sent in the event of a row.
pub(crate) fn add_lost_by(
    alloc: Global,
    out: &mut Text,
    estate: &Estate<AnyNode>,
    row: &Row,
    nth: usize,
) -> Mem<()>
    ensures { OnOk result (out.new ≡ out.old ++ lost_by estate.now row.now.number nth (slice_get (within row.now.sent estate.now.world.sent) nth)) }
{
    match within(estate.world.sent.as_slice(), row.sent).get(nth) {
        None => Ok(()),
        Some(packet) => add_lost(
            alloc,
            out,
            estate.world.cluster,
            row.number,
            nth,
            packet.as_packet(),
        ),
    }
}

/// Appends the mark of the act of this number, of those of the event of a row.
pub(crate) fn add_done_by(
    alloc: Global,
    out: &mut Text,
    estate: &Estate<AnyNode>,
    row: &Row,
    nth: usize,
) -> Mem<()>
    ensures { OnOk result (out.new ≡ out.old ++ done_by (column_of estate.now.world.cluster row.now.node) row.now.number nth (slice_get (within row.now.acts estate.now.world.acts) nth)) }
{
    let column = column_of(estate.world.cluster, row.node);
    match within(estate.world.acts.as_slice(), row.acts).get(nth) {
        None => Ok(()),
        Some(act) => add_done(alloc, out, column, row.number, nth, act),
    }
}
