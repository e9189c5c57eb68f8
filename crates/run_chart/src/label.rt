//! What a packet is called in a picture: the name of its body, what it is about, and which part of xFS it belongs to.
ghost use Rattle.std.specs.Prelude.{◌≡◌, ◌++◌, OnOk};
ghost use Rattle.run_chart.specs.Labels.{label_of, name_of, part_of, same_label, same_packet, same_subject, subject_of, subject_text, ways_text};

use act_text::piece::{add_block, add_marked, add_node, add_segment};
use std::alloc::Global;
use wire_msg::{Body, Packet};
use xfs_base::{BlockId, Mem, SegName, Text};

/// Which part of xFS a packet belongs to; each has a colour of its own.
#[derive(Clone, Copy)]
pub enum Part {
    /// Who may read and write a block, and what managers are told of it.
    Tokens,
    /// The logs: their segments, fences and cleaning.
    Logs,
    /// The reading of what is stored.
    Reading,
    /// The maps, and checkpoints.
    Maps,
}

/// What a packet is about, where that is one thing.
#[derive(Clone, Copy)]
pub enum Subject {
    /// No one thing.
    Nothing,
    /// A block.
    Block(BlockId),
    /// A segment.
    Segment(SegName),
    /// A slot of the index, 0 to 7.
    Slot(u8),
}

impl Subject {
    /// Whether both are one thing.
    fn is_same(self, other: Subject) -> bool
        ensures { result ≡ same_subject self other }
    {
        match (self, other) {
            (Subject::Nothing, Subject::Nothing) => true,
            (Subject::Block(a), Subject::Block(b)) => a.is_same(b),
            (Subject::Segment(a), Subject::Segment(b)) => a.is_same(b),
            (Subject::Slot(a), Subject::Slot(b)) => a == b,
            _ => false,
        }
    }
}

/// The name of a body.
fn name(body: &Body) -> &'static [u8]
    ensures { result.now ≡ name_of body.now }
{
    match body {
        Body::Want(_) => b"Want",
        Body::Grant(_) => b"Grant",
        Body::Forward(_) => b"Forward",
        Body::Supply(_) => b"Supply",
        Body::Recall(_) => b"Recall",
        Body::Gave(_) => b"Gave",
        Body::Gone(_) => b"Gone",
        Body::Deltas(_) => b"Deltas",
        Body::DeltaAck(_) => b"DeltaAck",
        Body::Poll(_) => b"Poll",
        Body::Report(_) => b"Report",
        Body::Store(_) => b"Store",
        Body::Stored(_) => b"Stored",
        Body::Fetch(_) => b"Fetch",
        Body::Fragment(_) => b"Fragment",
        Body::Missing(_) => b"Missing",
        Body::Fence(_) => b"Fence",
        Body::Fenced(_) => b"Fenced",
        Body::List(_) => b"List",
        Body::Listed(_) => b"Listed",
        Body::Delete(_) => b"Delete",
        Body::Deleted(_) => b"Deleted",
        Body::Check(_) => b"Check",
        Body::Live(_) => b"Live",
        Body::Dead(_) => b"Dead",
        Body::UsageAsk(_) => b"UsageAsk",
        Body::Usage(_) => b"Usage",
        Body::Hello(_) => b"Hello",
        Body::Welcome(_) => b"Welcome",
        Body::MapNews(_) => b"MapNews",
        Body::CkptDone(_) => b"CkptDone",
        Body::CkptAck(_) => b"CkptAck",
    }
}

/// What a body is about.
fn subject_of(body: &Body) -> Subject
    ensures { result ≡ subject_of body.now }
{
    match body {
        Body::Want(said) => Subject::Block(said.block),
        Body::Grant(said) => Subject::Block(said.block),
        Body::Forward(said) => Subject::Block(said.block),
        Body::Supply(said) => Subject::Block(said.block),
        Body::Recall(said) => Subject::Block(said.block),
        Body::Gave(said) => Subject::Block(said.block),
        Body::Gone(said) => Subject::Block(said.block),
        Body::Deltas(said) => Subject::Slot(said.slot),
        Body::DeltaAck(said) => Subject::Slot(said.slot),
        Body::Poll(said) => Subject::Slot(said.slot),
        Body::Report(said) => Subject::Slot(said.slot),
        Body::Store(said) => Subject::Segment(said.fragment.meta.name),
        Body::Stored(said) => Subject::Segment(said.name),
        Body::Fetch(said) => Subject::Segment(said.name),
        Body::Fragment(said) => Subject::Segment(said.fragment.meta.name),
        Body::Missing(said) => Subject::Segment(said.name),
        Body::Delete(said) => Subject::Segment(said.name),
        Body::Deleted(said) => Subject::Segment(said.name),
        Body::Check(said) => Subject::Block(said.block),
        Body::Live(said) => Subject::Block(said.block),
        Body::Dead(said) => Subject::Block(said.block),
        Body::UsageAsk(said) => Subject::Slot(said.slot),
        Body::Usage(said) => Subject::Slot(said.slot),
        Body::CkptDone(said) => Subject::Slot(said.slot),
        Body::CkptAck(said) => Subject::Slot(said.slot),
        _ => Subject::Nothing,
    }
}

/// Which part of xFS a body belongs to.
pub fn part_of(body: &Body) -> Part
    ensures { result ≡ part_of body.now }
{
    match body {
        Body::Want(_) => Part::Tokens,
        Body::Grant(_) => Part::Tokens,
        Body::Forward(_) => Part::Tokens,
        Body::Supply(_) => Part::Tokens,
        Body::Recall(_) => Part::Tokens,
        Body::Gave(_) => Part::Tokens,
        Body::Gone(_) => Part::Tokens,
        Body::Deltas(_) => Part::Tokens,
        Body::DeltaAck(_) => Part::Tokens,
        Body::Poll(_) => Part::Tokens,
        Body::Report(_) => Part::Tokens,
        Body::Store(_) => Part::Logs,
        Body::Stored(_) => Part::Logs,
        Body::Fetch(_) => Part::Reading,
        Body::Fragment(_) => Part::Reading,
        Body::Missing(_) => Part::Reading,
        Body::Fence(_) => Part::Logs,
        Body::Fenced(_) => Part::Logs,
        Body::List(_) => Part::Logs,
        Body::Listed(_) => Part::Logs,
        Body::Delete(_) => Part::Logs,
        Body::Deleted(_) => Part::Logs,
        Body::Check(_) => Part::Logs,
        Body::Live(_) => Part::Logs,
        Body::Dead(_) => Part::Logs,
        Body::UsageAsk(_) => Part::Logs,
        Body::Usage(_) => Part::Logs,
        Body::Hello(_) => Part::Maps,
        Body::Welcome(_) => Part::Maps,
        Body::MapNews(_) => Part::Maps,
        Body::CkptDone(_) => Part::Maps,
        Body::CkptAck(_) => Part::Maps,
    }
}

/// Appends what a body is about.
#[tactic(auto, unfolding(crate::specs::Labels::subject_text))]
fn add_subject(alloc: Global, text: &mut Text, subject: Subject) -> Mem<()>
    ensures { OnOk result (text.new ≡ text.old ++ subject_text subject) }
{
    match subject {
        Subject::Nothing => Ok(()),
        Subject::Block(block) => {
            text.add(b" ")?;
            add_block(alloc, text, block)
        }
        Subject::Segment(seg) => {
            text.add(b" ")?;
            add_segment(alloc, text, seg)
        }
        Subject::Slot(slot) => add_marked(alloc, text, b" slot ", u64::from(slot)),
    }
}

/// Appends what a packet is called.
#[tactic(auto, unfolding(crate::specs::Labels::label_of))]
pub fn add_label(alloc: Global, text: &mut Text, body: &Body) -> Mem<()>
    ensures { OnOk result (text.new ≡ text.old ++ label_of body.now) }
{
    text.add(name(body))?;
    add_subject(alloc, text, subject_of(body))
}

/// Appends who says it to whom.
#[tactic(auto, unfolding(crate::specs::Labels::ways_text))]
pub fn add_ways(alloc: Global, text: &mut Text, packet: &Packet) -> Mem<()>
    ensures { OnOk result (text.new ≡ text.old ++ ways_text packet.now) }
{
    text.add(b" from ")?;
    add_node(alloc, text, packet.from)?;
    text.add(b" to ")?;
    add_node(alloc, text, packet.to)
}

/// Whether two bodies are called the same.
#[tactic(auto, unfolding(crate::specs::Labels::same_label))]
fn same_label(a: &Body, b: &Body) -> bool
    ensures { result ≡ same_label a.now b.now }
{
    name(a) == name(b) && subject_of(a).is_same(subject_of(b))
}

/// Whether two packets are drawn as one: sent in one event, by one node to one node, and called the same.
pub fn same_packet(a: &Packet, b: &Packet) -> bool
    ensures { result ≡ same_packet a.now b.now }
{
    a.clock == b.clock
        && (a.from.is_same(b.from) && (a.to.is_same(b.to) && same_label(&a.body, &b.body)))
}
