//! The texts of numbers, names and values.
ghost use Rattle.std.specs.Prelude.{◌≡◌, ◌++◌, OnOk};
ghost use Rattle.std.specs.Fmt.{decimal};
ghost use Rattle.act_text.specs.Pieces.{value_text, block_text, node_text, log_seq_text, segment_text};

use script_print::spelling::add_quoted;
use std::alloc::Global;
use xfs_base::{BlockId, Mem, NodeId, SegName, Text, Value};

/// Appends a number in decimal.
pub fn add_number(alloc: Global, text: &mut Text, number: u64) -> Mem<()>
    ensures { OnOk result (text.new ≡ text.old ++ decimal number) }
{
    text.add(number.to_string(alloc)?.as_str().as_bytes())
}

/// Appends a mark and a number.
pub fn add_marked(alloc: Global, text: &mut Text, mark: &[u8], number: u64) -> Mem<()>
    ensures { OnOk result (text.new ≡ text.old ++ mark.now ++ decimal number) }
{
    text.add(mark)?;
    add_number(alloc, text, number)
}

/// Appends a value.
pub fn add_value(text: &mut Text, value: &Value) -> Mem<()>
    ensures { OnOk result (text.new ≡ text.old ++ value_text value.now) }
{
    match value.bytes() {
        None => text.add(b"absent"),
        Some(bytes) => add_quoted(text, bytes),
    }
}

/// Appends a block, as `1/0`.
pub fn add_block(alloc: Global, text: &mut Text, block: BlockId) -> Mem<()>
    ensures { OnOk result (text.new ≡ text.old ++ block_text block) }
{
    add_number(alloc, text, u64::from(block.ino.0))?;
    add_marked(alloc, text, b"/", u64::from(block.blk))
}

/// Appends a node, as `c1`.
pub fn add_node(alloc: Global, text: &mut Text, node: NodeId) -> Mem<()>
    ensures { OnOk result (text.new ≡ text.old ++ node_text node) }
{
    match node {
        NodeId::Client(number) => add_marked(alloc, text, b"c", u64::from(number)),
        NodeId::Manager(number) => add_marked(alloc, text, b"m", u64::from(number)),
        NodeId::Server(number) => add_marked(alloc, text, b"s", u64::from(number)),
        NodeId::Cleaner => text.add(b"cl"),
        NodeId::Registry => text.add(b"reg"),
    }
}

/// Appends a log and a number in it, as `c1.1`.
pub fn add_log_seq(alloc: Global, text: &mut Text, seg: SegName) -> Mem<()>
    ensures { OnOk result (text.new ≡ text.old ++ log_seq_text seg) }
{
    add_node(alloc, text, seg.log.writer())?;
    add_marked(alloc, text, b".", u64::from(seg.seq))
}

/// Appends the name of a segment, as `c1.1.1.1`.
pub fn add_segment(alloc: Global, text: &mut Text, seg: SegName) -> Mem<()>
    ensures { OnOk result (text.new ≡ text.old ++ segment_text seg) }
{
    add_log_seq(alloc, text, seg)?;
    add_marked(alloc, text, b".", u64::from(seg.pass.inc))?;
    add_marked(alloc, text, b".", u64::from(seg.pass.att))
}
