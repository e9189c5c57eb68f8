//! The lines of acts.
ghost use Rattle.std.specs.Prelude.{◌≡◌, ◌++◌, ◌∷◌, [], OnOk};
ghost use Rattle.xfs_base.specs.declared.node.NodeId.TheVariants.{Client};
ghost use Rattle.version_model.specs.declared.act.Act.TheVariants.{Wrote, Read, Synced, Fell, Back, Lost};
ghost use Rattle.act_text.specs.Pieces.{node_text, segment_text};
ghost use Rattle.act_text.specs.Acts.{act_text, acts_text, flight_text, fall_text, falls_text, chain_text, spaced};

use crate::piece::{add_block, add_marked, add_node, add_number, add_segment, add_value};
use std::alloc::Global;
use version_model::{Act, Fall};
use xfs_base::{BlockId, List, Mem, NodeId, SegName, Text, Value};

/// Appends what an act did, and which client.
fn add_client(alloc: Global, text: &mut Text, verb: &[u8], client: u8) -> Mem<()>
    ensures { OnOk result (text.new ≡ text.old ++ verb.now ++ node_text (Client client)) }
{
    text.add(verb)?;
    add_node(alloc, text, NodeId::Client(client))
}

/// Appends what an act did with a segment.
fn add_seg_act(alloc: Global, text: &mut Text, verb: &[u8], seg: SegName) -> Mem<()>
    ensures { OnOk result (text.new ≡ text.old ++ verb.now ++ segment_text seg ++ 10 ∷ []) }
{
    text.add(verb)?;
    add_segment(alloc, text, seg)?;
    text.add(b"\n")
}

/// Appends a write.
fn add_wrote(alloc: Global, text: &mut Text, client: u8, block: BlockId, value: &Value) -> Mem<()>
    ensures { OnOk result (text.new ≡ text.old ++ act_text (Wrote client block value.now)) }
{
    add_client(alloc, text, b"a wrote ", client)?;
    text.add(b" ")?;
    add_block(alloc, text, block)?;
    text.add(b" ")?;
    add_value(text, value)?;
    text.add(b"\n")
}

/// Appends a read.
fn add_read(
    alloc: Global,
    text: &mut Text,
    client: u8,
    block: BlockId,
    ver: u64,
    value: &Value,
) -> Mem<()>
    ensures { OnOk result (text.new ≡ text.old ++ act_text (Read client block ver value.now)) }
{
    add_client(alloc, text, b"a read ", client)?;
    text.add(b" ")?;
    add_block(alloc, text, block)?;
    add_marked(alloc, text, b" v", ver)?;
    text.add(b" ")?;
    add_value(text, value)?;
    text.add(b"\n")
}

/// Appends the segment that was in flight, by its number and incarnation.
fn add_flight(alloc: Global, text: &mut Text, flight: Option<(u32, u32)>) -> Mem<()>
    ensures { OnOk result (text.new ≡ text.old ++ flight_text flight) }
{
    match flight {
        None => text.add(b"none"),
        Some((seq, inc)) => {
            add_number(alloc, text, u64::from(seq))?;
            add_marked(alloc, text, b".", u64::from(inc))
        }
    }
}

/// Appends what may be lost of a block.
fn add_fall(alloc: Global, text: &mut Text, fall: Fall) -> Mem<()>
    ensures { OnOk result (text.new ≡ text.old ++ spaced (fall_text fall)) }
{
    text.add(b" ")?;
    add_block(alloc, text, fall.block)?;
    add_marked(alloc, text, b":", fall.low)?;
    add_marked(alloc, text, b":", fall.high)
}

/// Appends what may be lost of each of some blocks.
fn add_falls(alloc: Global, text: &mut Text, falls: &[Fall]) -> Mem<()>
    ensures { OnOk result (text.new ≡ text.old ++ falls_text falls.now) }
{
    for fall in falls {
        add_fall(alloc, text, *fall)?;
    }
    Ok(())
}

/// Appends what a crashed client may lose.
fn add_fell(
    alloc: Global,
    text: &mut Text,
    client: u8,
    flight: Option<(u32, u32)>,
    falls: &List<Fall>,
) -> Mem<()>
    ensures { OnOk result (text.new ≡ text.old ++ act_text (Fell client flight falls.now)) }
{
    add_client(alloc, text, b"a fell ", client)?;
    text.add(b" ")?;
    add_flight(alloc, text, flight)?;
    add_falls(alloc, text, falls.as_slice())?;
    text.add(b"\n")
}

/// Appends the names of segments.
fn add_chain(alloc: Global, text: &mut Text, chain: &[SegName]) -> Mem<()>
    ensures { OnOk result (text.new ≡ text.old ++ chain_text chain.now) }
{
    for seg in chain {
        text.add(b" ")?;
        add_segment(alloc, text, *seg)?;
    }
    Ok(())
}

/// Appends that a client is back with these segments.
fn add_back(alloc: Global, text: &mut Text, client: u8, chain: &List<SegName>) -> Mem<()>
    ensures { OnOk result (text.new ≡ text.old ++ act_text (Back client chain.now)) }
{
    add_client(alloc, text, b"a back ", client)?;
    add_chain(alloc, text, chain.as_slice())?;
    text.add(b"\n")
}

/// Appends that all of a client is settled.
fn add_synced(alloc: Global, text: &mut Text, client: u8) -> Mem<()>
    ensures { OnOk result (text.new ≡ text.old ++ act_text (Synced client)) }
{
    add_client(alloc, text, b"a synced ", client)?;
    text.add(b"\n")
}

/// Appends that a node refused a segment as lost.
fn add_lost(alloc: Global, text: &mut Text, node: NodeId, seg: SegName) -> Mem<()>
    ensures { OnOk result (text.new ≡ text.old ++ act_text (Lost node seg)) }
{
    text.add(b"a lost ")?;
    add_node(alloc, text, node)?;
    add_seg_act(alloc, text, b" ", seg)
}

/// Appends the line of an act; answers have none, since the lines of items tell them.
pub fn add_act(alloc: Global, text: &mut Text, act: &Act) -> Mem<()>
    ensures { OnOk result (text.new ≡ text.old ++ act_text act.now) }
{
    match act {
        Act::Wrote {
            client,
            block,
            value,
        } => add_wrote(alloc, text, *client, *block, value),
        Act::Read {
            client,
            block,
            ver,
            value,
        } => add_read(alloc, text, *client, *block, *ver, value),
        Act::Synced { client } => add_synced(alloc, text, *client),
        Act::Fell {
            client,
            flight,
            falls,
        } => add_fell(alloc, text, *client, *flight, falls),
        Act::Back { client, chain } => add_back(alloc, text, *client, chain),
        Act::Lost { node, seg } => add_lost(alloc, text, *node, *seg),
        Act::Filed { seg } => add_seg_act(alloc, text, b"a filed ", *seg),
        Act::Dropped { seg } => add_seg_act(alloc, text, b"a dropped ", *seg),
        Act::Answered { .. } => Ok(()),
    }
}

/// Appends the lines of some acts.
pub fn add_acts(alloc: Global, text: &mut Text, acts: &[Act]) -> Mem<()>
    ensures { OnOk result (text.new ≡ text.old ++ acts_text acts.now) }
{
    for act in acts {
        add_act(alloc, text, act)?;
    }
    Ok(())
}
