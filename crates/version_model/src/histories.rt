//! The histories of all blocks that some acts leave, as two tables.
ghost use Rattle.std.specs.Prelude.{◌≡◌, ℕ, ◌∷◌, [], ◌++◌, ◌==◌, ◌&&◌, ◌↔◌, length, Some, IsTrue, OnOk, if◌then◌else◌};
ghost use Rattle.std.specs.List.{list_any};
ghost use Rattle.std.specs.BTreeMap.{is_at};
ghost use Rattle.std.specs.Map.{remove_entry};
ghost use Rattle.std.specs.Ordering.{nat_cmp};
ghost use Rattle.xfs_base.specs.Blocks.{block_cmp};
ghost use Rattle.version_model.specs.Effects.{append, change, clear, cut_to, holds_flight, pin, pin_all, settle, tell};
ghost use Rattle.version_model.specs.History.{content_at, is_by_other, nothing_yet};
ghost use Rattle.version_model.specs.Legal.{MayFall};
ghost use Rattle.version_model.specs.Shown.{block_in, falls_in, put_block, put_told, settled_in, shown, told_in};

use crate::{BlockHistory, Fall, FallTold};
use std::alloc::Global;
use std::collections::BTreeMap;
use xfs_base::{BlockId, Crosses, List, Mem, SegName, Value};

/// The histories of all blocks, and of each client the falls that wait until it is back.
#[derive(Drop)]
pub(crate) struct Histories {
    blocks: BTreeMap<BlockId, BlockHistory>,
    told: BTreeMap<u8, List<FallTold>>,
}

/// What is known of a block leaves the table.
fn take_block(
    alloc: Global,
    blocks: &mut BTreeMap<BlockId, BlockHistory>,
    block: BlockId,
) -> BlockHistory
    ensures found { result ≡ block_in blocks.old.entries block }
    ensures rest { blocks.new.entries ≡ remove_entry (is_at (block_cmp block)) blocks.old.entries }
{
    match blocks.remove(&block) {
        Some(history) => history,
        None => BlockHistory::unwritten(alloc),
    }
}

/// A version more of a block.
fn append_version(
    alloc: Global,
    blocks: &mut BTreeMap<BlockId, BlockHistory>,
    block: BlockId,
    content: &Value,
    writer: u8,
) -> Mem<()>
    ensures { OnOk result (blocks.new.entries ≡ put_block blocks.old.entries block
        (append (record { content = content.now; writer = writer }) (block_in blocks.old.entries block))) }
{
    let mut history = take_block(alloc, blocks, block);
    history.append(alloc, content, writer)?;
    blocks.insert(block, history)?;
    Ok(())
}

/// A version of a block is pinned.
fn pin_version(
    alloc: Global,
    blocks: &mut BTreeMap<BlockId, BlockHistory>,
    block: BlockId,
    ver: u64,
) -> Mem<()>
    ensures { OnOk result (blocks.new.entries ≡ put_block blocks.old.entries block (pin ver (block_in blocks.old.entries block))) }
{
    let mut history = take_block(alloc, blocks, block);
    history.pin(ver);
    blocks.insert(block, history)?;
    Ok(())
}

/// A block falls to a version.
fn cut_block(
    alloc: Global,
    blocks: &mut BTreeMap<BlockId, BlockHistory>,
    block: BlockId,
    ver: u64,
) -> Mem<()>
    ensures { OnOk result (blocks.new.entries ≡ put_block blocks.old.entries block (cut_to ver (block_in blocks.old.entries block))) }
{
    let history = take_block(alloc, blocks, block).cut_to(ver);
    blocks.insert(block, history)?;
    Ok(())
}

/// The greatest version by a client is pinned, in one block.
fn pin_greatest(client: u8, history: &mut BlockHistory)
    ensures { history.new ≡ pin_all client history.old }
{
    let greatest = history.greatest_by(client);
    history.pin(greatest);
}

/// What waits of a client leaves the table.
fn take_told(alloc: Global, told: &mut BTreeMap<u8, List<FallTold>>, client: u8) -> List<FallTold>
    ensures found { result ≡ told_in told.old.entries client }
    ensures rest { told.new.entries ≡ remove_entry (is_at (nat_cmp client)) told.old.entries }
    ensures cleared { (q : ℕ) → told_in told.new.entries q ≡ (if q == client then [] else told_in told.old.entries q) }
{
    match told.remove(&client) {
        Some(falls) => falls,
        None => List::new(alloc),
    }
}

/// One fall more of a client waits.
fn add_told(
    alloc: Global,
    told: &mut BTreeMap<u8, List<FallTold>>,
    client: u8,
    fall: FallTold,
) -> Mem<()>
    ensures { OnOk result (told.new.entries ≡ put_told told.old.entries client (told_in told.old.entries client ++ fall ∷ [])) }
{
    let mut falls = take_told(alloc, told, client);
    falls.push(fall)?;
    told.insert(client, falls)?;
    Ok(())
}

/// Whether a chain holds a segment of this number and incarnation.
fn has_segment(chain: &[SegName], seq: u32, inc: u32) -> bool
    ensures { result ≡ list_any (λ s. (s.seq == seq) && (s.pass.inc == inc)) chain.now }
{
    chain
        .iter()
        .any(|name| name.seq == seq && name.pass.inc == inc)
}

/// Whether a chain holds the segment that was in flight.
fn holds_flight(chain: &[SegName], flight: Option<(u32, u32)>) -> bool
    ensures { result ≡ holds_flight chain.now flight }
{
    match flight {
        Some((seq, inc)) => has_segment(chain, seq, inc),
        None => false,
    }
}

/// To which version a block falls.
fn falls_to(fall: Fall, adopted: bool) -> u64
    ensures { result ≡ (if adopted then fall.high else fall.low) }
{
    if adopted { fall.high } else { fall.low }
}

/// Blocks fall to their high versions where the flight was adopted, else to their low ones.
fn settle_falls(
    alloc: Global,
    blocks: &mut BTreeMap<BlockId, BlockHistory>,
    falls: &[Fall],
    adopted: bool,
) -> Mem<()>
    ensures { OnOk result (blocks.new.entries ≡ falls_in adopted falls.now blocks.old.entries) }
{
    for fall in falls {
        cut_block(alloc, blocks, fall.block, falls_to(*fall, adopted))?;
    }
    Ok(())
}

/// Each fall that waits is settled by the chain that was found.
fn settle_told(
    alloc: Global,
    blocks: &mut BTreeMap<BlockId, BlockHistory>,
    told: &List<FallTold>,
    chain: &[SegName],
) -> Mem<()>
    ensures { OnOk result (blocks.new.entries ≡ settled_in chain.now told.now blocks.old.entries) }
{
    for fall in told.as_slice() {
        let adopted = holds_flight(chain, fall.flight);
        settle_falls(alloc, blocks, fall.falls.as_slice(), adopted)?;
    }
    Ok(())
}

impl Histories {
    /// The histories before any act.
    pub(crate) fn new(alloc: Global) -> Histories
        ensures { shown result ≡ nothing_yet }
    {
        Histories {
            blocks: BTreeMap::new(alloc),
            told: BTreeMap::new(alloc),
        }
    }

    /// A client wrote a version.
    pub(crate) fn write(
        &mut self,
        alloc: Global,
        block: BlockId,
        content: &Value,
        writer: u8,
    ) -> Mem<()>
        ensures { OnOk result (shown self.new ≡ change block (append (record { content = content.now; writer = writer })) (shown self.old)) }
    {
        append_version(alloc, &mut self.blocks, block, content, writer)
    }

    /// Whether this is the number of a block's newest version.
    pub(crate) fn is_newest(&self, block: BlockId, ver: u64) -> bool
        ensures { IsTrue result ↔ (ver ≡ length ((shown self.now).of_block block).versions) }
    {
        match self.blocks.get(&block) {
            Some(history) => ver == history.newest(),
            None => ver == 0,
        }
    }

    /// Whether a version of a block holds this value.
    pub(crate) fn holds(&self, block: BlockId, ver: u64, value: &Value) -> bool
        ensures { IsTrue result ↔ (content_at ver ((shown self.now).of_block block).versions ≡ Some value.now) }
    {
        match self.blocks.get(&block) {
            Some(history) => history.holds(ver, value),
            None => ver == 0 && value.bytes().is_none(),
        }
    }

    /// Whether a client may lose a block as far as told.
    pub(crate) fn may_fall(&self, client: u8, fall: Fall) -> bool
        ensures { IsTrue result ↔ MayFall client ((shown self.now).of_block fall.block) fall }
    {
        match self.blocks.get(&fall.block) {
            Some(history) => history.may_fall(client, fall),
            None => false,
        }
    }

    /// Whether another client wrote a version of a block.
    fn is_by_other(&self, client: u8, block: BlockId, ver: u64) -> bool
        ensures { result ≡ is_by_other client ver ((shown self.now).of_block block).versions }
    {
        match self.blocks.get(&block) {
            Some(history) => history.is_by_other(client, ver),
            None => false,
        }
    }

    /// A client read a version: it is pinned where another client wrote it.
    pub(crate) fn read(&mut self, alloc: Global, client: u8, block: BlockId, ver: u64) -> Mem<()>
        ensures { OnOk result (shown self.new ≡
            (if is_by_other client ver ((shown self.old).of_block block).versions then change block (pin ver) (shown self.old) else shown self.old)) }
    {
        if self.is_by_other(client, block, ver) {
            return self.pin(alloc, block, ver);
        }
        Ok(())
    }

    /// A version was read by another client than its writer.
    fn pin(&mut self, alloc: Global, block: BlockId, ver: u64) -> Mem<()>
        ensures { OnOk result (shown self.new ≡ change block (pin ver) (shown self.old)) }
    {
        pin_version(alloc, &mut self.blocks, block, ver)
    }

    /// A client has settled all that it wrote.
    pub(crate) fn sync(&mut self, client: u8)
        ensures { shown self.new ≡ record (shown self.old) { of_block = λ b. pin_all client ((shown self.old).of_block b) } }
    {
        self.blocks.retain(|_, history| {
            pin_greatest(client, history);
            true
        });
    }

    /// A client fell: what it may lose waits until it is back.
    pub(crate) fn tell(&mut self, alloc: Global, client: u8, fall: FallTold) -> Mem<()>
        ensures { OnOk result (shown self.new ≡ tell client fall (shown self.old)) }
    {
        add_told(alloc, &mut self.told, client, fall)
    }

    /// A client is back: each fall of it that waits is settled by the chain that it found.
    pub(crate) fn settle(&mut self, alloc: Global, client: u8, chain: &[SegName]) -> Mem<()>
        ensures { OnOk result (shown self.new ≡ clear client (settle chain.now ((shown self.old).told client) (shown self.old))) }
    {
        let told = take_told(alloc, &mut self.told, client);
        settle_told(alloc, &mut self.blocks, &told, chain)
    }
}
