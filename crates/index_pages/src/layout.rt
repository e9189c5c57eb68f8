//! Which blocks share a page.
ghost use Rattle.std.specs.Prelude.{◌≡◌, ◌+◌, ◌<◌, ◌^◌, IfOk};
ghost use Rattle.index_pages.specs.Layout.{first_block, is_direct, blocks_run, blocks_on};

use std::alloc::Global;
use xfs_base::{BlockId, Ino, List, Mem};

/// How many blocks from block 0 on stand in a file's direct page.
const DIRECT: u32 = 16;

/// How many blocks an indirect page has.
const INDIRECT: u32 = 64;

/// A page of the index: it is known by its first block.
#[derive(Clone, Copy, PartialEq, Eq)]
pub struct Page {
    /// The first of the blocks that share the page.
    pub first: BlockId,
    /// Whether something was put on it since the pages were last clean.
    pub changed: bool,
}

fn is_direct(blk: u32) -> bool
    ensures { result ≡ is_direct blk }
{
    blk < DIRECT || blk == u32::MAX
}

/// The first block of a block's page. Blocks 0 to 15 and block 4,294,967,295 of a file share its direct
/// page; from block 16 on each 64 blocks share an indirect page.
pub fn first_block(block: BlockId) -> BlockId
    ensures { result ≡ first_block block }
{
    if is_direct(block.blk) {
        return BlockId {
            ino: block.ino,
            blk: 0,
        };
    }
    BlockId {
        ino: block.ino,
        blk: DIRECT + (block.blk - DIRECT) / INDIRECT * INDIRECT,
    }
}

// So many blocks of a file, in order.
fn blocks_run(alloc: Global, first: BlockId, count: u32) -> Mem<List<BlockId>>
    requires { first.blk + count < 2 ^ 32 }
    ensures { IfOk result (λ blocks. blocks ≡ blocks_run first count) }
{
    let mut blocks = List::new(alloc);
    for k in 0..count {
        blocks.push(BlockId {
            ino: first.ino,
            blk: first.blk + k,
        })?;
    }
    Ok(blocks)
}

/// The blocks that share the page of this first block, in order.
pub(crate) fn blocks_on(alloc: Global, first: BlockId) -> Mem<List<BlockId>>
    ensures { IfOk result (λ blocks. blocks ≡ blocks_on first) }
{
    if first.blk == 0 {
        let mut blocks = blocks_run(alloc, first, DIRECT)?;
        blocks.push(BlockId {
            ino: first.ino,
            blk: u32::MAX,
        })?;
        return Ok(blocks);
    }
    blocks_run(alloc, first, INDIRECT.min(u32::MAX - first.blk))
}
