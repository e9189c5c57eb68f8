//! Names of files and of their blocks.
ghost use Rattle.std.specs.Prelude.{◌≡◌, ◌↔◌, IsTrue};
ghost use Rattle.xfs_base.specs.Blocks.{block_cmp, same_block, slot_of, creator_of};

use std::cmp::Ordering;

/// The index number of a file (the 1996 paper, "File Directories and Index Numbers"). Its low 3 bits name
/// the slot of the manager map, the next 4 bits the client that created the file, 0 for none, and the
/// upper 25 bits are a counter. The root directory is 0.
#[derive(Clone, Copy, PartialEq, Eq, PartialOrd, Ord, Hash)]
pub struct Ino(pub u32);

impl Ino {
    /// The slot of the manager map, 0 to 7: some bits of a file's index number select its manager
    /// (the 1996 paper, "The Manager Map").
    pub fn slot(self) -> u8
        ensures { result ≡ slot_of self.0 }
    {
        (self.0 % 8) as u8
    }

    /// The client that created the file, or 0 where no client did.
    pub fn creator(self) -> u8
        ensures { result ≡ creator_of self.0 }
    {
        (self.0 / 8 % 16) as u8
    }
}

/// A block of a file: the unit of caching and of ownership (the 1996 paper, "Cache Consistency").
/// Blocks of a file count from 0. The order is by index number, then by block number.
#[derive(Clone, Copy, PartialEq, Eq, PartialOrd, Ord, Hash)]
pub struct BlockId {
    /// The file.
    pub ino: Ino,
    /// The number of the block in the file.
    pub blk: u32,
}

impl BlockId {
    /// Where this block stands to another in the order of blocks.
    pub fn order(self, other: BlockId) -> Ordering
        ensures { result ≡ block_cmp self other }
    {
        self.cmp(&other)
    }

    /// Whether both name one block.
    pub fn is_same(self, other: BlockId) -> bool
        ensures exact { IsTrue result ↔ (self ≡ other) }
        ensures test { result ≡ same_block self other }
    {
        self == other
    }
}
