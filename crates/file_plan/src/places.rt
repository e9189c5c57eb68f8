//! Where names, sizes and bytes stand.
ghost use Rattle.std.specs.Prelude.{◌≡◌};
ghost use Rattle.file_plan.specs.Calls.{block_at, size_block};
ghost use Rattle.file_plan.specs.Names.{bucket_number};

use crate::Name;
use xfs_base::limits::{FILE_BLOCK, MAX_BYTES};
use xfs_base::{BlockId, Ino};

/// The root directory.
pub const ROOT: Ino = Ino(0);

/// The block of a file in which its size stands.
pub const SIZE_BLOCK: u32 = 4_294_967_295;

/// How many bytes the blocks of a file have, and the longest bucket.
pub const BLOCK_SIZE: u32 = FILE_BLOCK as u32;

/// How many buckets a directory has.
pub const BUCKETS: u32 = 8;

/// Where a file ends at the latest, in bytes.
pub const FILE_END: u32 = MAX_BYTES as u32;

/// The block of a directory that is the bucket of a name.
pub fn bucket_block(dir: Ino, name: &Name) -> BlockId
    ensures { result ≡ block_at dir (bucket_number name.now) }
{
    BlockId {
        ino: dir,
        blk: name.bucket(),
    }
}

/// The block of a file in which its size stands.
pub fn size_block(file: Ino) -> BlockId
    ensures { result ≡ block_at file size_block }
{
    BlockId {
        ino: file,
        blk: SIZE_BLOCK,
    }
}
