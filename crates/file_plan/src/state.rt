//! Where a call on files stands.
use crate::{Name, Node};
use version_model::Answer;
use xfs_base::{Crosses, Ino, List, Value};

/// What is done at the entry to which a path leads.
#[derive(Drop)]
pub enum Job {
    /// A file or a directory is made.
    Makes(Node),
    /// Bytes are written into a file.
    Puts {
        /// Where in the file, in bytes.
        offset: u32,
        /// What is written.
        bytes: List<u8>,
    },
    /// Bytes of a file are read.
    Gets {
        /// Where in the file, in bytes.
        offset: u32,
        /// At most how many bytes.
        len: u32,
    },
    /// The size of a file is told.
    Sizes,
    /// The names in a directory are listed.
    Lists,
    /// A file is removed.
    Removes,
    /// A file gets this path.
    Moves {
        /// Its new path.
        to: List<Name>,
    },
    /// A file gets a second entry.
    Links {
        /// The file.
        node: Node,
        /// The directory of its first entry.
        from: Ino,
        /// The name of its first entry.
        old: Name,
    },
    /// The first entry of a file goes, where it still stands.
    Unlinks(Node),
}

/// What the size of a file is read for.
#[derive(Drop)]
pub enum Task {
    /// It is the answer.
    Tells,
    /// Bytes are cut by it.
    Cuts {
        /// Where in the file, in bytes.
        offset: u32,
        /// At most how many bytes.
        len: u32,
    },
    /// It has to be at least this.
    Raises {
        /// The end of what was written, in bytes.
        end: u32,
    },
    /// The blocks below it and the size go.
    Clears,
}

/// Where a call on files stands. Each state but `Ends` waits for the answer to one call on blocks.
#[derive(Drop)]
pub enum PlanState {
    /// It is done.
    Ends(Answer),
    /// It reads the bucket of a name that has to be a directory's, with more names to come.
    Walks {
        /// The directory that it is in.
        dir: Ino,
        /// The name.
        name: Name,
        /// The name after it.
        onto: Name,
        /// The names after that.
        rest: List<Name>,
        /// What is done at the path's last name.
        job: Job,
    },
    /// It reads the bucket of a path's last name.
    Looks {
        /// The directory that it is in.
        dir: Ino,
        /// The name.
        name: Name,
        /// What is done at it.
        job: Job,
    },
    /// It writes a bucket over the version that it read.
    Enters {
        /// The directory.
        dir: Ino,
        /// The name that comes or goes.
        name: Name,
        /// The version that was read.
        ver: u64,
        /// What the bucket then holds.
        rows: List<(Name, Node)>,
        /// The index number under the name.
        ino: Ino,
        /// What is done.
        job: Job,
    },
    /// It waits until all is settled, before the first entry of a moved file goes.
    Syncs {
        /// The directory of the first entry.
        dir: Ino,
        /// The name of the first entry.
        name: Name,
        /// The file.
        node: Node,
    },
    /// It reads the size of a file.
    Measures {
        /// The file.
        ino: Ino,
        /// What for.
        task: Task,
    },
    /// It reads a block, of which some bytes are wanted.
    Fetches {
        /// The file.
        ino: Ino,
        /// The number of the block.
        blk: u32,
        /// From which byte of the block on.
        low: u32,
        /// How many bytes are wanted of this block and of those after it.
        left: u32,
        /// The bytes before them.
        got: List<u8>,
    },
    /// It writes a whole block.
    Fills {
        /// The file.
        ino: Ino,
        /// The number of the block.
        blk: u32,
        /// What is written from this block on.
        bytes: List<u8>,
        /// Where in the file that ends.
        end: u32,
    },
    /// It reads a block of which a part is to be written.
    Takes {
        /// The file.
        ino: Ino,
        /// The number of the block.
        blk: u32,
        /// From which byte of the block on.
        low: u32,
        /// What is written from that byte on.
        bytes: List<u8>,
        /// Where in the file that ends.
        end: u32,
    },
    /// It writes a part of a block over the version that it read.
    Patches {
        /// The file.
        ino: Ino,
        /// The number of the block.
        blk: u32,
        /// From which byte of the block on.
        low: u32,
        /// What is written from that byte on.
        bytes: List<u8>,
        /// Where in the file that ends.
        end: u32,
        /// The version that was read.
        ver: u64,
        /// What was read.
        old: Value,
    },
    /// It writes a size over the version that it read.
    Grows {
        /// The file.
        ino: Ino,
        /// Its new size, in bytes.
        end: u32,
        /// The version that was read.
        ver: u64,
    },
    /// It makes a block of a removed file Absent.
    Empties {
        /// The file.
        ino: Ino,
        /// The number of the block.
        blk: u32,
        /// How many blocks come after it.
        left: u32,
        /// The version of the size that was read.
        ver: u64,
    },
    /// It makes the size of a removed file Absent, over the version that it read.
    Closes {
        /// The file.
        ino: Ino,
        /// The version that was read.
        ver: u64,
    },
    /// It reads a bucket of a directory that is listed.
    Gathers {
        /// The directory.
        dir: Ino,
        /// The number of the bucket.
        blk: u32,
        /// How many buckets come after it.
        left: u32,
        /// What the buckets before it hold, in rising order of names.
        rows: List<(Name, Node)>,
    },
}

impl Crosses for Job {}

impl Crosses for Task {}

impl Crosses for PlanState {}
