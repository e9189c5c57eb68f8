//! What a node answers to an item of its list.
ghost use Rattle.std.specs.Prelude.{◌≡◌, IfOk};

use std::alloc::Global;
use xfs_base::{Bytes, Copied, Crosses, List, Mem, SegName, Text, Value, copy_each};

/// Why a call on files is refused. `docs/LANGUAGE.md` says when each comes.
#[derive(Clone, Copy, PartialEq, Eq)]
pub enum FileFault {
    /// There is no entry of that name.
    NoEntry,
    /// There is an entry of that name already.
    Exists,
    /// A file stands where a directory is wanted.
    NotDir,
    /// A directory stands where a file is wanted.
    IsDir,
    /// A name is none.
    BadName,
    /// The bucket of the name is full.
    DirFull,
    /// The file would grow past its greatest size.
    TooBig,
    /// A bucket or a size that was read is not of its form.
    BadDir,
}

/// What a node answers to an item. `docs/LANGUAGE.md` says which items have which answers.
pub enum Answer {
    /// A block was written, and this is its version.
    Version(u64),
    /// A block was read: its version and its value.
    Got(u64, Value),
    /// It is done.
    Done,
    /// A file or a directory was made, with this index number.
    Made(u32),
    /// These bytes were read from a file.
    Bytes(Bytes),
    /// The size of a file, in bytes.
    Size(u64),
    /// The names in a directory.
    Names(List<Text>),
    /// The new epoch of a slot.
    Epoch(u32),
    /// How many slots were registered, or segments deleted.
    Count(u32),
    /// How many fragments were filled again, and how many are gone.
    Rebuilt(u32, u32),
    /// The node has an unanswered item.
    Busy,
    /// The node is down or opening its log.
    Down,
    /// The node is up.
    Up,
    /// The node crashed before it could answer.
    Cut,
    /// A segment that is needed is lost.
    Lost(SegName),
    /// A call on files is refused.
    File(FileFault),
}

impl Drop for Answer {
    fn drop(self) {
        match self {
            Answer::Version(_) => {}
            Answer::Got(_, part) => drop(part),
            Answer::Done => {}
            Answer::Made(_) => {}
            Answer::Bytes(part) => drop(part),
            Answer::Size(_) => {}
            Answer::Names(part) => drop(part),
            Answer::Epoch(_) => {}
            Answer::Count(_) => {}
            Answer::Rebuilt(_, _) => {}
            Answer::Busy => {}
            Answer::Down => {}
            Answer::Up => {}
            Answer::Cut => {}
            Answer::Lost(_) => {}
            Answer::File(_) => {}
        }
    }
}

impl Answer {
    /// An answer equal to this one.
    pub fn copy(&self, alloc: Global) -> Mem<Answer>
        ensures { IfOk result (λ copied. copied ≡ self.now) }
    {
        match self {
            Answer::Version(ver) => Ok(Answer::Version(*ver)),
            Answer::Got(ver, value) => Ok(Answer::Got(*ver, value.copy(alloc)?)),
            Answer::Done => Ok(Answer::Done),
            Answer::Made(ino) => Ok(Answer::Made(*ino)),
            Answer::Bytes(bytes) => Ok(Answer::Bytes(bytes.copy(alloc)?)),
            Answer::Size(size) => Ok(Answer::Size(*size)),
            Answer::Names(names) => Ok(Answer::Names(copy_each(alloc, names)?)),
            Answer::Epoch(epoch) => Ok(Answer::Epoch(*epoch)),
            Answer::Count(count) => Ok(Answer::Count(*count)),
            Answer::Rebuilt(filled, gone) => Ok(Answer::Rebuilt(*filled, *gone)),
            Answer::Busy => Ok(Answer::Busy),
            Answer::Down => Ok(Answer::Down),
            Answer::Up => Ok(Answer::Up),
            Answer::Cut => Ok(Answer::Cut),
            Answer::Lost(seg) => Ok(Answer::Lost(*seg)),
            Answer::File(fault) => Ok(Answer::File(*fault)),
        }
    }
}

impl Copied for Answer {
    fn copied(&self, alloc: Global) -> Mem<Answer> {
        self.copy(alloc)
    }
}

impl Crosses for FileFault {}

impl Crosses for Answer {}
