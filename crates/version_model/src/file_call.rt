//! Calls on files and directories.
ghost use Rattle.std.specs.Prelude.{◌≡◌, IfOk};

use std::alloc::Global;
use xfs_base::{Bytes, Copied, Crosses, List, Mem, Text, copy_each};

/// A call on files. A path is the list of its names; the root is the empty list.
pub enum FileCall {
    /// Makes an empty file.
    Mk {
        /// The file.
        path: List<Text>,
    },
    /// Makes an empty directory.
    Mkdir {
        /// The directory.
        path: List<Text>,
    },
    /// Writes bytes into a file.
    Put {
        /// The file.
        path: List<Text>,
        /// Where in the file, in bytes.
        offset: u32,
        /// What is written.
        bytes: Bytes,
    },
    /// Reads bytes of a file.
    Get {
        /// The file.
        path: List<Text>,
        /// Where in the file, in bytes.
        offset: u32,
        /// At most how many bytes.
        len: u32,
    },
    /// Asks for the size of a file.
    Size {
        /// The file.
        path: List<Text>,
    },
    /// Lists the names in a directory.
    Ls {
        /// The directory.
        path: List<Text>,
    },
    /// Removes a file.
    Rm {
        /// The file.
        path: List<Text>,
    },
    /// Gives a file another path: an entry is added, all is settled, and the old entry is removed.
    Mv {
        /// The file.
        from: List<Text>,
        /// Its new path.
        to: List<Text>,
    },
}

impl Drop for FileCall {
    fn drop(self) {
        match self {
            FileCall::Mk { path } => drop(path),
            FileCall::Mkdir { path } => drop(path),
            FileCall::Put {
                path,
                offset: _,
                bytes,
            } => {
                drop(path);
                drop(bytes);
            }
            FileCall::Get {
                path,
                offset: _,
                len: _,
            } => drop(path),
            FileCall::Size { path } => drop(path),
            FileCall::Ls { path } => drop(path),
            FileCall::Rm { path } => drop(path),
            FileCall::Mv { from, to } => {
                drop(from);
                drop(to);
            }
        }
    }
}

impl FileCall {
    /// A call equal to this one.
    pub fn copy(&self, alloc: Global) -> Mem<FileCall>
        ensures { IfOk result (λ copied. copied ≡ self.now) }
    {
        match self {
            FileCall::Mk { path } => Ok(FileCall::Mk {
                path: copy_each(alloc, path)?,
            }),
            FileCall::Mkdir { path } => Ok(FileCall::Mkdir {
                path: copy_each(alloc, path)?,
            }),
            FileCall::Put {
                path,
                offset,
                bytes,
            } => Ok(FileCall::Put {
                path: copy_each(alloc, path)?,
                offset: *offset,
                bytes: bytes.copy(alloc)?,
            }),
            FileCall::Get { path, offset, len } => Ok(FileCall::Get {
                path: copy_each(alloc, path)?,
                offset: *offset,
                len: *len,
            }),
            FileCall::Size { path } => Ok(FileCall::Size {
                path: copy_each(alloc, path)?,
            }),
            FileCall::Ls { path } => Ok(FileCall::Ls {
                path: copy_each(alloc, path)?,
            }),
            FileCall::Rm { path } => Ok(FileCall::Rm {
                path: copy_each(alloc, path)?,
            }),
            FileCall::Mv { from, to } => Ok(FileCall::Mv {
                from: copy_each(alloc, from)?,
                to: copy_each(alloc, to)?,
            }),
        }
    }
}

impl Copied for FileCall {
    fn copied(&self, alloc: Global) -> Mem<FileCall> {
        self.copy(alloc)
    }
}

impl Crosses for FileCall {}
