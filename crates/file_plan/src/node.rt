//! What an entry of a directory leads to.
ghost use Rattle.std.specs.Prelude.{◌≡◌};
ghost use Rattle.file_plan.specs.Names.{is_directory, same_node};

use xfs_base::{Crosses, Ino};

/// What an index number is of (the 1996 paper, "File Directories and Index Numbers": directories are
/// ordinary files that map names to index numbers).
#[derive(Clone, Copy)]
pub enum Kind {
    /// A file.
    File,
    /// A directory.
    Directory,
}

/// What a name leads to: a file or a directory, by its index number.
#[derive(Clone, Copy)]
pub struct Node {
    /// Which of both it is.
    pub kind: Kind,
    /// Its index number.
    pub ino: Ino,
}

impl Node {
    /// Whether it is a directory.
    pub fn is_directory(self) -> bool
        ensures { result ≡ is_directory self }
    {
        match self.kind {
            Kind::File => false,
            Kind::Directory => true,
        }
    }

    /// Whether both are one: of one kind and of one number.
    pub fn is_same(self, other: Node) -> bool
        ensures { result ≡ same_node self other }
    {
        match (self.kind, other.kind) {
            (Kind::File, Kind::File) | (Kind::Directory, Kind::Directory) => {
                self.ino == other.ino
            }
            _ => false,
        }
    }
}

impl Crosses for Kind {}

impl Crosses for Node {}
