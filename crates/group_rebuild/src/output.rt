//! What a rebuild says.
use xfs_base::{Crosses, Fragment, SegName};

/// What a rebuild says.
#[derive(Drop)]
pub enum Out {
    /// Ask this server for what it holds.
    List(u8),
    /// Ask this server for its fragment of a segment, by the question of this number.
    Fetch(u8, SegName, u32),
    /// Fill this fragment in.
    Fill(Fragment),
    /// It is over: so many fragments were filled in, and so many names are gone.
    Finished(u32, u32),
}

impl Crosses for Out {}
