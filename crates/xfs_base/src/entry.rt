//! What an index holds of a block.
use crate::SegRef;

/// Where a version of a block lies in a log.
#[derive(Clone, Copy, PartialEq, Eq)]
pub struct Place {
    /// The segment.
    pub seg: SegRef,
    /// The number of the item in the segment, from 0.
    pub item: u16,
}

/// What an index holds of a block (the 1996 paper, "The Imap": the imap and the index nodes give a
/// block's place). Version 0 is Absent, and an entry without a place is of an absent version.
#[derive(Clone, Copy, PartialEq, Eq)]
pub struct Entry {
    /// The version.
    pub ver: u64,
    /// How often the cleaner moved it.
    pub hop: u32,
    /// Where it lies; none where it is absent.
    pub place: Option<Place>,
}
