//! The header of a segment's text.
use xfs_base::{Prior, SegName};

/// What the header of a segment's text says behind the mark.
#[derive(Clone, Copy)]
pub(crate) struct Head {
    /// The version of the format, 1 or 2.
    pub version: u8,
    /// The name of the segment.
    pub name: SegName,
    /// The segment before it in its log.
    pub prior: Prior,
    /// The id of its stripe group.
    pub group: u32,
    /// How many items follow.
    pub count: u16,
}
