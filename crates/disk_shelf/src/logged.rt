//! What a disk in memory did, as it keeps it.

/// A write or a sync, and whether the disk stopped within it. The bytes of all writes stand elsewhere, one
/// behind the other.
#[derive(Clone, Copy)]
pub enum Logged {
    /// A write at an offset, of so many bytes.
    Write(usize, usize, bool),
    /// A sync.
    Sync(bool),
}
