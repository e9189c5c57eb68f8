//! What one storage server keeps: fragments by name, the fence of each log, and the names that were deleted.
//! A loss of the disk begins the next generation. This crate knows nothing of groups or of how a segment is
//! cut.
#![tactic(auto)]

pub mod laws;
pub mod shelf;
pub mod store_error;

pub use laws::{fences_never_fall, kept_until_deleted};
pub use shelf::Shelf;
pub use store_error::{Missing, StoreError};
