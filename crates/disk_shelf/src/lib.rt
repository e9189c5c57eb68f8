//! A shelf that is kept on a disk: whatever a crash leaves of the disk stands for the shelf before a call or
//! after it.
#![tactic(auto)]

pub mod applied;
pub mod ask;
pub mod disk;
pub mod disk_error;
pub mod disk_shelf;
pub mod durable;
pub mod images;
pub mod laws;
pub mod logged;
pub mod mem_disk;
pub mod opening;
pub mod reading;
pub mod record;
pub mod settling;

pub use ask::Ask;
pub use disk::Disk;
pub use disk_error::{DiskError, OpenError};
pub use disk_shelf::{DiskShelf, open};
pub use laws::{
    a_change_ends_by_the_passes_of_a_stop, an_image_stands_for_one_state, an_opened_disk_has_a_gate,
};
pub use mem_disk::MemDisk;
pub use record::Record;

#[cfg(test)]
mod tests;
