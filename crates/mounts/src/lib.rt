//! Runs in which each client's items are called from an application thread of its own, over a pair of rings, and in
//! which its answers go back to that thread: the ends of these rings, a client's cell with its end beside it, the
//! applications, and the run with workers and applications.
#![tactic(auto)]

pub mod application;
mod bell;
pub mod mount;
pub mod mounted_cell;
pub mod mounted_run;
pub mod name;
pub mod pairs;
pub mod port;
pub mod reply;
pub mod running;
pub mod settling;
pub mod starting;
pub mod threads;

pub use application::Application;
pub use mount::Mount;
pub use mounted_cell::MountedCell;
pub use mounted_run::Mounted;
pub use name::MountName;
pub use pairs::pair;
pub use port::Port;
pub use reply::Reply;
pub use running::mounted;
