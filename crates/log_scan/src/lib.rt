//! Opening a log again after a restart: the servers are asked what they hold of it, the newest segment that
//! may have been settled is picked from their lists, and the chain of segments before it is read back. This
//! crate knows nothing of packets: it is told what the registry and the servers answer, and says what to ask.
#![tactic(auto)]

mod backward;
mod horizon;
pub mod input;
pub mod laws;
pub mod listing;
pub mod opening;
pub mod output;
mod pick;
pub mod scan;
pub mod stage;
mod steps;

pub use input::In;
pub use laws::{chain_is_linked, none_is_newer, start_is_kept};
pub use output::Out;
pub use scan::Scan;
