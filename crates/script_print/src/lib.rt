//! Scripts as texts, and scripts from a number: `print` writes the one text of a script, which
//! `script_text` reads again as that script, and `generate` draws a script. The texts are made of the
//! same table of forms by which scripts are read. This crate knows nothing of nodes or packets.
#![tactic(auto)]

mod draws;
pub mod generating;
pub mod printing;
mod setup_text;
pub mod spelling;
mod work_text;

pub use generating::generate;
pub use printing::print;
pub use work_text::add_work;
