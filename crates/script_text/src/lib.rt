//! Scripts: which bytes spell which script, and which line is the first that no script may have. The
//! forms of lines stand in a table, `specs/Forms.antt`, and what each part of a line spells in
//! `specs/Spelling.antt`; `parse` answers by them. This crate knows nothing of nodes or packets.
#![tactic(auto)]

mod client_work;
pub mod form;
mod item;
pub mod laws;
mod node_work;
mod operands;
mod part;
mod path;
pub mod reading;
pub mod refusal;
pub mod script;
mod setup_lines;
mod stage;
pub mod text;
mod unclosed;
pub mod word;
mod work;

pub use form::{Form, Part};
pub use laws::one_script_or_fault;
pub use reading::parse;
pub use refusal::{Kind, LineError, ScriptError};
pub use script::{Line, Script};
