//! What a call of the program answers: its words, its input, and what it writes, over nodes of any kind.
//! The claim of the top call stands here, in `specs/Claim.antt`.
#![tactic(auto)]

pub mod boards;
pub mod command;
pub mod disks;
pub mod many_threads;
pub mod memory_sink;
pub mod memory_source;
pub mod mounting;
pub mod one_script;
pub mod one_thread;
pub mod outcome;
pub mod output;
pub mod outside;
pub mod spoken;
pub mod unread;
pub mod whole_input;

pub use command::{Command, threads_asked};
pub use many_threads::answer_live;
pub use memory_sink::MemSink;
pub use memory_source::MemSource;
pub use mounting::{answer_mount, answer_threads};
pub use mounts::Reply;
pub use one_thread::answer;
pub use outcome::Outcome;
pub use outside::{Sink, Source};
