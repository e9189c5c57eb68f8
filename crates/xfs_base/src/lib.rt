//! The types that every other crate speaks of: names of nodes, blocks and segments, values, lists and
//! texts that contracts see as what they hold, fields of bytes, the setup of a run, and the gate
//! through which a caller watches a run. This crate knows nothing of scripts, packets or threads.
#![tactic(auto)]

pub mod block;
pub mod bytes;
pub mod copied;
pub mod draws;
pub mod entry;
pub mod field_reader;
pub mod field_writer;
pub mod fragment;
pub mod gate;
pub mod limits;
pub mod list;
pub mod news;
pub mod node;
pub mod segment;
pub mod setup;
pub mod text;
pub mod threads;
pub mod token;
pub mod value;

pub use block::{BlockId, Ino};
pub use bytes::Bytes;
pub use copied::{Copied, copy_each};
pub use entry::{Entry, Place};
pub use field_reader::FieldReader;
pub use field_writer::FieldWriter;
pub use fragment::{FragMeta, Fragment};
pub use gate::{Failed, Gate, OpenGate};
pub use list::{List, Mem};
pub use news::SlotNews;
pub use node::NodeId;
pub use segment::{End, LogId, Pass, Prior, SegName, SegRef};
pub use setup::{GroupSetup, Setup};
pub use text::Text;
pub use threads::Crosses;
pub use token::{Mode, Stamp};
pub use value::{Value, ValueError};
