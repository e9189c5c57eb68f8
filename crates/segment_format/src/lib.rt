//! Segments as bytes, formats 1 and 2, in both directions. `docs/FORMATS.md` has the format in words.
#![tactic(auto)]

mod decode_fields;
mod decoding;
mod encoding;
pub mod format;
mod head;
pub mod laws;
mod rows;
mod seen;
pub mod seg_error;
pub mod segment;
mod threads;

pub use decoding::decode;
pub use encoding::encode;
pub use laws::{attempts_have_one_content, texts_are_apart};
pub use rows::rows_of;
pub use seg_error::SegError;
pub use segment::{Item, Segment};
