//! An index of blocks in pages, so that a checkpoint writes only the pages that changed (the 1996 paper,
//! "The Imap": the imap and the index nodes give a block's place). To those who ask, it answers as the
//! plain table of what was put last at each block. This crate knows nothing of logs, managers or
//! checkpoints.
#![tactic(auto)]

pub mod laws;
pub mod layout;
pub mod pages;

pub use layout::{Page, first_block};
pub use pages::Pages;
