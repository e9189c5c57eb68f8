//! The arithmetic of parity fragments: one fragment, or a product of it, is folded into another, byte by
//! byte. A sum of two bytes is their exclusive or; products are those of the field of 256 elements with
//! the polynomial 11D hexadecimal.
//!
//! Each operation is a plain loop over bytes, which says what it does, and a body that does the
//! same for 32 bytes at a time.
#![tactic(auto)]

mod field;
mod lanes;
pub mod laws;
mod mul;
mod tables;
mod xor;

pub use field::{inverse, product};
pub use mul::mul_into;
pub use xor::xor_into;
