//! A multiple of one fragment folded into another.
ghost use Rattle.std.specs.Prelude.{◌≡◌, ◌+◌, ◌≤◌, ◌++◌, length, take, drop};
ghost use Rattle.std.specs.Simd.Lanes.{chunk, put_chunk};
ghost use Rattle.parity_kernel.specs.Bytewise.{xor_of, times};

use crate::field::product;
use crate::lanes::LANES;
use crate::tables::Tables;
use std::simd::prelude::*;

/// Folds a multiple of one fragment into another of the same length: each byte of `to` becomes its
/// exclusive or with `by` times the byte of `from` at the same place, a product in the field of 256
/// elements. Folding the same in again gives the old bytes back. Takes no memory.
pub fn mul_into(to: &mut [u8], from: &[u8], by: u8)
    requires { length to.old ≡ length from.now }
    ensures folded { to.new ≡ xor_of to.old (times by from.now) }
    ensures undone { xor_of to.new (times by from.now) ≡ to.old }
{
    let tables = Tables::of(by);
    let mut done = 0;
    while to.len() - done >= LANES {
        mul_lanes(to, from, &tables, done);
        done += LANES;
    }
    mul_bytes(to, from, by, done);
}

// The bytes from `at` on, as many as one vector has.
#[inline(always)]
fn mul_lanes(to: &mut [u8], from: &[u8], by: &Tables, at: usize)
    requires room { at + LANES ≤ length to.old }
    requires alike { length to.old ≡ length from.now }
    ensures { to.new ≡ put_chunk at to.old (xor_of (chunk at LANES to.old) (times by.now (chunk at LANES from.now))) }
{
    let products = by.products(u8x32::from_slice(&from[at..]));
    let sum = u8x32::from_slice(&to[at..]) ^ products;
    sum.copy_to_slice(&mut to[at..]);
}

// The plain loop, over the bytes from `at` on.
fn mul_bytes(to: &mut [u8], from: &[u8], by: u8, at: usize)
    requires room { at ≤ length to.old }
    requires alike { length to.old ≡ length from.now }
    ensures { to.new ≡ take at to.old ++ xor_of (drop at to.old) (times by (drop at from.now)) }
{
    for place in at..to.len() {
        to[place] ^= product(by, from[place]);
    }
}
