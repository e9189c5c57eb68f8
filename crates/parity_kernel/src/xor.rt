//! One fragment folded into another.
ghost use Rattle.std.specs.Prelude.{◌≡◌, ◌+◌, ◌≤◌, ◌++◌, length, take, drop};
ghost use Rattle.std.specs.Simd.Lanes.{chunk, put_chunk};
ghost use Rattle.parity_kernel.specs.Bytewise.{xor_of};

use crate::lanes::LANES;
use std::simd::prelude::*;

/// Folds one fragment into another of the same length: each byte of `to` becomes its exclusive or
/// with the byte of `from` at the same place. Folding the same bytes in again gives the old ones
/// back. Takes no memory.
pub fn xor_into(to: &mut [u8], from: &[u8])
    requires { length to.old ≡ length from.now }
    ensures folded { to.new ≡ xor_of to.old from.now }
    ensures undone { xor_of to.new from.now ≡ to.old }
{
    let mut done = 0;
    while to.len() - done >= LANES {
        xor_lanes(to, from, done);
        done += LANES;
    }
    xor_bytes(to, from, done);
}

// The bytes from `at` on, as many as one vector has.
#[inline(always)]
fn xor_lanes(to: &mut [u8], from: &[u8], at: usize)
    requires room { at + LANES ≤ length to.old }
    requires alike { length to.old ≡ length from.now }
    ensures { to.new ≡ put_chunk at to.old (xor_of (chunk at LANES to.old) (chunk at LANES from.now)) }
{
    let sum = u8x32::from_slice(&to[at..]) ^ u8x32::from_slice(&from[at..]);
    sum.copy_to_slice(&mut to[at..]);
}

// The plain loop, over the bytes from `at` on.
fn xor_bytes(to: &mut [u8], from: &[u8], at: usize)
    requires room { at ≤ length to.old }
    requires alike { length to.old ≡ length from.now }
    ensures { to.new ≡ take at to.old ++ xor_of (drop at to.old) (drop at from.now) }
{
    for place in at..to.len() {
        to[place] ^= from[place];
    }
}
