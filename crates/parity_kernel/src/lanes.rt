//! The same operations on as many bytes as one vector has.
ghost use Rattle.std.specs.Prelude.{◌≡◌, map};
ghost use Rattle.parity_kernel.specs.Field.{doubled, product};

use std::simd::prelude::*;

/// How many bytes are folded at a time.
pub(crate) const LANES: usize = 32;

#[inline(always)]
fn doubled_lanes(of: u8x32) -> u8x32
    ensures { result ≡ map doubled of }
{
    let highest = of & u8x32::splat(128);
    let leaves = highest.simd_eq(u8x32::splat(128));
    (of + of) ^ leaves.select(u8x32::splat(0x1D), u8x32::splat(0))
}

/// The products of these bytes by one.
#[inline(always)]
pub(crate) fn product_lanes(by: u8, of: u8x32) -> u8x32
    ensures { result ≡ map (product by) of }
{
    let mut sum = u8x32::splat(0);
    let mut power = of;
    for bit in 0..8_u8 {
        let left = by >> bit;
        if left == 0 {
            return sum;
        }
        if left % 2 == 1 {
            sum ^= power;
        }
        power = doubled_lanes(power);
    }
    sum
}
