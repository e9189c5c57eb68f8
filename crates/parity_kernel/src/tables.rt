//! The products of one byte by each half of a byte. A byte is the sum of its halves, so its product is the sum of
//! theirs.
ghost use Rattle.std.specs.Prelude.{◌≡◌, map};
ghost use Rattle.parity_kernel.specs.Field.{product};

use crate::lanes::{LANES, product_lanes};
use std::marker::Model;
use std::simd::prelude::*;

// Each low half of a byte, and each high half, once for each sixteen lanes.
const LOWS: [u8; LANES] = [
    0, 1, 2, 3, 4, 5, 6, 7, 8, 9, 10, 11, 12, 13, 14, 15, 0, 1, 2, 3, 4, 5, 6, 7, 8, 9, 10, 11, 12,
    13, 14, 15,
];

const HIGHS: [u8; LANES] = [
    0, 16, 32, 48, 64, 80, 96, 112, 128, 144, 160, 176, 192, 208, 224, 240, 0, 16, 32, 48, 64, 80,
    96, 112, 128, 144, 160, 176, 192, 208, 224, 240,
];

/// The products of one byte by each half of a byte.
#[derive(Drop)]
pub(crate) struct Tables {
    by: u8,
    low: u8x32,
    high: u8x32,
}

// They are those of this byte.
impl Model for Tables {
    ghost use Rattle.std.specs.Prelude.{◌≡◌, ℕ, map};
    ghost use Rattle.parity_kernel.specs.Field.{product};
    ghost use Rattle.parity_kernel.specs.Halves.{lows, highs};

    ghost Value = { ℕ };

    ghost view = { λ t. t.by };

    ghost invariant = { λ t. (t.low ≡ map (product t.by) lows) × (t.high ≡ map (product t.by) highs) };
}

impl Tables {
    /// The tables of a byte.
    pub(crate) fn of(by: u8) -> Tables
        ensures { result ≡ by }
    {
        Tables {
            by,
            low: product_lanes(by, u8x32::from_array(LOWS)),
            high: product_lanes(by, u8x32::from_array(HIGHS)),
        }
    }

    /// The products of these bytes by the byte.
    #[inline(always)]
    pub(crate) fn products(&self, of: u8x32) -> u8x32
        ensures { result ≡ map (product self.now) of }
    {
        let low = self.low.swizzle_dyn_within::<16>(of & u8x32::splat(15));
        let high = self.high.swizzle_dyn_within::<16>(of >> u8x32::splat(4));
        low ^ high
    }
}
