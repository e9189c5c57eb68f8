//! Sums and products of bytes, against values from outside.
use parity_kernel::{inverse, mul_into, xor_into};
use std::process::Abort;

// The products of the field stand in the textbooks; a vector's bytes agree with single ones.
pub fn folds_byte_by_byte(rt: &impl Abort) {
    let mut to = [0x0f, 0xf0];
    xor_into(&mut to, &[0xff, 0xff]);
    assert_eq!(rt; to, [0xf0, 0x0f]);
    mul_into(&mut to, &[0x80, 0x01], 2);
    assert_eq!(rt; to, [0xed, 0x0d]);
    let mut one = [0x00];
    mul_into(&mut one, &[0x80], 2);
    assert_eq!(rt; one, [0x1d]);
    assert_eq!(rt; inverse(2), 0x8e);
    for length in [0_usize, 1, 31, 32, 33, 64, 70] {
        let mut folded = [1; 70];
        mul_into(
            &mut folded[..length.min(70)],
            &[0x80; 70][..length.min(70)],
            6,
        );
        for (place, byte) in folded.iter().enumerate() {
            let wanted = if place < length { 0x26 } else { 1 };
            assert_eq!(rt; *byte, wanted, "at length {length}");
        }
    }
}
