//! Sums, products and inverses of single bytes.
ghost use Rattle.std.specs.Prelude.{◌≡◌, ◌<◌, ℕ};
ghost use Rattle.parity_kernel.specs.Field.{doubled, product, inverse_of};

/// Twice a byte in the field of 256 elements.
#[inline(always)]
fn doubled(byte: u8) -> u8
    ensures { result ≡ doubled byte }
{
    2_u8.wrapping_mul(byte) ^ (0x1D * (byte / 128 % 2))
}

/// The product of two bytes in the field of 256 elements whose polynomial is 11D hexadecimal.
pub fn product(by: u8, of: u8) -> u8
    ensures { result ≡ product by of }
{
    let mut sum = 0;
    let mut power = of;
    for bit in 0..8_u8 {
        if (by >> bit) % 2 == 1 {
            sum ^= power;
        }
        power = doubled(power);
    }
    sum
}

/// The byte that undoes a product by this one, which isn't 0: the byte to the power 254.
pub fn inverse(by: u8) -> u8
    requires { 0 < by }
    ensures exact { result ≡ inverse_of by }
    ensures undoes { (x : ℕ) → x < 256 → product result (product by x) ≡ x }
{
    let mut square = by;
    let mut so_far = 1;
    for _ in 0..7_u8 {
        square = product(square, square);
        so_far = product(square, so_far);
    }
    so_far
}
