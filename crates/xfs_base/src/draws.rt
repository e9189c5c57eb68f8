//! Numbers that are drawn one after the other from a first one: a linear congruential generator.
ghost use Rattle.std.specs.Prelude.{◌≡◌};
ghost use Rattle.xfs_base.specs.Draws.{next_number, drawn};

/// The modulus of the numbers: 2^31.
const MODULUS: u64 = 2_147_483_648;

/// The number that follows a number.
pub fn next_number(number: u32) -> u32
    ensures { result ≡ next_number number }
{
    ((u64::from(number) * 1_103_515_245 + 12_345) % MODULUS) as u32
}

/// What is drawn at a number.
pub fn drawn(number: u32) -> u32
    ensures { result ≡ drawn number }
{
    number / 65_536
}
