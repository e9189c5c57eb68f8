//! What a leader knows of the others.
ghost use Rattle.std.specs.Prelude.{◌≡◌};
ghost use Rattle.board.specs.Lengths.{length_of, greater, noted, greatest, all_known};

use xfs_base::Crosses;

/// For each board the length of a leader's list that it is known to have accepted; none until it said so. Of the leader
/// itself nothing is noted.
#[derive(Clone, Copy, PartialEq, Eq)]
pub struct Lengths {
    /// Of board 1.
    pub one: Option<u32>,
    /// Of board 2.
    pub two: Option<u32>,
    /// Of board 3.
    pub three: Option<u32>,
}

impl Crosses for Lengths {}

fn greater(known: Option<u32>, length: u32) -> Option<u32>
    ensures { result ≡ greater known length }
{
    match known {
        None => Some(length),
        Some(known) => Some(known.max(length)),
    }
}

impl Lengths {
    /// The same of each board.
    pub fn all(length: Option<u32>) -> Lengths
        ensures { result ≡ all_known length }
    {
        Lengths {
            one: length,
            two: length,
            three: length,
        }
    }

    /// The length that a board is known to have accepted; none of a board that isn't 1, 2 or 3.
    pub fn of(self, number: u8) -> Option<u32>
        ensures { result ≡ length_of self number }
    {
        match number {
            1 => self.one,
            2 => self.two,
            3 => self.three,
            _ => None,
        }
    }

    /// A board has accepted so much: it is noted as the greater.
    pub fn noted(self, number: u8, length: u32) -> Lengths
        ensures { result ≡ noted self number length }
    {
        let mut known = self;
        match number {
            1 => known.one = greater(self.one, length),
            2 => known.two = greater(self.two, length),
            3 => known.three = greater(self.three, length),
            _ => {}
        }
        known
    }

    /// The greatest of all, where none counts as 0.
    pub fn greatest(self) -> u32
        ensures { result ≡ greatest self }
    {
        self.one
            .unwrap_or(0)
            .max(self.two.unwrap_or(0).max(self.three.unwrap_or(0)))
    }
}
