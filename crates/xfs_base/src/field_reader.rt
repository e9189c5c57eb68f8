//! Reading fields of numbers and bytes from the left.
ghost use Rattle.std.specs.Prelude.{◌≡◌, ◌<◌, ◌==◌, length, IfSome, IfNone, ◌↔◌, None};
ghost use Rattle.std.specs.Int.{w8, w16, w32, w64};
ghost use Rattle.xfs_base.specs.Fields.{Reads, ReadsBytes};

use std::marker::Model;

/// Reads fields from the left of some bytes; numbers are big-endian. Contracts see the bytes that are
/// left and the offset of the first of them. No call takes memory.
pub struct FieldReader<'a> {
    bytes: &'a [u8],
    place: usize,
}

impl<'a> Drop for FieldReader<'a> {
    fn drop(self) {
        let FieldReader { bytes: _, place: _ } = self;
    }
}

impl<'a> Model for FieldReader<'a> {
    ghost use Rattle.std.specs.Prelude.{◌≤◌, length, drop};
    ghost use Rattle.xfs_base.specs.Fields.{Fields};

    ghost Value = { Fields };

    ghost view = { λ r. record { left = drop r.place r.bytes.now; at = r.place } };

    ghost invariant = { λ r. r.place ≤ length r.bytes.now };
}

impl<'a> FieldReader<'a> {
    /// A reader at the first of these bytes.
    pub fn new(bytes: &'a [u8]) -> FieldReader<'a>
        ensures { result ≡ record { left = bytes.now; at = 0 } }
    {
        FieldReader { bytes, place: 0 }
    }

    /// The offset of the first byte that is left.
    pub fn at(&self) -> usize
        ensures { result ≡ self.now.at }
    {
        self.place
    }

    /// Whether no byte is left.
    pub fn is_done(&self) -> bool
        ensures { result ≡ (length self.now.left == 0) }
    {
        self.bytes.len() - self.place == 0
    }

    /// The next `n` bytes. None exactly where fewer are left, and then nothing moves.
    pub fn bytes(&mut self, n: usize) -> Option<&'a [u8]>
        ensures none { result ≡ None ↔ (length self.old.left < n) }
        ensures same { IfNone result (self.new ≡ self.old) }
        ensures some { IfSome result (λ bytes. ReadsBytes n self.old self.new bytes.now) }
    {
        let left = self.bytes.len() - self.place;
        if left < n {
            return None;
        }
        let found = &self.bytes[self.place..self.place + n];
        self.place += n;
        Some(found)
    }

    /// The next byte. None exactly where none is left, and then nothing moves.
    pub fn u8(&mut self) -> Option<u8>
        ensures none { result ≡ None ↔ (length self.old.left < 1) }
        ensures same { IfNone result (self.new ≡ self.old) }
        ensures some { IfSome result (λ n. Reads w8 self.old self.new n) }
    {
        let found = self.bytes(1)?;
        Some(found[0])
    }

    /// The number of the next two bytes. None exactly where fewer are left, and then nothing moves.
    pub fn u16(&mut self) -> Option<u16>
        ensures none { result ≡ None ↔ (length self.old.left < 2) }
        ensures same { IfNone result (self.new ≡ self.old) }
        ensures some { IfSome result (λ n. Reads w16 self.old self.new n) }
    {
        let found = self.bytes(2)?;
        Some(u16::from_be_bytes([found[0], found[1]]))
    }

    /// The number of the next four bytes. None exactly where fewer are left, and then nothing moves.
    pub fn u32(&mut self) -> Option<u32>
        ensures none { result ≡ None ↔ (length self.old.left < 4) }
        ensures same { IfNone result (self.new ≡ self.old) }
        ensures some { IfSome result (λ n. Reads w32 self.old self.new n) }
    {
        let found = self.bytes(4)?;
        Some(u32::from_be_bytes([found[0], found[1], found[2], found[3]]))
    }

    /// The number of the next eight bytes. None exactly where fewer are left, and then nothing moves.
    #[tactic(auto, using(std::proofs::lemmas::Nat::be_bytes_8))]
    pub fn u64(&mut self) -> Option<u64>
        ensures none { result ≡ None ↔ (length self.old.left < 8) }
        ensures same { IfNone result (self.new ≡ self.old) }
        ensures some { IfSome result (λ n. Reads w64 self.old self.new n) }
    {
        let found = self.bytes(8)?;
        Some(u64::from_be_bytes([
            found[0], found[1], found[2], found[3], found[4], found[5], found[6], found[7],
        ]))
    }
}
