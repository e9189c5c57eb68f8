//! Writing fields of numbers and bytes at the end.
ghost use Rattle.std.specs.Prelude.{◌≡◌, ◌++◌, [], ◌∷◌, OnOk, OnErr};
ghost use Rattle.std.specs.Int.{w16, w32, w64, to_be_bytes};

use crate::{List, Mem};
use std::alloc::Global;
use std::marker::Model;

/// Writes fields one after the other; numbers are big-endian. Contracts see the bytes so far. Where
/// memory is wanting, a call that appends leaves them unchanged.
pub struct FieldWriter {
    bytes: Vec<u8>,
}

impl Drop for FieldWriter {
    fn drop(self) {
        let FieldWriter { bytes } = self;
        drop(bytes);
    }
}

impl Model for FieldWriter {
    ghost use Rattle.std.specs.Prelude.{List, ℕ};

    ghost Value = { List ℕ };

    ghost view = { λ w. w.bytes.items };
}

impl FieldWriter {
    /// A writer of no bytes. It keeps the allocator and takes no memory.
    pub fn new(alloc: Global) -> FieldWriter
        ensures { result ≡ [] }
    {
        FieldWriter {
            bytes: Vec::new(alloc),
        }
    }

    /// Appends a byte.
    pub fn put_u8(&mut self, _alloc: Global, n: u8) -> Mem<()>
        ensures ok { OnOk result (self.new ≡ self.old ++ n ∷ []) }
        ensures err { OnErr result (self.new ≡ self.old) }
    {
        self.bytes.push(n)?;
        Ok(())
    }

    /// Appends a number as two bytes.
    pub fn put_u16(&mut self, _alloc: Global, n: u16) -> Mem<()>
        ensures ok { OnOk result (self.new ≡ self.old ++ to_be_bytes w16 n) }
        ensures err { OnErr result (self.new ≡ self.old) }
    {
        self.bytes.extend_from_slice(&n.to_be_bytes())?;
        Ok(())
    }

    /// Appends a number as four bytes.
    pub fn put_u32(&mut self, _alloc: Global, n: u32) -> Mem<()>
        ensures ok { OnOk result (self.new ≡ self.old ++ to_be_bytes w32 n) }
        ensures err { OnErr result (self.new ≡ self.old) }
    {
        self.bytes.extend_from_slice(&n.to_be_bytes())?;
        Ok(())
    }

    /// Appends a number as eight bytes.
    pub fn put_u64(&mut self, _alloc: Global, n: u64) -> Mem<()>
        ensures ok { OnOk result (self.new ≡ self.old ++ to_be_bytes w64 n) }
        ensures err { OnErr result (self.new ≡ self.old) }
    {
        self.bytes.extend_from_slice(&n.to_be_bytes())?;
        Ok(())
    }

    /// Appends bytes.
    pub fn put_bytes(&mut self, _alloc: Global, bytes: &[u8]) -> Mem<()>
        ensures ok { OnOk result (self.new ≡ self.old ++ bytes.now) }
        ensures err { OnErr result (self.new ≡ self.old) }
    {
        self.bytes.extend_from_slice(bytes)?;
        Ok(())
    }

    /// The bytes that were written. It takes no memory.
    pub fn done(self) -> List<u8>
        ensures { result ≡ self }
    {
        let FieldWriter { bytes } = self;
        List::from_vec(bytes)
    }
}
