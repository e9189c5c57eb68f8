//! Bytes that need not be UTF-8.
ghost use Rattle.std.specs.Prelude.{◌≡◌, ◌++◌, [], length, IfOk, IsTrue, OnOk, OnErr, ◌↔◌};

use crate::{Copied, List, Mem};
use std::alloc::Global;
use std::marker::Model;

/// A text of any bytes. Contracts see it as the list of its bytes.
pub struct Text {
    bytes: Vec<u8>,
}

impl Drop for Text {
    fn drop(self) {
        let Text { bytes } = self;
        drop(bytes);
    }
}

impl Model for Text {
    ghost use Rattle.std.specs.Prelude.{List, ℕ};

    ghost Value = { List ℕ };

    ghost view = { λ t. t.bytes.items };
}

impl Text {
    /// The empty text. It keeps the allocator and takes no memory.
    pub fn new(alloc: Global) -> Text
        ensures { result ≡ [] }
    {
        Text {
            bytes: Vec::new(alloc),
        }
    }

    /// The text of these bytes.
    pub fn of(alloc: Global, bytes: &[u8]) -> Mem<Text>
        ensures { IfOk result (λ text. text ≡ bytes.now) }
    {
        Ok(Text {
            bytes: Vec::from_slice(alloc, bytes)?,
        })
    }

    /// Its bytes.
    pub fn as_bytes(&self) -> &[u8]
        ensures { result.now ≡ self.now }
    {
        &self.bytes
    }

    /// How many bytes it has.
    pub fn len(&self) -> usize
        ensures { result ≡ length self.now }
    {
        self.bytes.len()
    }

    /// Whether it has no byte.
    pub fn is_empty(&self) -> bool
        ensures { IsTrue result ↔ (length self.now ≡ 0) }
    {
        self.bytes.len() == 0
    }

    /// Whether both have the same bytes.
    pub fn equals(&self, other: &Text) -> bool
        ensures { IsTrue result ↔ (self.now ≡ other.now) }
    {
        self.as_bytes() == other.as_bytes()
    }

    /// Appends bytes. Where memory is wanting the text is unchanged.
    pub fn add(&mut self, bytes: &[u8]) -> Mem<()>
        ensures ok { OnOk result (self.new ≡ self.old ++ bytes.now) }
        ensures err { OnErr result (self.new ≡ self.old) }
    {
        self.bytes.extend_from_slice(bytes)?;
        Ok(())
    }

    /// Its bytes as a list. It takes no memory.
    pub fn into_list(self) -> List<u8>
        ensures { result ≡ self }
    {
        let Text { bytes } = self;
        List::from_vec(bytes)
    }

    /// A text equal to this one.
    pub fn copy(&self, alloc: Global) -> Mem<Text>
        ensures { IfOk result (λ copied. copied ≡ self.now) }
    {
        Text::of(alloc, &self.bytes)
    }
}

impl Copied for Text {
    fn copied(&self, alloc: Global) -> Mem<Text> {
        self.copy(alloc)
    }
}
