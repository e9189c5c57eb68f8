//! The value of a block.
ghost use Rattle.std.specs.Prelude.{◌≡◌, ◌<◌, ◌⊎◌, ◌↔◌, length, IfOk, IfSome, IsErrOf, IsTrue, Some, None};
ghost use Rattle.xfs_base.specs.Limits.{max_value};

use crate::limits::MAX_VALUE;
use crate::{Bytes, Copied, Mem};
use std::alloc::Global;
use std::marker::Model;
use thiserror::Error;

/// Why bytes are no value.
#[derive(Debug, Drop, Error)]
pub enum ValueError {
    /// There are none, or more than a block holds; with their number.
    #[error("a value has 1 to 8192 bytes, and not {0}")]
    BadLength(usize),
    /// Want of memory.
    #[error("out of memory")]
    Memory,
}

/// The value of a block: Absent, or 1 to 8,192 bytes. Contracts see it as an option of its bytes, where
/// none is Absent.
pub struct Value {
    bytes: Option<Bytes>,
}

impl Drop for Value {
    fn drop(self) {
        let Value { bytes } = self;
        drop(bytes);
    }
}

impl Model for Value {
    ghost use Rattle.std.specs.Prelude.{List as Seq, ℕ, Option};
    ghost use Rattle.xfs_base.specs.Value.{IsValue};

    ghost Value = { Option (Seq ℕ) };

    ghost view = { λ v. v.bytes };

    ghost invariant = { λ v. IsValue v.bytes };
}

impl Value {
    ghost use Rattle.xfs_base.specs.Value.{IsValue};

    /// Absent. It takes no memory.
    pub fn absent() -> Value
        ensures { result ≡ None }
    {
        Value { bytes: None }
    }

    /// The value of these bytes. `BadLength` with their number exactly where there are none or more than
    /// 8,192.
    pub fn of(alloc: Global, bytes: &[u8]) -> Result<Value, ValueError>
        ensures ok { IfOk result (λ value. value ≡ Some bytes.now) }
        ensures bad_length { (n : _)
            → IsErrOf result (ValueError.BadLength n) ↔ ((n ≡ length bytes.now) × ((length bytes.now ≡ 0) ⊎ (max_value < length bytes.now))) }
    {
        if bytes.is_empty() || bytes.len() > MAX_VALUE {
            return Err(ValueError::BadLength(bytes.len()));
        }
        match Bytes::of(alloc, bytes) {
            Ok(made) => Ok(Value { bytes: Some(made) }),
            Err(_) => Err(ValueError::Memory),
        }
    }

    /// Its bytes; none where it is Absent.
    pub fn bytes(&self) -> Option<&[u8]>
        ensures none { result ≡ None ↔ (self.now ≡ None) }
        ensures some { IfSome result (λ bytes. self.now ≡ Some bytes.now) }
        ensures fits { IsValue self.now }
    {
        match &self.bytes {
            None => None,
            Some(bytes) => Some(bytes.as_slice()),
        }
    }

    /// Whether both are Absent, or both have the same bytes.
    pub fn equals(&self, other: &Value) -> bool
        ensures { IsTrue result ↔ (self.now ≡ other.now) }
    {
        match (self.bytes(), other.bytes()) {
            (None, None) => true,
            (Some(these), Some(those)) => these == those,
            _ => false,
        }
    }

    /// A value equal to this one, which shares its bytes.
    pub fn copy(&self, alloc: Global) -> Mem<Value>
        ensures { IfOk result (λ copied. copied ≡ self.now) }
    {
        match &self.bytes {
            None => Ok(Value { bytes: None }),
            Some(bytes) => Ok(Value {
                bytes: Some(bytes.copy(alloc)?),
            }),
        }
    }
}

impl Copied for Value {
    fn copied(&self, alloc: Global) -> Mem<Value> {
        self.copy(alloc)
    }
}
