//! Opening a disk.
ghost use Rattle.std.specs.Prelude.{◌≡◌, ◌≢◌, ◌⊎◌, ◌<◌, ◌≤◌, ◌+◌, ◌^◌, ◌∷◌, [], List, ℕ, length, IfOk, OnOk, IsErrOf};
ghost use Rattle.disk_shelf.specs.declared.opening.ReplayError.TheVariants.{Memory, Damaged};
ghost use Rattle.disk_shelf.specs.Reading.{IsLoaded, IsDamaged};

use crate::applied::apply;
use crate::reading::record_at;
use fragment_store::Shelf;
use std::alloc::{AllocError, Global};

/// Why the records of a disk could not be read.
#[derive(Drop)]
pub enum ReplayError {
    /// Behind the open gate at this offset there is no record with a gate behind it.
    Damaged(usize),
    /// Want of memory.
    Memory,
}

impl From<AllocError> for ReplayError {
    ghost from_gives = { λ _ e. e ≡ Memory };

    fn from(_: AllocError) -> Self {
        ReplayError::Memory
    }
}

/// What the records of a disk make, and where its closed gate is.
#[derive(Drop)]
pub struct Replayed {
    /// The shelf.
    pub shelf: Shelf,
    /// The generation for which the server had its Welcome last; 0 for none.
    pub welcomed: u32,
    /// The offset of the closed gate.
    pub gate: usize,
}

/// Reads the records up to the first gate that isn't open. `Damaged` where behind an open gate no record stands
/// with a gate behind it.
pub fn replay(alloc: Global, bytes: &[u8]) -> Result<Replayed, ReplayError>
    requires { 1 ≤ length bytes.now }
    ensures ok { IfOk result (λ r. IsLoaded r.gate bytes.now (record { shelf = r.shelf; welcomed = r.welcomed })) }
    ensures damaged { (at : ℕ) → IsErrOf result (Damaged at) → IsDamaged at bytes.now }
{
    let mut shelf = Shelf::new(alloc);
    let mut welcomed = 0;
    let mut gate = 0;
    while bytes[gate] == 1 {
        match record_at(alloc, &bytes[gate + 1..])? {
            None => return Err(ReplayError::Damaged(gate)),
            Some((change, size)) => {
                apply(alloc, &mut shelf, &mut welcomed, change)?;
                gate += 1 + size;
            }
        }
    }
    Ok(Replayed {
        shelf,
        welcomed,
        gate,
    })
}
