//! A source in memory.
ghost use Rattle.std.specs.Prelude.{◌≡◌, ◌<◌, ◌≤◌, ◌+◌, ◌-◌, ◌==◌, ◌↔◌, IsErr, Some, IfOk, length, take, drop, min, true};
ghost use Rattle.std.specs.Io.{ReadsAtMost};
ghost use Rattle.std.specs.Io.KnownBytes.{ReadConsumes};
ghost use Rattle.xfs_base.specs.Causes.{CountsFaults, next_count};
ghost use Rattle.top_call.specs.Memory.{is_named};

use crate::Source;
use std::marker::Model;
use xfs_base::{Failed, List};

/// Bytes in memory to be read, at most a piece at a time. The calls whose numbers, from 1, are named
/// fail. No call takes memory.
#[derive(Drop)]
pub struct MemSource {
    bytes: List<u8>,
    place: usize,
    piece: u32,
    fails: List<u32>,
    calls: u64,
    faults: u64,
}

impl Model for MemSource {
    ghost use Rattle.std.specs.Prelude.{◌≤◌, ◌<◌, length, drop};
    ghost use Rattle.top_call.specs.Memory.{Supply};

    ghost Value = { Supply };

    ghost view = { λ s. record { left = drop s.place s.bytes; piece = s.piece; fails = s.fails; calls = s.calls; faults = s.faults } };

    ghost invariant = { λ s. (s.place ≤ length s.bytes) × (0 < s.piece) };
}

impl MemSource {
    /// A source of these bytes that gives at most `piece` at a time, at least 1, and of which the calls
    /// named in `fails` fail.
    pub fn start(bytes: List<u8>, piece: u32, fails: List<u32>) -> MemSource
        requires { 0 < piece }
        ensures { result ≡ record { left = bytes; piece = piece; fails = fails; calls = 0; faults = 0 } }
    {
        MemSource {
            bytes,
            place: 0,
            piece,
            fails,
            calls: 0,
            faults: 0,
        }
    }
}

/// Whether a list names a call.
pub fn names(list: &List<u32>, number: u64) -> bool
    ensures { result ≡ is_named number list.now }
{
    list.as_slice().iter().any(|n| u64::from(*n) == number)
}

/// Copies bytes to the front of the room.
fn fill(into: &mut [u8], found: &[u8])
    requires { length found.now ≤ length into.old }
    ensures { take (length found.now) into.new ≡ found.now }
{
    into[..found.len()].copy_from_slice(found);
}

impl Source for MemSource {
    ghost left = { λ s. Some s.left };

    ghost faults = { λ s. s.faults };

    fn read(&mut self, into: &mut [u8]) -> Result<usize, Failed>
        ensures bound { ReadsAtMost result into.new }
        ensures bytes { ReadConsumes (Some self.old.left) (Some self.new.left) result into.new }
        ensures cause { CountsFaults self.old.faults self.new.faults result }
        // It fails exactly where the call's number is named, and else gives all that it may.
        ensures named { IsErr result ↔ (is_named (next_count self.old.calls) self.old.fails ≡ true) }
        ensures gives { IfOk result (λ n. n ≡ min (min (length self.old.left) (length into.new)) self.old.piece) }
        ensures counted { self.new.calls ≡ next_count self.old.calls }
        ensures kept { (self.new.fails ≡ self.old.fails) × (self.new.piece ≡ self.old.piece) }
    {
        self.calls = self.calls.saturating_add(1);
        if names(&self.fails, self.calls) {
            self.faults = self.faults.saturating_add(1);
            return Err(Failed);
        }
        let left = self.bytes.len() - self.place;
        let count = left.min(into.len()).min(self.piece as usize);
        fill(into, &self.bytes.as_slice()[self.place..self.place + count]);
        self.place += count;
        Ok(count)
    }
}
