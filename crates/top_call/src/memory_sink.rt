//! A sink in memory.
ghost use Rattle.std.specs.Prelude.{◌≡◌, ◌<◌, ◌≤◌, ◌+◌, ◌-◌, ◌↔◌, [], IsErr, Some, IfOk, length, take, true};
ghost use Rattle.std.specs.Io.{WritesAtMost};
ghost use Rattle.std.specs.Io.KnownBytes.{WriteAppends};
ghost use Rattle.xfs_base.specs.Causes.{Rose, CountsFaults, next_count};
ghost use Rattle.top_call.specs.Memory.{is_named, taken_of};

use crate::Sink;
use crate::memory_source::names;
use std::alloc::Global;
use std::marker::Model;
use xfs_base::{Failed, List, Mem};

/// Room in memory for bytes to be written, at most a piece at a time. The calls whose numbers, from 1,
/// are named fail or take nothing. Its room is made at the start; no other call takes memory.
#[derive(Drop)]
pub struct MemSink {
    buffer: Vec<u8>,
    len: usize,
    piece: u32,
    fails: List<u32>,
    empties: List<u32>,
    calls: u64,
    faults: u64,
}

impl Model for MemSink {
    ghost use Rattle.std.specs.Prelude.{◌≤◌, ◌-◌, length, take};
    ghost use Rattle.top_call.specs.Memory.{Store};

    ghost Value = { Store };

    ghost view = { λ s. record {
      written = take s.len s.buffer.items;
      room = length s.buffer.items - s.len;
      piece = s.piece;
      fails = s.fails;
      empties = s.empties;
      calls = s.calls;
      faults = s.faults;
    } };

    ghost invariant = { λ s. s.len ≤ length s.buffer.items };
}

impl MemSink {
    /// A sink with room for `room` bytes that takes at most `piece` at a time. The calls named in `fails`
    /// fail; of the others, those named in `empties` take nothing.
    pub fn start(
        alloc: Global,
        room: u32,
        piece: u32,
        fails: List<u32>,
        empties: List<u32>,
    ) -> Mem<MemSink>
        ensures { IfOk result (λ s. s ≡ record { written = []; room = room; piece = piece; fails = fails; empties = empties; calls = 0; faults = 0 }) }
    {
        let buffer = vec![in alloc; 0u8; room as usize]?;
        Ok(MemSink {
            buffer,
            len: 0,
            piece,
            fails,
            empties,
            calls: 0,
            faults: 0,
        })
    }

    /// What was written.
    pub fn bytes(&self) -> &[u8]
        ensures { result.now ≡ self.now.written }
    {
        &self.buffer[..self.len]
    }
}

impl Sink for MemSink {
    ghost written = { λ s. Some s.written };

    ghost faults = { λ s. s.faults };

    fn write(&mut self, piece: &[u8]) -> Result<usize, Failed>
        ensures bound { WritesAtMost result piece.now }
        ensures bytes { WriteAppends (Some self.old.written) (Some self.new.written) result piece.now }
        ensures cause { CountsFaults self.old.faults self.new.faults result }
        ensures nothing { IfOk result (λ n. n ≡ 0 → 0 < length piece.now → Rose self.old.faults self.new.faults) }
        // It fails exactly where the call's number is named, and else takes all that it may.
        ensures named { IsErr result ↔ (is_named (next_count self.old.calls) self.old.fails ≡ true) }
        ensures takes { IfOk result (λ n. n ≡ taken_of self.old (length piece.now)) }
        ensures counted { self.new.calls ≡ next_count self.old.calls }
    {
        self.calls = self.calls.saturating_add(1);
        if names(&self.fails, self.calls) {
            self.faults = self.faults.saturating_add(1);
            return Err(Failed);
        }
        let room = self.buffer.len() - self.len;
        let count = if names(&self.empties, self.calls) {
            0
        } else {
            room.min(piece.len()).min(self.piece as usize)
        };
        if count == 0 && !piece.is_empty() {
            self.faults = self.faults.saturating_add(1);
        }
        let end = self.len + count;
        self.buffer[self.len..end].copy_from_slice(&piece[..count]);
        self.len = end;
        Ok(count)
    }
}
