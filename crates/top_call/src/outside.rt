//! Where the input comes from and where the output goes.
ghost use Rattle.std.specs.Prelude.{◌≡◌, ◌<◌, List, ℕ, length, IfOk};
ghost use Rattle.std.specs.declared.option.Option.{Option};
ghost use Rattle.std.specs.Io.{ReadsAtMost, WritesAtMost};
ghost use Rattle.std.specs.Io.KnownBytes.{ReadConsumes, WriteAppends};
ghost use Rattle.xfs_base.specs.Causes.{Rose, CountsFaults};

use xfs_base::Failed;

/// Bytes to be read. A source means the bytes that are left, where it tells them, and how often a read
/// has failed; that count never falls, and at the end of u64 it stays.
pub trait Source {
    /// The bytes that are left, where it tells them.
    ghost left: { Self → Option (List ℕ) };

    /// How often a read has failed.
    ghost faults: { Self → ℕ };

    /// Fills a front of the room and answers its length. For a room that is not empty, 0 is the end:
    /// where the bytes are told, it is answered exactly where none is left. `Failed` only where the
    /// count of faults rose, or stands at its end, and then no byte was taken.
    fn read(&mut self, into: &mut [u8]) -> Result<usize, Failed>
        ensures bound { ReadsAtMost result into.new }
        ensures bytes { ReadConsumes (left self.old) (left self.new) result into.new }
        ensures cause { CountsFaults (faults self.old) (faults self.new) result };
}

/// Where bytes are written. A sink means the bytes written, where it tells them, and how often a write
/// has failed; that count never falls, and at the end of u64 it stays.
pub trait Sink {
    /// The bytes written, where it tells them.
    ghost written: { Self → Option (List ℕ) };

    /// How often a write has failed.
    ghost faults: { Self → ℕ };

    /// Takes a front of the piece and answers its length. `Failed` only where the count of faults rose,
    /// or stands at its end, and then nothing was taken; the count rises too where nothing is taken of a
    /// piece that is not empty.
    fn write(&mut self, piece: &[u8]) -> Result<usize, Failed>
        ensures bound { WritesAtMost result piece.now }
        ensures bytes { WriteAppends (written self.old) (written self.new) result piece.now }
        ensures cause { CountsFaults (faults self.old) (faults self.new) result }
        ensures nothing { IfOk result (λ n. n ≡ 0 → 0 < length piece.now → Rose (faults self.old) (faults self.new)) };
}
