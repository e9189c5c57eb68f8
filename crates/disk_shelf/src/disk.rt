//! A disk: what it reads, and what a crash may leave of it.
ghost use Rattle.std.specs.Prelude.{◌≡◌, ◌≤◌, ◌<◌, ◌+◌, ◌-◌, ◌^◌, Bool, List, ℕ, length, take, drop, min, is_ok, IfOk, OnOk};
ghost use Rattle.xfs_base.specs.Causes.{CountsFaults};
ghost use Rattle.disk_shelf.specs.Disk.{Only, NoOther, Follows, Torn, Writes, Elapses, Uses};

use std::alloc::Global;
use xfs_base::{Failed, Mem};

/// Bytes that outlast a crash. A disk means what it reads now, the images that a crash now may leave, those of
/// all moments since an earlier one, how often it failed, and for how many more writes and syncs, and bytes in
/// them, room was made. What it reads is one of its images. A disk that a contract may follow call by call says what
/// each call makes of it; of any other these four say nothing.
pub trait Disk {
    /// What it reads now.
    ghost seen: { Self → List ℕ };

    /// What a crash at this moment may leave.
    ghost may_leave: { Self → List ℕ → Type 0 };

    /// The moment, as a number that doesn't fall.
    ghost moment: { Self → ℕ };

    /// What a crash at some moment from that one on might have left, during a call or between two.
    ghost left_since: { Self → ℕ → List ℕ → Type 0 };

    /// How often it failed.
    ghost faults: { Self → ℕ };

    /// For how many more writes and syncs room was made.
    ghost calls_left: { Self → ℕ };

    /// For how many more bytes in them.
    ghost bytes_left: { Self → ℕ };

    /// What making room makes of it.
    ghost by_room: { Self → Self → Type 0 };

    /// What a read makes of it, answered `Ok` or not.
    ghost by_read: { Self → Bool → Self → Type 0 };

    /// What a write of these bytes at this offset makes of it, answered `Ok` or not.
    ghost by_write: { Self → ℕ → List ℕ → Bool → Self → Type 0 };

    /// What a sync makes of it, answered `Ok` or not.
    ghost by_sync: { Self → Bool → Self → Type 0 };

    /// How many bytes it has.
    fn len(&self) -> u64
        ensures { result ≡ length (seen self.now) };

    /// Fills `into` up to the disk's end, and answers how many bytes these are. It fails only where the count of
    /// faults rises.
    fn read(&mut self, at: u64, into: &mut [u8]) -> Result<usize, Failed>
        ensures count { IfOk result (λ n. n ≡ min (length into.new) (length (seen self.old) - at)) }
        ensures bytes { IfOk result (λ n. take n into.new ≡ take n (drop at (seen self.old))) }
        ensures seen { OnOk result (seen self.new ≡ seen self.old) }
        ensures crash { NoOther (may_leave self.old) (may_leave self.new) }
        ensures time { Elapses (moment self.old) (moment self.new) (left_since self.old) (left_since self.new) (may_leave self.new) }
        ensures spare { Uses 0 0 (calls_left self.old) (bytes_left self.old) (calls_left self.new) (bytes_left self.new) }
        ensures cause { CountsFaults (faults self.old) (faults self.new) result }
        ensures exact { by_read self.old (is_ok result) self.new };

    /// Makes room for at least so many writes and syncs, and so many bytes in them, so that these take no memory.
    /// It changes nothing else, also where memory is wanting, and is itself neither of them.
    fn room(&mut self, alloc: Global, calls: u32, bytes: u64) -> Mem<()>
        ensures made { OnOk result ((calls ≤ calls_left self.new) × (bytes ≤ bytes_left self.new)) }
        ensures seen { seen self.new ≡ seen self.old }
        ensures crash { NoOther (may_leave self.old) (may_leave self.new) }
        ensures time { Elapses (moment self.old) (moment self.new) (left_since self.old) (left_since self.new) (may_leave self.new) }
        ensures faults { faults self.new ≡ faults self.old }
        ensures exact { by_room self.old self.new };

    /// Writes over what is there, and past the end. Until a sync, a crash may leave any bytes in the range, and any
    /// length up to the end of it. It fails only where the count of faults rises.
    fn write_at(&mut self, at: u64, piece: &[u8]) -> Result<(), Failed>
        requires inside { at ≤ length (seen self.old) }
        requires below { at + length piece.now < 2 ^ 64 }
        requires calls { 1 ≤ calls_left self.old }
        requires bytes { length piece.now ≤ bytes_left self.old }
        ensures written { OnOk result (Writes (seen self.old) at piece.now (seen self.new)) }
        ensures crash { Follows (Torn at (length piece.now)) (may_leave self.old) (may_leave self.new) }
        ensures time { Elapses (moment self.old) (moment self.new) (left_since self.old) (left_since self.new) (may_leave self.new) }
        ensures spare { Uses 1 (length piece.now) (calls_left self.old) (bytes_left self.old) (calls_left self.new) (bytes_left self.new) }
        ensures cause { CountsFaults (faults self.old) (faults self.new) result }
        ensures exact { by_write self.old at piece.now (is_ok result) self.new };

    /// After it, a crash leaves what a read gives. It fails only where the count of faults rises.
    fn sync(&mut self) -> Result<(), Failed>
        requires calls { 1 ≤ calls_left self.old }
        ensures durable { OnOk result (Only (seen self.old) (may_leave self.new)) }
        ensures seen { OnOk result (seen self.new ≡ seen self.old) }
        ensures crash { NoOther (may_leave self.old) (may_leave self.new) }
        ensures time { Elapses (moment self.old) (moment self.new) (left_since self.old) (left_since self.new) (may_leave self.new) }
        ensures spare { Uses 1 0 (calls_left self.old) (bytes_left self.old) (calls_left self.new) (bytes_left self.new) }
        ensures cause { CountsFaults (faults self.old) (faults self.new) result }
        ensures exact { by_sync self.old (is_ok result) self.new };

    /// What it reads is one of its images.
    ghost reads_an_image: { (disk : Self) → may_leave disk (seen disk) };

    /// This moment is one of those since an earlier one.
    ghost counts_now: { (disk : Self) (t : ℕ) (c : List ℕ) → t ≤ moment disk → may_leave disk c → left_since disk t c };

    /// Since this moment there is no other.
    ghost only_now: { (disk : Self) (c : List ℕ) → left_since disk (moment disk) c → may_leave disk c };
}
