//! What a disk in memory reads, and what it would read after a stop. No call here takes memory.
ghost use Rattle.std.specs.Prelude.{◌≡◌, ◌≤◌, ◌+◌, ◌-◌, ◌/◌, ◌++◌, length, take, drop, if◌then◌else◌};
ghost use Rattle.std.specs.Vec.{vec_capacity};
ghost use Rattle.disk_shelf.specs.Disk.{Writes};
ghost use Rattle.disk_shelf.specs.Deeds.{Images, after_deed, first_half, padded, written_over};
ghost use Rattle.disk_shelf.specs.Deeds.Deed.{Write, Sync};

/// Appends a piece, for which there is room.
pub fn append(bytes: &mut Vec<u8>, piece: &[u8])
    requires { length bytes.old.items + length piece.now ≤ vec_capacity bytes.old }
    ensures items { bytes.new.items ≡ bytes.old.items ++ piece.now }
    ensures capacity { vec_capacity bytes.old ≤ vec_capacity bytes.new }
{
    let _fits = bytes.extend_from_slice(piece);
}

// Zeros up to this offset, where the bytes end before it.
fn pad(bytes: &mut Vec<u8>, at: usize)
    requires { at ≤ vec_capacity bytes.old }
    ensures items { bytes.new.items ≡ padded at bytes.old.items }
    ensures capacity { vec_capacity bytes.old ≤ vec_capacity bytes.new }
{
    if bytes.len() < at {
        let _fits = bytes.resize(at, 0);
    }
}

// Puts a piece over what is there, and behind it.
fn put_over(bytes: &mut Vec<u8>, at: usize, piece: &[u8])
    requires inside { at ≤ length bytes.old.items }
    requires room { at + length piece.now ≤ vec_capacity bytes.old }
    ensures items { Writes bytes.old.items at piece.now bytes.new.items }
    ensures capacity { vec_capacity bytes.old ≤ vec_capacity bytes.new }
{
    let over = piece.len().min(bytes.len() - at);
    bytes[at..at + over].copy_from_slice(&piece[..over]);
    append(bytes, &piece[over..]);
}

// Writes a piece at an offset that may lie behind the end.
fn write_over(bytes: &mut Vec<u8>, at: usize, piece: &[u8])
    requires { at + length piece.now ≤ vec_capacity bytes.old }
    ensures items { bytes.new.items ≡ written_over bytes.old.items at piece.now }
    ensures capacity { vec_capacity bytes.old ≤ vec_capacity bytes.new }
{
    pad(bytes, at);
    put_over(bytes, at, piece);
}

// Takes other bytes in the place of these.
fn replace(bytes: &mut Vec<u8>, other: &[u8])
    requires { length other.now ≤ vec_capacity bytes.old }
    ensures items { bytes.new.items ≡ other.now }
    ensures capacity { vec_capacity bytes.old ≤ vec_capacity bytes.new }
{
    bytes.clear();
    append(bytes, other);
}

// The first half, rounded up.
fn first_half(piece: &[u8]) -> &[u8]
    ensures { result.now ≡ first_half piece.now }
{
    &piece[..piece.len() - piece.len() / 2]
}

/// Writes a piece over what is read, and its first half over what is kept. Where the disk stops within the write,
/// what it kept is read from then on.
pub fn write_both(bytes: &mut Vec<u8>, kept: &mut Vec<u8>, at: usize, piece: &[u8], stops: bool)
    requires inside { at ≤ length bytes.old.items }
    requires shorter { length kept.old.items ≤ length bytes.old.items }
    requires room { (length bytes.old.items + length piece.now ≤ vec_capacity bytes.old) × (length bytes.old.items + length piece.now ≤ vec_capacity kept.old) }
    ensures images { record { read = bytes.new.items; kept = kept.new.items } ≡ after_deed (record { read = bytes.old.items; kept = kept.old.items }) (Write at piece.now stops) }
    ensures shorter { length kept.new.items ≤ length bytes.new.items }
    ensures longer { length bytes.new.items ≤ length bytes.old.items + length piece.now }
    ensures capacity { (vec_capacity bytes.old ≤ vec_capacity bytes.new) × (vec_capacity kept.old ≤ vec_capacity kept.new) }
{
    write_over(kept, at, first_half(piece));
    if stops {
        replace(bytes, kept);
    } else {
        write_over(bytes, at, piece);
    }
}

// Puts what lies behind the first so many bytes of the other ones behind the first so many of these.
fn follow(bytes: &mut Vec<u8>, other: &[u8], alike: usize)
    requires within { alike ≤ length bytes.old.items }
    requires alike { take alike bytes.old.items ≡ take alike other.now }
    requires shorter { length bytes.old.items ≤ length other.now }
    requires room { length other.now ≤ vec_capacity bytes.old }
    ensures items { bytes.new.items ≡ other.now }
    ensures capacity { vec_capacity bytes.old ≤ vec_capacity bytes.new }
{
    bytes.truncate(alike);
    append(bytes, &other[alike..]);
}

/// After a sync what is read is kept; the first so many bytes of the two are alike before. Where the disk stops
/// within the sync, what it kept is read from then on.
pub fn refresh(bytes: &mut Vec<u8>, kept: &mut Vec<u8>, alike: usize, stops: bool)
    requires within { alike ≤ length kept.old.items }
    requires alike { take alike kept.old.items ≡ take alike bytes.old.items }
    requires shorter { length kept.old.items ≤ length bytes.old.items }
    requires room { (length bytes.old.items ≤ vec_capacity bytes.old) × (length bytes.old.items ≤ vec_capacity kept.old) }
    ensures images { record { read = bytes.new.items; kept = kept.new.items } ≡ after_deed (record { read = bytes.old.items; kept = kept.old.items }) (Sync stops) }
    ensures shorter { length kept.new.items ≤ length bytes.new.items }
    ensures longer { length bytes.new.items ≤ length bytes.old.items }
    ensures capacity { (vec_capacity bytes.old ≤ vec_capacity bytes.new) × (vec_capacity kept.old ≤ vec_capacity kept.new) }
{
    if stops {
        replace(bytes, kept);
    } else {
        follow(kept, bytes, alike);
    }
}
