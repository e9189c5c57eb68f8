//! What sets the two segment formats apart, and the limits of both.
ghost use Rattle.std.specs.Prelude.{◌≡◌};
ghost use Rattle.segment_format.specs.Format.{longest, is_mark, is_log, is_version, is_length, is_row_count};

use xfs_base::limits::{LOG_COUNT, MAX_VALUE, SEGMENT_BLOCKS};

/// The version byte of format 1.
pub const FIRST_VERSION: u8 = 1;

/// The version byte of format 2, which has longer Blocks.
pub const SECOND_VERSION: u8 = 2;

/// The most bytes of a Block in format 1.
pub const SHORT_LIMIT: u16 = 4096;

/// The most bytes of a Block in format 2.
pub const LONG_LIMIT: u16 = MAX_VALUE as u16;

/// The most items of a segment that are Block or Part, and the most that are Delta.
pub const MOST: u16 = SEGMENT_BLOCKS as u16;

/// The three bytes that begin each segment.
pub const MARK: [u8; 3] = [0x78, 0x46, 0x53];

/// The item of a Delta whose version is Absent.
pub const NO_ITEM: u16 = 65535;

/// Whether these bytes begin with the mark.
pub(crate) fn is_mark(bytes: &[u8]) -> bool
    ensures { result ≡ is_mark bytes.now }
{
    match bytes {
        [x, f, s, ..] => *x == 0x78 && *f == 0x46 && *s == 0x53,
        _ => false,
    }
}

/// Whether there is a log of this number.
pub(crate) fn is_log(n: u8) -> bool
    ensures { result ≡ is_log n }
{
    1 <= n && n <= LOG_COUNT
}

/// Whether this is the version of a format.
pub(crate) fn is_version(n: u8) -> bool
    ensures { result ≡ is_version n }
{
    FIRST_VERSION <= n && n <= SECOND_VERSION
}

/// The most bytes of a Block in a text of this version.
pub(crate) fn longest(version: u8) -> u16
    ensures { result ≡ longest version }
{
    if version == FIRST_VERSION {
        SHORT_LIMIT
    } else {
        LONG_LIMIT
    }
}

/// Whether a Block in a text of this version may have so many bytes.
pub(crate) fn is_length(version: u8, n: u16) -> bool
    ensures { result ≡ is_length version n }
{
    1 <= n && n <= longest(version)
}

/// Whether a Part may have so many rows.
pub(crate) fn is_row_count(n: u16) -> bool
    ensures { result ≡ is_row_count n }
{
    1 <= n && n <= 128
}
