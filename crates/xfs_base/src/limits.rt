//! The limits that a run keeps, each stated once. `specs/Limits.antt` has the same for definitions.

/// The most bytes that the value of a block may have.
pub const MAX_VALUE: usize = 8_192;

/// How many bytes of a file one block of it holds, and the most that a bucket of a directory has.
pub const FILE_BLOCK: usize = 4_096;

/// How many blocks one segment holds at most: a client with so many dirty blocks seals.
pub const SEGMENT_BLOCKS: usize = 24;

/// How many items a script may have.
pub const MAX_LINES: u32 = 20_000;

/// How many bytes a script or the text of a file may have.
pub const MAX_BYTES: usize = 1_048_576;

/// How many bytes one call writes to a file or reads of it at most.
pub const MAX_TEXT: usize = 65_536;

/// The most packets that are delivered for one line of a script, and that a line may lose, repeat or let through.
pub const MAX_DELIVERIES: u32 = 20_000;

/// How many clients a run may have.
pub const MOST_CLIENTS: u8 = 8;

/// How many managers a run may have.
pub const MOST_MANAGERS: u8 = 4;

/// How many slots the index has.
pub const SLOT_COUNT: u8 = 8;

/// How long a list by slot is.
pub const BY_SLOT: usize = SLOT_COUNT as usize;

/// How many logs say where blocks lie: the clients', and the cleaner's, which is the last of them.
pub const BLOCK_LOGS: u8 = 9;

/// How long a list by such log is, from log 1 on.
pub const BY_LOG: usize = BLOCK_LOGS as usize;

/// How many logs there are: behind those stand the managers'.
pub const LOG_COUNT: u8 = 13;

/// How far below its type's end each counter of a node stands before the node takes an event.
pub const COUNTER_ROOM: u32 = 65_536;
