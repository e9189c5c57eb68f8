//! Numbers drawn one after the other from a first one.
ghost use Rattle.std.specs.Prelude.{◌≡◌};
ghost use Rattle.script_print.specs.Generator.{draws_from};

use xfs_base::draws::{drawn, next_number};

/// What one turn of the generator draws.
#[derive(Clone, Copy, PartialEq, Eq)]
pub struct Draws {
    /// What kind of line is made.
    pub kind: u32,
    /// The client or the manager.
    pub node: u32,
    /// The file.
    pub file: u32,
    /// The slot of the file.
    pub slot: u32,
    /// The block.
    pub block: u32,
    /// The number that the next turn draws from.
    pub left: u32,
}

/// The draws of a turn that follow a number.
pub fn draws_from(x: u32) -> Draws
    ensures { result ≡ draws_from x }
{
    let kind = next_number(x);
    let node = next_number(kind);
    let file = next_number(node);
    let slot = next_number(file);
    let block = next_number(slot);
    Draws {
        kind: drawn(kind),
        node: drawn(node),
        file: drawn(file),
        slot: drawn(slot),
        block: drawn(block),
        left: block,
    }
}
