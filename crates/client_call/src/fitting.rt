//! Lemmas, as functions that do nothing when they run: a segment can hold all that a client puts. The definitions
//! speak of numbers without ranges, so they ask for that; here the ranges of types answer it.
ghost use Rattle.std.specs.Prelude.{◌≡◌, ◌+◌, ◌^◌, nat_lt, true};
ghost use Rattle.std.specs.List.{list_all};
ghost use Rattle.client_call.specs.Fitting.{is_byte, put_fits, value_fits};
ghost use Rattle.token_client.specs.Held.{may_write};
ghost use Rattle.token_client.specs.State.{held_of};

use token_client::Tokens;
use xfs_base::{BlockId, Value};

/// A segment can hold the next version of a block that may be written, whatever its value.
pub fn prove_put_fits(tokens: &Tokens, block: BlockId, value: &Value)
    requires { may_write (held_of tokens.now.blocks block) ≡ true }
    ensures { put_fits block ((held_of tokens.now.blocks block).ver + 1) value.now ≡ true }
{
    prove_word_fits(block.ino.0);
    prove_word_fits(block.blk);
    prove_value_fits(value);
}

// A segment can hold each value.
fn prove_value_fits(value: &Value)
    ensures { value_fits value.now ≡ true }
{
    if let Some(bytes) = value.bytes() {
        prove_bytes_fit(bytes);
    }
}

// Each of these is a byte.
fn prove_bytes_fit(bytes: &[u8])
    ensures { list_all is_byte bytes.now ≡ true }
{}

// Each number of a block has 4 bytes.
fn prove_word_fits(n: u32)
    ensures { nat_lt n (2 ^ 32) ≡ true }
{}
