//! The parity of pieces.
ghost use Rattle.std.specs.Prelude.{◌≡◌, ◌≤◌, [], ◌∷◌, ◌++◌, IfOk, All, length};
ghost use Rattle.parity_kernel.specs.Bytewise.{xor_of, times};
ghost use Rattle.fragment_sums.specs.Sums.{plain, weighted, sum_onto, zeros, with_parity};

use parity_kernel::{mul_into, xor_into};
use std::alloc::Global;
use xfs_base::{List, Mem};

/// Pieces, all as long, then their parity: the exclusive or of them, and with a parity of 2 also the sum of their products by 1, 2, 4 and so on.
pub fn with_parity(
    alloc: Global,
    part: usize,
    parity: u8,
    pieces: List<List<u8>>,
) -> Mem<List<List<u8>>>
    requires few { length pieces ≤ 8 }
    requires alike { All (λ f. length f ≡ part) pieces }
    ensures { IfOk result (λ whole. whole ≡ with_parity parity part pieces) }
{
    if parity == 2 {
        with_both(alloc, part, pieces)
    } else {
        with_plain(alloc, part, pieces)
    }
}

/// Pieces, then the exclusive or of them.
fn with_plain(alloc: Global, part: usize, stripe: List<List<u8>>) -> Mem<List<List<u8>>>
    requires { All (λ f. length f ≡ part) stripe }
    ensures { IfOk result (λ whole. whole ≡ stripe ++ sum_onto plain 0 (zeros part) stripe ∷ []) }
{
    let first = plain_sum(alloc, part, stripe.as_slice())?;
    extended(stripe, first)
}

/// Pieces, then both their parity fragments.
fn with_both(alloc: Global, part: usize, stripe: List<List<u8>>) -> Mem<List<List<u8>>>
    requires few { length stripe ≤ 8 }
    requires alike { All (λ f. length f ≡ part) stripe }
    ensures { IfOk result (λ whole. whole ≡ stripe ++ sum_onto plain 0 (zeros part) stripe ∷ sum_onto weighted 0 (zeros part) stripe ∷ []) }
{
    let second = weighted_sum(alloc, part, stripe.as_slice())?;
    let stripe = with_plain(alloc, part, stripe)?;
    extended(stripe, second)
}

/// Fragments with one more behind them.
pub(crate) fn extended(fragments: List<List<u8>>, fragment: List<u8>) -> Mem<List<List<u8>>>
    ensures { IfOk result (λ more. more ≡ fragments ++ fragment ∷ []) }
{
    let mut fragments = fragments;
    fragments.push(fragment)?;
    Ok(fragments)
}

/// So many zeros.
pub(crate) fn zeros_of(alloc: Global, part: usize) -> Mem<List<u8>>
    ensures zeros { IfOk result (λ start. start ≡ zeros part) }
    ensures long { IfOk result (λ start. length start ≡ part) }
{
    Ok(List::from_vec(vec![in alloc; 0u8; part]?))
}

/// The exclusive or of fragments.
fn plain_sum(alloc: Global, part: usize, fragments: &[List<u8>]) -> Mem<List<u8>>
    requires { All (λ f. length f ≡ part) fragments.now }
    ensures { IfOk result (λ sum. sum ≡ sum_onto plain 0 (zeros part) fragments.now) }
{
    let mut sum = zeros_of(alloc, part)?;
    for fragment in fragments {
        sum = xored(sum, fragment.as_slice());
    }
    Ok(sum)
}

/// The exclusive or of their products by 1, 2, 4 and so on.
fn weighted_sum(alloc: Global, part: usize, fragments: &[List<u8>]) -> Mem<List<u8>>
    requires few { length fragments.now ≤ 8 }
    requires alike { All (λ f. length f ≡ part) fragments.now }
    ensures { IfOk result (λ sum. sum ≡ sum_onto weighted 0 (zeros part) fragments.now) }
{
    let mut sum = zeros_of(alloc, part)?;
    for (place, fragment) in fragments.iter().enumerate() {
        sum = added(sum, fragment.as_slice(), 1 << place);
    }
    Ok(sum)
}

/// Bytes with others folded in.
pub(crate) fn xored(to: List<u8>, from: &[u8]) -> List<u8>
    requires { length to ≡ length from.now }
    ensures xored { result ≡ xor_of to from.now }
    ensures long { length result ≡ length to }
{
    let mut to = to.into_vec();
    xor_into(&mut to, from);
    List::from_vec(to)
}

/// Bytes with a multiple of others folded in.
pub(crate) fn added(to: List<u8>, from: &[u8], by: u8) -> List<u8>
    requires { length to ≡ length from.now }
    ensures added { result ≡ xor_of to (times by from.now) }
    ensures long { length result ≡ length to }
{
    let mut to = to.into_vec();
    mul_into(&mut to, from, by);
    List::from_vec(to)
}
