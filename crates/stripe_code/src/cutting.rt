//! A text cut into the fragments of a stripe.
ghost use Rattle.std.specs.Prelude.{◌≡◌, ◌≤◌, ◌<◌, IfOk, length, take, drop};
ghost use Rattle.stripe_code.specs.Stripe.{IsCut, part_len, piece_of, cut_pieces, stripe_of};

use fragment_sums::with_parity;
use std::alloc::Global;
use xfs_base::{List, Mem};

/// The stripe of a text over n members: its pieces, the last filled up with zeros, then the exclusive or
/// of these, and with a parity of 2 also the sum of their products by 1, 2, 4 and so on, in the field of
/// 256 elements (the 1996 paper, "RAID"; the second parity fragment is this project's own). The parity is
/// 1 or 2, and n from parity + 2 to 8. Only memory can be wanting.
#[tactic(auto, unfolding(crate::specs::Stripe::stripe_of))]
pub fn cut(alloc: Global, segment: &[u8], n: usize, parity: u8) -> Mem<List<List<u8>>>
    requires { IsCut n parity }
    ensures { IfOk result (λ stripe. stripe ≡ stripe_of segment.now n parity) }
{
    let count = n - usize::from(parity);
    let part = part_len(segment.len(), count);
    let pieces = cut_pieces(alloc, segment, count, part)?;
    with_parity(alloc, part, parity, pieces)
}

/// How long each fragment is of a text of `len` bytes that is cut into so many pieces.
pub(crate) fn part_len(len: usize, count: usize) -> usize
    requires { 0 < count }
    ensures { result ≡ part_len len count }
{
    let whole = len / count;
    if len % count == 0 { whole } else { whole + 1 }
}

/// The text in pieces, the last filled up with zeros.
fn cut_pieces(alloc: Global, text: &[u8], count: usize, part: usize) -> Mem<List<List<u8>>>
    ensures { IfOk result (λ cut. cut ≡ cut_pieces count part text.now) }
{
    let mut cut = List::new(alloc);
    let mut rest = text;
    for _ in 0..count {
        let (front, back) = split(rest, part);
        cut.push(piece_of(alloc, front, part)?)?;
        rest = back;
    }
    Ok(cut)
}

/// The first `part` bytes, and the rest.
fn split(text: &[u8], part: usize) -> (&[u8], &[u8])
    ensures front { result.0.now ≡ take part text.now }
    ensures short { length result.0.now ≤ part }
    ensures back { result.1.now ≡ drop part text.now }
{
    if text.len() < part {
        text.split_at(text.len())
    } else {
        text.split_at(part)
    }
}

/// The bytes, filled up with zeros.
fn piece_of(alloc: Global, text: &[u8], part: usize) -> Mem<List<u8>>
    requires { length text.now ≤ part }
    ensures { IfOk result (λ piece. piece ≡ piece_of part text.now) }
{
    let mut piece = Vec::from_slice(alloc, text)?;
    piece.resize(part, 0)?;
    Ok(List::from_vec(piece))
}
