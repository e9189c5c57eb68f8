//! The text of a stripe, from those of its fragments that are there.
ghost use Rattle.std.specs.Prelude.{◌≡◌, ◌⊎◌, ◌-◌, ℕ, List as Seq, ◌∷◌, ◌++◌, Some, None, IfOk, IfErr, OnOk, length, take};
ghost use Rattle.std.specs.List.{concat};
ghost use Rattle.stripe_code.specs.declared.joining.JoinError.TheVariants.{Memory};
ghost use Rattle.stripe_code.specs.Joined.{HasLengths, AreOf, missing_from, too_many, filled, joined};
ghost use Rattle.stripe_code.specs.Stripe.{IsCut, IsBytes, part_len, stripe_of};

use crate::cutting::part_len;
use fragment_sums::{missing, recovered};
use std::alloc::{AllocError, Global};
use thiserror::Error;
use xfs_base::{List, Mem};

/// Why fragments give no text.
#[derive(Debug, Drop, Error)]
pub enum JoinError {
    /// At least two are missing of a stripe with one parity fragment; the numbers of the first two.
    #[error("fragments {0} and {1} are gone")]
    TwoGone(usize, usize),
    /// At least three are missing of a stripe with two parity fragments; the numbers of the first three.
    #[error("fragments {0}, {1} and {2} are gone")]
    ThreeGone(usize, usize, usize),
    /// Want of memory.
    #[error("out of memory")]
    Memory,
}

impl From<AllocError> for JoinError {
    ghost from_gives = { λ _ e. e ≡ Memory };

    fn from(_: AllocError) -> JoinError {
        JoinError::Memory
    }
}

/// The text of `len` bytes whose stripe has these fragments, of which some may be missing: any that are
/// as many as the pieces of the text suffice. The parity is 1 or 2, and there are from parity + 2 to 8
/// places. Each fragment that is there is as long as one of a text of `len` bytes: `len` divided by the
/// number of pieces, rounded up. `TwoGone` and `ThreeGone` come exactly where more are missing than the
/// parity makes good, with the first of them; but for `Memory`, which comes wherever memory is wanting.
pub fn join(
    alloc: Global,
    parts: &[Option<List<u8>>],
    parity: u8,
    len: usize,
) -> Result<List<u8>, JoinError>
    requires size { IsCut (length parts.now) parity }
    requires lengths { HasLengths (part_len len (length parts.now - parity)) parts.now }
    // Whatever is missing, the text that was cut comes back.
    ensures gives_back { IfOk result
        (λ found. (text : Seq ℕ) → IsBytes text → length text ≡ len → AreOf parts.now (stripe_of text (length parts.now) parity) → found ≡ text) }
    ensures exact { IfOk result (λ found. found ≡ joined parts.now parity len) }
    // Which refusal it is, and that it comes where too many are missing and not else, but for memory.
    ensures enough { OnOk result (too_many parity (missing_from 0 parts.now) ≡ None) }
    ensures gone { IfErr result (λ e. (e ≡ Memory) ⊎ (too_many parity (missing_from 0 parts.now) ≡ Some e)) }
{
    let gone = missing(alloc, parts)?;
    match too_many(gone.as_slice(), parity) {
        Some(error) => Err(error),
        None => {
            let found = join_enough(alloc, parts, parity, len)?;
            Ok(found)
        }
    }
}

/// The text, where enough is there.
#[tactic(auto, unfolding(crate::specs::Joined::joined))]
fn join_enough(alloc: Global, parts: &[Option<List<u8>>], parity: u8, len: usize) -> Mem<List<u8>>
    requires size { IsCut (length parts.now) parity }
    requires lengths { HasLengths (part_len len (length parts.now - parity)) parts.now }
    ensures { IfOk result (λ found. found ≡ joined parts.now parity len) }
{
    let count = parts.len() - usize::from(parity);
    let part = part_len(len, count);
    let found = recovered(alloc, parts, count, part)?;
    fill(alloc, &parts[..count], found.as_slice(), len)
}

/// What is said where more is gone than the parity makes good.
fn too_many(gone: &[usize], parity: u8) -> Option<JoinError>
    ensures { result ≡ too_many parity gone.now }
{
    match gone.split_first() {
        Some((a, rest)) => too_many_behind(*a, rest, parity),
        None => None,
    }
}

/// The same, where one is gone and these behind it.
fn too_many_behind(a: usize, rest: &[usize], parity: u8) -> Option<JoinError>
    ensures { result ≡ too_many parity (a ∷ rest.now) }
{
    match rest.split_first() {
        Some((b, rest)) => too_many_of(a, *b, rest, parity),
        None => None,
    }
}

/// The same, where two are gone and these behind them.
fn too_many_of(a: usize, b: usize, rest: &[usize], parity: u8) -> Option<JoinError>
    ensures { result ≡ too_many parity (a ∷ b ∷ rest.now) }
{
    if parity == 1 {
        return Some(JoinError::TwoGone(a, b));
    }
    match rest.split_first() {
        Some((c, _)) => Some(JoinError::ThreeGone(a, b, *c)),
        None => None,
    }
}

/// The first `len` bytes of the pieces, of which those that are missing stand in `found`, in order.
fn fill(alloc: Global, known: &[Option<List<u8>>], found: &[List<u8>], len: usize) -> Mem<List<u8>>
    ensures { IfOk result (λ text. text ≡ take len (concat (filled known.now found.now))) }
{
    let mut text = Vec::new(alloc);
    add_filled(&mut text, known, found)?;
    text.truncate(len);
    Ok(List::from_vec(text))
}

fn add_filled(text: &mut Vec<u8>, known: &[Option<List<u8>>], found: &[List<u8>]) -> Mem<()>
    ensures { OnOk result (text.new.items ≡ text.old.items ++ concat (filled known.now found.now)) }
{
    let mut rest = found;
    for fragment in known {
        match fragment {
            Some(fragment) => text.extend_from_slice(fragment.as_slice())?,
            None => {
                if let Some((piece, others)) = rest.split_first() {
                    text.extend_from_slice(piece.as_slice())?;
                    rest = others;
                }
            }
        }
    }
    Ok(())
}
