//! The pieces of a stripe that are missing.
ghost use Rattle.std.specs.Prelude.{◌≡◌, ◌^◌, ◌≤◌, ◌<◌, ◌∷◌, [], None, IfOk, IfSome, length};
ghost use Rattle.parity_kernel.specs.Bytewise.{times};
ghost use Rattle.parity_kernel.specs.Field.{inverse_of};
ghost use Rattle.fragment_sums.specs.Recovered.{HasLengths, AreRising, GivesBack, missing_from, part_at, rest_onto, one_gone, lower_of, both_of, two_gone, recovered_at, recovered};
ghost use Rattle.fragment_sums.specs.Sums.{plain, weighted};

use crate::sums::{added, extended, xored, zeros_of};
use parity_kernel::inverse;
use std::alloc::Global;
use xfs_base::{List, Mem};

/// The pieces that are missing, of so many, in order. Behind the pieces stand one or two parity fragments. Where more are
/// missing than the parity makes good, what is answered isn't the pieces.
pub fn recovered(
    alloc: Global,
    parts: &[Option<List<u8>>],
    count: usize,
    part: usize,
) -> Mem<List<List<u8>>>
    requires few { count ≤ 8 }
    requires within { count ≤ length parts.now }
    requires lengths { HasLengths part parts.now }
    // Where no more are missing than the parity makes good, the pieces come back.
    ensures gives_back { IfOk result (λ found. GivesBack part parts.now count found) }
    ensures exact { IfOk result (λ found. found ≡ recovered parts.now count) }
{
    let none = None;
    let first = part_or(parts, count, &none);
    let second = part_or(parts, count + 1, &none);
    recover(alloc, &parts[..count], first, second, part)
}

/// The places at which nothing is.
pub fn missing(alloc: Global, parts: &[Option<List<u8>>]) -> Mem<List<usize>>
    ensures { IfOk result (λ places. places ≡ missing_from 0 parts.now) }
{
    let mut places = List::new(alloc);
    for (place, part) in parts.iter().enumerate() {
        if part.is_none() {
            places.push(place)?;
        }
    }
    Ok(places)
}

/// The part at a place, or past the end of the list nothing.
fn part_or<'a>(
    parts: &'a [Option<List<u8>>],
    place: usize,
    none: &'a Option<List<u8>>,
) -> &'a Option<List<u8>>
    requires { none.now ≡ None }
    ensures { result.now ≡ part_at parts.now place }
{
    match parts.get(place) {
        Some(part) => part,
        None => none,
    }
}

/// The pieces that are missing, in order.
fn recover(
    alloc: Global,
    known: &[Option<List<u8>>],
    first: &Option<List<u8>>,
    second: &Option<List<u8>>,
    part: usize,
) -> Mem<List<List<u8>>>
    requires few { length known.now ≤ 8 }
    requires known { HasLengths part known.now }
    requires first { IfSome first.now (λ f. length f ≡ part) }
    requires second { IfSome second.now (λ f. length f ≡ part) }
    ensures { IfOk result (λ found. found ≡ recovered_at (missing_from 0 known.now) known.now first.now second.now) }
{
    let gone = missing(alloc, known)?;
    recover_at(alloc, gone.as_slice(), known, first, second, part)
}

/// The pieces at these places.
fn recover_at(
    alloc: Global,
    gone: &[usize],
    known: &[Option<List<u8>>],
    first: &Option<List<u8>>,
    second: &Option<List<u8>>,
    part: usize,
) -> Mem<List<List<u8>>>
    requires gone { AreRising 0 8 gone.now }
    requires few { length known.now ≤ 8 }
    requires known { HasLengths part known.now }
    requires first { IfSome first.now (λ f. length f ≡ part) }
    requires second { IfSome second.now (λ f. length f ≡ part) }
    ensures { IfOk result (λ found. found ≡ recovered_at gone.now known.now first.now second.now) }
{
    match gone.split_first() {
        Some((a, rest)) => recover_behind(alloc, *a, rest, known, first, second, part),
        None => Ok(List::new(alloc)),
    }
}

/// The pieces at a place and at these behind it.
fn recover_behind(
    alloc: Global,
    a: usize,
    rest: &[usize],
    known: &[Option<List<u8>>],
    first: &Option<List<u8>>,
    second: &Option<List<u8>>,
    part: usize,
) -> Mem<List<List<u8>>>
    requires gone { AreRising 0 8 (a ∷ rest.now) }
    requires few { length known.now ≤ 8 }
    requires known { HasLengths part known.now }
    requires first { IfSome first.now (λ f. length f ≡ part) }
    requires second { IfSome second.now (λ f. length f ≡ part) }
    ensures { IfOk result (λ found. found ≡ recovered_at (a ∷ rest.now) known.now first.now second.now) }
{
    match rest.split_first() {
        Some((b, more)) => {
            if more.is_empty() {
                recover_two(alloc, known, a, *b, first, second, part)
            } else {
                Ok(List::new(alloc))
            }
        }
        None => {
            let piece = recover_one(alloc, known, a, first, second, part)?;
            extended(List::new(alloc), piece)
        }
    }
}

/// The piece that alone is missing: from the first parity fragment, or else from the second.
fn recover_one(
    alloc: Global,
    known: &[Option<List<u8>>],
    a: usize,
    first: &Option<List<u8>>,
    second: &Option<List<u8>>,
    part: usize,
) -> Mem<List<u8>>
    requires place { a < 8 }
    requires few { length known.now ≤ 8 }
    requires known { HasLengths part known.now }
    requires first { IfSome first.now (λ f. length f ≡ part) }
    requires second { IfSome second.now (λ f. length f ≡ part) }
    ensures { IfOk result (λ found. found ≡ one_gone known.now a first.now second.now) }
{
    match first {
        Some(first) => plain_rest(alloc, first, known, part),
        None => match second {
            Some(second) => recover_by_second(alloc, known, a, second, part),
            None => Ok(List::new(alloc)),
        },
    }
}

/// The same, from the second.
fn recover_by_second(
    alloc: Global,
    known: &[Option<List<u8>>],
    a: usize,
    second: &List<u8>,
    part: usize,
) -> Mem<List<u8>>
    requires place { a < 8 }
    requires few { length known.now ≤ 8 }
    requires known { HasLengths part known.now }
    requires second { length second.now ≡ part }
    ensures { IfOk result (λ found. found ≡ times (inverse_of (2 ^ a)) (rest_onto weighted 0 second.now known.now)) }
{
    let rest = weighted_rest(alloc, second, known, part)?;
    multiple(alloc, part, inverse(1 << a), rest.as_slice())
}

/// The two pieces that are missing, from both parity fragments.
fn recover_two(
    alloc: Global,
    known: &[Option<List<u8>>],
    a: usize,
    b: usize,
    first: &Option<List<u8>>,
    second: &Option<List<u8>>,
    part: usize,
) -> Mem<List<List<u8>>>
    requires order { a < b }
    requires places { b < 8 }
    requires few { length known.now ≤ 8 }
    requires known { HasLengths part known.now }
    requires first { IfSome first.now (λ f. length f ≡ part) }
    requires second { IfSome second.now (λ f. length f ≡ part) }
    ensures { IfOk result (λ found. found ≡ two_gone known.now a b first.now second.now) }
{
    match (first, second) {
        (Some(first), Some(second)) => both_of(alloc, known, a, b, first, second, part),
        _ => pair_of(alloc, List::new(alloc), List::new(alloc)),
    }
}

/// The two pieces, where both parity fragments are there.
fn both_of(
    alloc: Global,
    known: &[Option<List<u8>>],
    a: usize,
    b: usize,
    first: &List<u8>,
    second: &List<u8>,
    part: usize,
) -> Mem<List<List<u8>>>
    requires order { a < b }
    requires places { b < 8 }
    requires few { length known.now ≤ 8 }
    requires known { HasLengths part known.now }
    requires first { length first.now ≡ part }
    requires second { length second.now ≡ part }
    ensures { IfOk result (λ found. found ≡ both_of a b (rest_onto plain 0 first.now known.now) (rest_onto weighted 0 second.now known.now)) }
{
    let sum = plain_rest(alloc, first, known, part)?;
    let weighted = weighted_rest(alloc, second, known, part)?;
    let lower = lower_of_two(alloc, a, b, sum.as_slice(), weighted, part)?;
    let upper = xored(sum, lower.as_slice());
    pair_of(alloc, lower, upper)
}

fn pair_of(alloc: Global, first: List<u8>, second: List<u8>) -> Mem<List<List<u8>>>
    ensures { IfOk result (λ pair. pair ≡ first ∷ second ∷ []) }
{
    let one = extended(List::new(alloc), first)?;
    extended(one, second)
}

/// Of the two pieces that are missing the lower, from what they add to both parity fragments.
fn lower_of_two(
    alloc: Global,
    a: usize,
    b: usize,
    sum: &[u8],
    weighted: List<u8>,
    part: usize,
) -> Mem<List<u8>>
    requires order { a < b }
    requires places { b < 8 }
    requires sum { length sum.now ≡ part }
    requires weighted { length weighted ≡ part }
    ensures lower { IfOk result (λ lower. lower ≡ lower_of a b sum.now weighted) }
    ensures long { IfOk result (λ lower. length lower ≡ part) }
{
    let rest = added(weighted, sum, 1 << b);
    multiple(alloc, part, inverse((1 << a) ^ (1 << b)), rest.as_slice())
}

/// The exclusive or of a fragment and of those that are there.
fn plain_rest(
    alloc: Global,
    start: &List<u8>,
    known: &[Option<List<u8>>],
    part: usize,
) -> Mem<List<u8>>
    requires start { length start.now ≡ part }
    requires known { HasLengths part known.now }
    ensures rest { IfOk result (λ sum. sum ≡ rest_onto plain 0 start.now known.now) }
    ensures long { IfOk result (λ sum. length sum ≡ part) }
{
    let mut sum = start.copy(alloc)?;
    for fragment in known {
        if let Some(fragment) = fragment {
            sum = xored(sum, fragment.as_slice());
        }
    }
    Ok(sum)
}

/// The exclusive or of a fragment and of the products of those that are there by 1, 2, 4 and so on.
fn weighted_rest(
    alloc: Global,
    start: &List<u8>,
    known: &[Option<List<u8>>],
    part: usize,
) -> Mem<List<u8>>
    requires few { length known.now ≤ 8 }
    requires start { length start.now ≡ part }
    requires known { HasLengths part known.now }
    ensures rest { IfOk result (λ sum. sum ≡ rest_onto weighted 0 start.now known.now) }
    ensures long { IfOk result (λ sum. length sum ≡ part) }
{
    let mut sum = start.copy(alloc)?;
    for (place, fragment) in known.iter().enumerate() {
        if let Some(fragment) = fragment {
            sum = added(sum, fragment.as_slice(), 1 << place);
        }
    }
    Ok(sum)
}

/// The products of bytes by one.
fn multiple(alloc: Global, part: usize, by: u8, of: &[u8]) -> Mem<List<u8>>
    requires { length of.now ≡ part }
    ensures times { IfOk result (λ product. product ≡ times by of.now) }
    ensures long { IfOk result (λ product. length product ≡ part) }
{
    let start = zeros_of(alloc, part)?;
    Ok(added(start, of, by))
}
