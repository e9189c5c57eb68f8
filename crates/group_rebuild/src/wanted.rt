//! A segment of which a fragment is to be made anew.
ghost use Rattle.std.specs.Prelude.{◌≡◌, IfOk, IfSome, All, length, position, ◌==◌, Some, slice_get, unwrap_or, []};
ghost use Rattle.std.specs.Map.{values_of};
ghost use Rattle.stripe_code.specs.Stripe.{IsCut};
ghost use Rattle.group_rebuild.specs.Wanted.{IsWanted, others_of, in_group, wanted_of, wanted_in, refilled};

use group_map::{Group, GroupMap};
use std::alloc::Global;
use std::collections::{BTreeMap, VecDeque};
use stripe_code::cut;
use xfs_base::{Bytes, FragMeta, Fragment, List, Mem, SegName};

/// A segment of which the rebuilt server should hold a fragment.
#[derive(Drop)]
pub(crate) struct Wanted {
    /// What one of the other fragments says of itself.
    pub meta: FragMeta,
    /// Over how many members it is striped.
    pub n: u8,
    /// How many of its fragments are parity.
    pub parity: u8,
    /// Which fragment is the server's.
    pub place: usize,
    /// The other members, in order.
    pub others: List<u8>,
}

/// The segments of which the server should hold a fragment, by name.
pub(crate) fn wanted_in(
    alloc: Global,
    server: u8,
    groups: &GroupMap,
    listed: &BTreeMap<SegName, FragMeta>,
) -> Mem<VecDeque<Wanted>>
    ensures exact { IfOk result (λ all. all.items ≡ wanted_in server groups.now (values_of listed.now.entries)) }
    ensures each { IfOk result (λ all. All IsWanted all.items) }
{
    let mut all = VecDeque::new(alloc);
    for meta in listed.values() {
        if let Some(wanted) = wanted_of(alloc, server, groups, *meta)? {
            all.push_back(wanted)?;
        }
    }
    Ok(all)
}

/// What is wanted of a segment, where its group has the server.
fn wanted_of(alloc: Global, server: u8, groups: &GroupMap, meta: FragMeta) -> Mem<Option<Wanted>>
    ensures exact { IfOk result (λ wanted. wanted ≡ wanted_of server groups.now meta) }
    ensures whole { IfOk result (λ wanted. IfSome wanted IsWanted) }
{
    match groups.lookup(meta.group) {
        Err(_) => Ok(None),
        Ok(group) => in_group(alloc, server, group, meta),
    }
}

/// What is wanted of a segment of this group, where it has the server.
fn in_group(alloc: Global, server: u8, group: &Group, meta: FragMeta) -> Mem<Option<Wanted>>
    requires { IsCut (length group.now.members) group.now.parity }
    ensures exact { IfOk result (λ wanted. wanted ≡ in_group server group.now meta (position (λ m. m.server == server) group.now.members)) }
    ensures whole { IfOk result (λ wanted. IfSome wanted IsWanted) }
{
    match place_of(server, group) {
        None => Ok(None),
        Some(place) => {
            let others = others_of(alloc, server, group)?;
            Ok(Some(Wanted {
                meta,
                n: group.members.len() as u8,
                parity: group.parity,
                place,
                others,
            }))
        }
    }
}

/// The place of the server among the members.
fn place_of(server: u8, group: &Group) -> Option<usize>
    ensures { result ≡ position (λ m. m.server == server) group.now.members }
{
    group
        .members
        .as_slice()
        .iter()
        .position(|member| member.server == server)
}

/// The other members' servers, in order.
fn others_of(alloc: Global, server: u8, group: &Group) -> Mem<List<u8>>
    ensures { IfOk result (λ others. others ≡ others_of server group.now.members) }
{
    let mut others = List::new(alloc);
    for member in group.members.as_slice() {
        if member.server != server {
            others.push(member.server)?;
        }
    }
    Ok(others)
}

/// The fragment at a place of a stripe.
fn fragment_at(alloc: Global, stripe: &List<List<u8>>, place: usize) -> Mem<Bytes>
    ensures { IfOk result (λ bytes. bytes ≡ unwrap_or (slice_get stripe.now place) []) }
{
    match stripe.get(place) {
        Some(bytes) => Bytes::of(alloc, bytes.as_slice()),
        None => Bytes::of(alloc, &[]),
    }
}

/// The server's fragment of a segment with this text.
#[tactic(auto, unfolding(crate::specs::Wanted::refilled))]
pub(crate) fn refilled(alloc: Global, wanted: &Wanted, text: &[u8]) -> Mem<Fragment>
    requires { IsWanted wanted.now }
    ensures { IfOk result (λ fragment. fragment ≡ refilled wanted.now text.now) }
{
    let stripe = cut(alloc, text, usize::from(wanted.n), wanted.parity)?;
    let bytes = fragment_at(alloc, &stripe, wanted.place)?;
    Ok(Fragment {
        meta: FragMeta {
            index: wanted.place as u8,
            ..wanted.meta
        },
        bytes,
    })
}
