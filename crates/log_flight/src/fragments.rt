//! The fragments of a segment over a group.
ghost use Rattle.std.specs.Prelude.{◌≡◌, ◌+◌, ◌≤◌, ◌++◌, length, IfOk, OnOk};
ghost use Rattle.segment_format.specs.Text.{KeepsLimits, text_of};
ghost use Rattle.stripe_code.specs.Fragments.{meta_of};
ghost use Rattle.stripe_code.specs.Stripe.{IsCut};
ghost use Rattle.log_flight.specs.Fragments.{pieces_from, fragments_over};

use group_map::Group;
use segment_format::{Segment, encode};
use std::alloc::Global;
use stripe_code::cut;
use xfs_base::{Bytes, FragMeta, Fragment, List, Mem};

/// The fragments of a segment over a group, by place: the stripe of its text, each with what it is a part
/// of.
pub(crate) fn fragments_over(alloc: Global, segment: &Segment, group: &Group) -> Mem<List<Fragment>>
    requires limits { KeepsLimits segment.now }
    requires cut { IsCut (length group.now.members) group.now.parity }
    ensures { IfOk result (λ fragments. fragments ≡ fragments_over segment.now group.now) }
{
    let text = encode(alloc, segment)?;
    let stripe = cut(alloc, text.as_slice(), group.members.len(), group.parity)?;
    let len = text.len() as u32;
    let mut fragments = List::new(alloc);
    add_fragments(&mut fragments, segment, len, stripe)?;
    Ok(fragments)
}

// The fragments with these bytes go behind those before them.
fn add_fragments(
    fragments: &mut List<Fragment>,
    segment: &Segment,
    len: u32,
    stripe: List<List<u8>>,
) -> Mem<()>
    requires len { len ≡ length (text_of segment.now) }
    requires few { length fragments.old + length stripe ≤ 8 }
    ensures { OnOk result (fragments.new ≡ fragments.old ++ pieces_from segment.now (length fragments.old) stripe) }
{
    for bytes in stripe.into_vec() {
        let meta = meta_at(segment, len, fragments.len() as u8);
        let bytes = Bytes::from_list(bytes)?;
        fragments.push(Fragment { meta, bytes })?;
    }
    Ok(())
}

// What a fragment at a place is a part of.
fn meta_at(segment: &Segment, len: u32, index: u8) -> FragMeta
    requires { len ≡ length (text_of segment.now) }
    ensures { result ≡ meta_of segment.now index }
{
    FragMeta {
        name: segment.name,
        group: segment.group,
        prior: segment.prior,
        index,
        len,
    }
}
