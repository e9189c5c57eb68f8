//! Where the log goes on.
ghost use Rattle.std.specs.Prelude.{◌≡◌, ◌++◌, ◌∷◌, [], Some, option_to_list};
ghost use Rattle.std.specs.List.{list_any};
ghost use Rattle.log_scan.specs.Pick.{above, counting, is_newer, newest, lacks, is_torn, end_at, end_before, end_of_none, start_in, start_of};

use crate::listing::Listing;
use group_map::{Group, GroupMap, Member};
use segment_reading::known_group;
use xfs_base::{End, FragMeta, Pass, SegName};

/// Where the log goes on: behind the newest segment that is listed and not below the horizon, or behind
/// the one before it where it is torn, or at the horizon where there is none. Open where the group of the
/// newest is not known.
pub(crate) fn start_of(groups: &Option<GroupMap>, lists: &[Listing], low: u32) -> Option<End>
    ensures { result ≡ start_of groups.now lists.now low }
{
    match newest(lists, low) {
        None => Some(end_of_none(low.saturating_sub(1))),
        Some(meta) => match known_group(groups, meta.group) {
            None => None,
            Some(group) => Some(start_in(lists, meta, group)),
        },
    }
}

fn start_in(lists: &[Listing], meta: FragMeta, group: &Group) -> End
    ensures { result ≡ start_in lists.now meta group.now }
{
    if is_torn(lists, meta.name, group.members.as_slice()) {
        end_before(meta)
    } else {
        end_at(meta)
    }
}

// Whether a member that lost nothing since the group was made lacks the segment.
pub(crate) fn is_torn(lists: &[Listing], name: SegName, members: &[Member]) -> bool
    ensures { result ≡ is_torn lists.now name members.now }
{
    members.iter().any(|member| is_lacked(lists, name, *member))
}

fn is_lacked(lists: &[Listing], name: SegName, member: Member) -> bool
    ensures { result ≡ list_any (lacks name member) lists.now }
{
    lists.iter().any(|list| list.lacks(name, member))
}

fn end_at(meta: FragMeta) -> End
    ensures { result ≡ end_at meta }
{
    End {
        seq: meta.name.seq,
        pass: meta.name.pass,
        group: meta.group,
    }
}

fn end_before(meta: FragMeta) -> End
    ensures { result ≡ end_before meta }
{
    End {
        seq: meta.name.seq.saturating_sub(1),
        pass: meta.prior.pass,
        group: meta.prior.group,
    }
}

fn end_of_none(seq: u32) -> End
    ensures { result ≡ end_of_none seq }
{
    End {
        seq,
        pass: Pass { inc: 0, att: 0 },
        group: 0,
    }
}

// The newest of what the lists name and is not below the horizon.
pub(crate) fn newest(lists: &[Listing], low: u32) -> Option<FragMeta>
    ensures { result ≡ newest (counting low lists.now) }
{
    let mut best = None;
    for list in lists {
        best = newest_with(best, list.held.as_slice(), low);
    }
    best
}

// The newest of what was there before and what one list adds.
fn newest_with(before: Option<FragMeta>, metas: &[FragMeta], low: u32) -> Option<FragMeta>
    ensures { result ≡ newest (option_to_list before ++ above low metas.now) }
{
    let mut best = before;
    for meta in metas {
        if low <= meta.name.seq {
            best = Some(newer(best, *meta));
        }
    }
    best
}

fn newer(before: Option<FragMeta>, meta: FragMeta) -> FragMeta
    ensures { Some result ≡ newest (option_to_list before ++ meta ∷ []) }
{
    match before {
        None => meta,
        Some(best) => { if is_newer(meta, best) { meta } else { best } }
    }
}

// By incarnation, then by number, then by attempt.
fn is_newer(a: FragMeta, b: FragMeta) -> bool
    ensures { result ≡ is_newer a b }
{
    let incarnations = a.name.pass.inc.cmp(&b.name.pass.inc);
    let numbers = a.name.seq.cmp(&b.name.seq);
    let attempts = a.name.pass.att.cmp(&b.name.pass.att);
    incarnations.then(numbers).then(attempts).is_gt()
}
