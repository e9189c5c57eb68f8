//! A segment begins, over the group that the map chooses for it.
ghost use Rattle.std.specs.Prelude.{◌≡◌, length, IfOk};
ghost use Rattle.segment_format.specs.Format.{IsLog};
ghost use Rattle.stripe_code.specs.Stripe.{IsCut};
ghost use Rattle.log_flight.specs.Flights.{flown, group_for};
ghost use Rattle.log_flight.specs.Texts.{HasText};

use crate::Flight;
use group_map::{Group, GroupMap};
use segment_format::{Item, Segment};
use std::alloc::Global;
use xfs_base::{List, LogId, Mem, Prior, SegName};

/// A segment of this name over the group that the map chooses for it, of which nothing is noted. The log of
/// the name is 1 to 13, and a segment may have the items, as `texts::has_text` tells.
pub fn flight_over(
    alloc: Global,
    groups: &GroupMap,
    log: LogId,
    name: SegName,
    prior: Prior,
    items: List<Item>,
) -> Mem<Flight>
    requires log { IsLog name.log.0 }
    requires text { HasText items }
    ensures { IfOk result (λ flight. flight ≡ flown name prior items (group_for groups.now log.0 name.seq)) }
{
    let group = group_for(alloc, groups, log, name.seq)?;
    let segment = Segment {
        name,
        prior,
        group: group.id,
        items,
    };
    Flight::launch(alloc, segment, group)
}

// The group that the map chooses for a segment.
fn group_for(alloc: Global, groups: &GroupMap, log: LogId, seq: u32) -> Mem<Group>
    ensures chosen { IfOk result (λ g. g ≡ group_for groups.now log.0 seq) }
    ensures cut { IfOk result (λ g. IsCut (length g.members) g.parity) }
{
    let group = groups.lookup(groups.choose(log, seq)).unwrap();
    group.copy(alloc)
}
