//! The group over which a segment lies.
ghost use Rattle.std.specs.Prelude.{◌≡◌, IfSome, MatchOption, None, Some, length};
ghost use Rattle.group_map.specs.Groups.{known_group};
ghost use Rattle.stripe_code.specs.Stripe.{IsCut};

use group_map::{Group, GroupMap};

/// The group of this id, where groups are known and it is among them; a text can be cut over it.
pub fn known_group(groups: &Option<GroupMap>, id: u32) -> Option<&Group>
    ensures group { MatchOption result (known_group groups.now id ≡ None) (λ group. known_group groups.now id ≡ Some group.now) }
    ensures cut { IfSome result (λ group. IsCut (length group.now.members) group.now.parity) }
{
    match groups {
        None => None,
        Some(groups) => match groups.lookup(id) {
            Ok(group) => Some(group),
            Err(_) => None,
        },
    }
}
