//! The groups of a map, shared by all copies of it.
ghost use Rattle.std.specs.Prelude.{◌≡◌, IfOk, MatchOption, None, Some, slice_get};

use crate::Group;
use std::alloc::Global;
use std::marker::Model;
use std::sync::ArcSlice;
use xfs_base::{List, Mem};

/// Groups that never change. Contracts see the list of them. A copy shares them: each packet that brings
/// the maps has them at the cost of one.
#[derive(Drop)]
pub(crate) struct Groups {
    shared: ArcSlice<Group, Global>,
}

impl Model for Groups {
    ghost use Rattle.std.specs.Prelude.{List as Seq};
    ghost use Rattle.group_map.specs.declared.group.Group.{Group as Made};

    ghost Value = { Seq Made };

    ghost view = { λ g. g.shared.items.value.items };
}

impl Groups {
    /// The groups of a list, which are not copied.
    pub(crate) fn from_list(list: List<Group>) -> Mem<Groups>
        ensures { IfOk result (λ made. made ≡ list) }
    {
        Ok(Groups {
            shared: ArcSlice::from_vec(list.into_vec())?,
        })
    }

    /// The groups.
    pub(crate) fn as_slice(&self) -> &[Group]
        ensures { result.now ≡ self.now }
    {
        self.shared.as_slice()
    }

    /// The group at a place, counted from 0; none past the end.
    pub(crate) fn get(&self, place: usize) -> Option<&Group>
        ensures { MatchOption result (slice_get self.now place ≡ None) (λ g. slice_get self.now place ≡ Some g.now) }
    {
        self.shared.as_slice().get(place)
    }

    /// The same groups, shared.
    pub(crate) fn copy(&self) -> Mem<Groups>
        ensures { IfOk result (λ copied. copied ≡ self.now) }
    {
        Ok(Groups {
            shared: self.shared.clone()?,
        })
    }
}
