//! What is true over any list of losses. Each function stands for the law that its contract states; a
//! call of it does nothing.
ghost use Rattle.std.specs.Prelude.{◌≡◌, ◌≤◌, ℕ, IsTrue, IsSomeAnd, Some, None, List, All, length, nat_eq};
ghost use Rattle.std.specs.List.{IsDistinct};
ghost use Rattle.group_map.specs.declared.group.Group.{Group};
ghost use Rattle.group_map.specs.GroupMapState.{GroupMapState};
ghost use Rattle.group_map.specs.Groups.{group_of, generation_at, group_map_start};
ghost use Rattle.group_map.specs.Losses.{Loss, after_losses, MayLoseAll, IsLater};
ghost use Rattle.group_map.specs.Sizes.{IsParity, bad_size};
ghost use Rattle.group_map.specs.WellFormed.{IsServer, IsGroupMap};
ghost use Rattle.xfs_base.specs.declared.setup.GroupSetup.{GroupSetup};
ghost use Rattle.xfs_base.specs.Limits.{u32_end};

/// A group once made never changes but for `current`, and one that is obsolete stays so.
pub fn groups_stay_as_made()
    ensures { (state : GroupMapState) (losses : List Loss) (id : ℕ) (group : Group) → group_of state id ≡ Some group
        → IsSomeAnd (group_of (after_losses state losses) id) (IsLater group) }
{}

/// Generations never fall.
pub fn generations_never_fall()
    ensures { (state : GroupMapState) (losses : List Loss) → MayLoseAll state losses → (server : ℕ)
        → generation_at state.generations server ≤ generation_at (after_losses state losses).generations server }
{}

/// What is true of every map is true of each that starts.
pub fn map_starts_well_formed()
    ensures { (servers : ℕ) (groups : List GroupSetup) → 1 ≤ length groups → length groups ≤ u32_end → bad_size groups ≡ None
        → All (λ g. All (IsServer servers) g.servers) groups → All (λ g. IsDistinct nat_eq g.servers) groups → All (λ g. IsParity g.parity) groups
        → IsGroupMap (group_map_start servers groups) }
{}

/// What is true of a map stays true: among others, there is always a current group.
pub fn map_stays_well_formed()
    ensures { (state : GroupMapState) (losses : List Loss) → IsGroupMap state → MayLoseAll state losses → IsGroupMap (after_losses state losses) }
{}

/// Each member of a current group is at the generation that its server has now.
pub fn current_members_are_present()
    ensures { (state : GroupMapState) → IsGroupMap state → (id : ℕ) (group : Group) → group_of state id ≡ Some group → IsTrue group.current
        → All (λ m. m.generation ≡ generation_at state.generations m.server) group.members }
{}
