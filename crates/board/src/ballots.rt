//! Whose a ballot is, and which a board takes next.
ghost use Rattle.std.specs.Prelude.{◌≡◌, ◌+◌, ◌≤◌};
ghost use Rattle.xfs_base.specs.Limits.{u32_end};
ghost use Rattle.board.specs.Ballots.{owner_of, next_ballot};

/// The board that a ballot belongs to: 1, 2, 3, 1 and so on.
pub(crate) fn owner_of(ballot: u32) -> u32
    ensures { result ≡ owner_of ballot }
{
    ballot.saturating_sub(1) % 3 + 1
}

/// The least ballot of a board above what it promised.
pub(crate) fn next_ballot(number: u8, promised: u32) -> u32
    requires { promised + 3 ≤ u32_end }
    ensures { result ≡ next_ballot number promised }
{
    let number = u32::from(number);
    if owner_of(promised + 1) == number {
        return promised + 1;
    }
    if owner_of(promised + 2) == number {
        return promised + 2;
    }
    promised + 3
}
