//! The law of tokens where machines, epochs and packets meet: a small world of the tokens of clients and of the slots of managers, over a network that loses,
//! repeats and reorders. It has no code: each function below has an empty body, and its contract is a law.
#![tactic(auto)]

ghost use Rattle.token_law.specs.Example.{IsShared};
ghost use Rattle.token_law.specs.Laws.{OneOwner, ActiveEpochsPromised, HoldingsBelieved, GrantsBelieved, NobodyHoldsAfterFall, ActsAreLegal, DirtyBlocksLead, FallsAreApart, FlightsAreNewer, GrantsAreOfTheNewest};

/// The law of every run of the small world, however managers follow each other, clients fall and return, and packets come, whether or not logs keep their
/// word (the 1996 paper, on cache consistency).
///
/// - `one_owner`: no two clients own a block, and none holds a block that another owns.
/// - `promised`: a manager is active only at an epoch that every client has promised.
/// - `believed`: the manager that reigns believes of each client at least what it holds.
/// - `acceptable`: it believes of each client what a sent Grant would give that the client would still accept.
/// - `nobody`: between the fall of a client with the block dirty and its return, nobody holds the block.
pub fn tokens_keep_their_word()
    ensures one_owner { OneOwner }
    ensures promised { ActiveEpochsPromised }
    ensures believed { HoldingsBelieved }
    ensures acceptable { GrantsBelieved }
    ensures nobody { NobodyHoldsAfterFall }
{}

/// The law of the acts of every run: what was read, synced and lost.
///
/// - `legal`: where logs keep their word, the acts of each block are legal: each read is of the newest version, with
///   its value, and no fall and no return goes below what was read elsewhere or synced.
/// - `apart`: whether or not they do, no client falls again before it is back, and no fall names a block twice.
pub fn acts_are_legal()
    ensures legal { ActsAreLegal }
    ensures apart { FallsAreApart }
{}

/// The law of what is in flight, where logs keep their word.
///
/// - `newer`: what a client has in flight of a block, or had when it fell, is above all that any log has filed of the block.
pub fn flights_are_newer()
    ensures newer { FlightsAreNewer }
{}

/// The law of dirty blocks, where logs keep their word.
///
/// - `lead`: of a block that a client has dirty the greatest version that a log has filed is the one that the client knows as settled, its own is the newest,
///   and every version between is the client's.
pub fn dirty_blocks_lead()
    ensures lead { DirtyBlocksLead }
{}

/// The law of Grants, where logs keep their word.
///
/// - `newest`: what a sent Grant that the client would still accept tells of a block is at or above all that any log has filed of the block.
pub fn grants_tell_the_newest()
    ensures newest { GrantsAreOfTheNewest }
{}

/// What is said of runs is said of some: one in which a client writes a block and files it, and another reads it.
pub fn example()
    ensures shared { IsShared }
{}
