//! What the small world of a slot's tokens gives that of its index, at a moment of a run of the nodes to which both stand, and over an event that both take:
//! the same epochs have managers in both, no manager holds an epoch of another, and a Poll that the owner of a log answers is of an epoch whose horizon is the
//! registry's. It has no code of the product: its functions call the laws that they stand on, and their contracts are laws.

ghost use Rattle.run_laws.specs.epoch_law.EpochLaws.{EpochLaws};
ghost use Rattle.run_laws.specs.epoch_law.Managers.{TokensAreGiven};
ghost use Rattle.run_laws.specs.epoch_law.Polls.{CleanerPollsAreLow, ClientPollsAreLow, HorizonsStay};
ghost use Rattle.run_laws.specs.epoch_law.Slots.{SlotsStartSame, SlotsStaySame};

use index_tie::cleaning_loses_nothing;
use token_law::tokens_keep_their_word;

/// An epoch at which a manager is active in the small world of the index has one in that of tokens.
///
/// - `start`: so it is at the start.
/// - `stay`: and after an event that both take, where it was so before.
pub fn slots_are_the_same()
    ensures start { SlotsStartSame }
    ensures stay { SlotsStaySame }
{}

/// What tokens give an event of a manager.
///
/// - `given`: news give the manager no epoch at which anybody was active, and no other manager holds an epoch that it holds or is given.
pub fn tokens_are_given()
    ensures given { TokensAreGiven }
{}

/// What tokens give a Poll.
///
/// - `horizons`: an epoch's horizon is the next one's, while nobody is active at that.
/// - `clients`, `cleaner`: where a client that serves, or the cleaner, has promised no later epoch of the slot than one that is polled, each log's horizon at
///   that epoch is at or above the least one that the registry keeps of the log.
pub fn polls_are_low()
    ensures horizons { HorizonsStay }
    ensures clients { ClientPollsAreLow }
    ensures cleaner { CleanerPollsAreLow }
{
    tokens_keep_their_word();
    cleaning_loses_nothing();
}

/// All of that together.
pub fn epoch_laws()
    ensures { EpochLaws }
{
    polls_are_low();
    slots_are_the_same();
    tokens_are_given();
}
