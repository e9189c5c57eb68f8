//! What the end of a restart makes of a log, in the small world of that log: what the small worlds of tokens and of the index are owed of it. It has no code:
//! each function below calls the laws that it stands on, and its contract is a law. `specs/reopening_law/Reopens.antt` says what the event is there,
//! `specs/reopening_law/Openings.antt` what it is of a node, and `specs/reopening_law/Flights.antt` and `specs/reopening_law/Falls.antt` what is known of the
//! segment that the owner had in flight when it served last.

ghost use Rattle.run_laws.specs.reopening_law.Below.{Below};
ghost use Rattle.run_laws.specs.reopening_law.Falls.{FallsGoOn, FallsStay};
ghost use Rattle.run_laws.specs.reopening_law.Flights.{FlightsOfOwners, FlightsStay, OthersLeaveFlights};
ghost use Rattle.run_laws.specs.reopening_law.Openings.{ClientsComeBack, EndsAreReopenings, OpeningsEndByOne};
ghost use Rattle.run_laws.specs.reopening_law.ReopeningLaws.{ReopeningLaws};
ghost use Rattle.run_laws.specs.reopening_law.Reopens.{BooksFollow, ClientsReopenSo, ReopeningsReadBack, TheCleanerReopensSo};

use client_log::laws::settles_what_is_due;
use log_law::laws_of_logs;

/// The laws of the crates below, on which each law here stands.
fn below()
    ensures { Below }
{
    laws_of_logs();
    settles_what_is_due();
}

/// What a reopening read back is what was filed, and what it adopts: where a restart ends, and no restart that ended
/// was doubtful, the numbers of what was read back follow one another from one that isn't above the horizon up to the
/// end behind which the opening segment was written; all that was filed from the horizon on is there, as it was
/// filed; and each segment is the text of its name (the 1996 paper, on recovery).
pub fn what_was_read_back_is_what_was_filed()
    ensures back { ReopeningsReadBack }
{
    below();
}

/// A log is opened again as the books of tokens are: where a restart ends, and no restart that ended was doubtful, its end is that of the books, with what was
/// in flight when the owner served last where the chain has a segment of that number and that boot, and without it where not, and with so many segments behind
/// that which say nothing.
///
/// - `client`, `cleaner`: so it is of a client, whose fall told what was in flight, and of the cleaner.
/// - `books`: the books that are opened again so have what is filed then, and nothing is in flight.
pub fn logs_reopen_as_the_books_do()
    ensures client { ClientsReopenSo }
    ensures cleaner { TheCleanerReopensSo }
    ensures books { BooksFollow }
{
    below();
}

/// What the owner of a log had in flight when it served last, as the books of tokens have it.
///
/// - `serving`: while the owner serves, that is what is in flight, and the books that see its log have it so.
/// - `away`: in an event in which the owner serves nowhere it stays, and so do books of which the same is known.
/// - `others`: where others leave an owner that doesn't serve as it was, it served nowhere on the way.
pub fn flights_are_in_the_books()
    ensures serving { FlightsOfOwners }
    ensures away { FlightsStay }
    ensures others { OthersLeaveFlights }
{}

/// What the acts tell of a client's fall: from the crash until its log is open again, one fall of it waits, told with what was in flight when it served last.
///
/// - `stays`: acts by which no fall of the client is told or settled leave it so.
/// - `events`: so it goes on over each event of the client.
pub fn falls_tell_their_flight()
    ensures stays { FallsStay }
    ensures events { FallsGoOn }
{}

/// The event of a node that ends a restart is one thing that happens in the small world of its log: its opening segment, which says nothing, is settled, behind
/// what was read back down to the horizon that was taken last.
///
/// - `ends`: so it is of a client, and of the cleaner.
/// - `reopens`: that is the event that ends a restart there, where no restart that ended was doubtful.
/// - `back`: a client that comes to serve serves with the log that is open, and acts that it is back with the chain that was found.
pub fn openings_end_by_one_thing()
    ensures ends { OpeningsEndByOne }
    ensures reopens { EndsAreReopenings }
    ensures back { ClientsComeBack }
{}

/// All of that together, on which the laws of runs stand.
pub fn reopening_laws()
    ensures { ReopeningLaws }
{
    falls_tell_their_flight();
    flights_are_in_the_books();
    openings_end_by_one_thing();
    logs_reopen_as_the_books_do();
    what_was_read_back_is_what_was_filed();
}
