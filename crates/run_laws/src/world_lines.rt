//! What the logs of clients and of the cleaner filed is one line a log, and what their owners write and tell of it is so: what the small world of one slot's
//! index is owed of logs by themselves. It has no code: each function below calls the laws that it stands on, and its contract is a law.
//! `specs/world_lines/Lines.antt` says what a line is, `specs/world_lines/Turns.antt` what an event makes of it.

ghost use Rattle.run_laws.specs.world_lines.Filing.{CleanerFilesItsFlights, CleanersActsFile, ClientsActsFile, ClientsFileTheirFlights, OpeningsFileWhatFlew, RestartsFileWhatFlew, WhatIsFiledFlew};
ghost use Rattle.run_laws.specs.world_lines.FilingLaws.{FilingLaws};
ghost use Rattle.run_laws.specs.world_lines.Flights.{CleanerWritesTexts, ClientsWriteTexts, ManagersWriteTexts};
ghost use Rattle.run_laws.specs.world_lines.LineLaws.{LineLaws};
ghost use Rattle.run_laws.specs.world_lines.Lines.{LinesAreFiled, LinesAreTexts, LinesGive};
ghost use Rattle.run_laws.specs.world_lines.Owners.{ActsAreDone, CleanerFilesShort, CleanersLineGoesOn, ClientsFileShort, ClientsLinesGoOn, InBootFilesStill, StraightFilesStill};
ghost use Rattle.run_laws.specs.world_lines.Polls.{CleanersPollsAreOwed, ClientsPollsAreOwed, LinksGoOn, LinksStay, PresentIsLinked, ServersGoOnByFlights};
ghost use Rattle.run_laws.specs.world_lines.Turns.{CleanersFilesAreOwed, ClientsFilesAreOwed, LinesBegin, LinesGoOn, LinesStay};

use client_log::laws::settles_what_is_due;
use log_law::{
    ends_are_last, laws_of_logs, logs_stay_in_line, logs_stay_whole, what_flew_is_written,
    what_is_held_flew,
};
use node_slots::owner_index_tie::owners_file_their_flights;

/// Lines are filed as the index wants it, and give what it is owed of logs.
///
/// - `filed`: where each log that somebody has is sure, and has its line in what is filed, which says of blocks
///   versions from 1 on, each segment bears its log and its number, some boot wrote it, and it says so.
/// - `texts`: each is the text of its name.
/// - `give`: what they say of blocks fits its types; from the least horizon on a log is linked; and each filed name is that of the segment of its number.
pub fn lines_are_filed()
    ensures filed { LinesAreFiled }
    ensures texts { LinesAreTexts }
    ensures give { LinesGive }
{
    what_flew_is_written();
    logs_stay_in_line();
}

/// Lines only go on by what their owners act to be filed.
///
/// - `begin`: at the start nothing is filed.
/// - `stay`: in an event in which nothing more is filed of a log, its line stays.
/// - `go_on`: in an event of its owner the line goes on by the segments that it acts to be filed, each the text of its name.
pub fn lines_go_on()
    ensures begin { LinesBegin }
    ensures stay { LinesStay }
    ensures go_on { LinesGoOn }
{
    logs_stay_whole();
    ends_are_last();
}

/// What an owner acts to be filed is owed, where it says of blocks: it is the text of its name, the next segment of
/// its log, fits its types, and its number isn't the last.
pub fn what_is_filed_is_owed()
    ensures client { ClientsFilesAreOwed }
    ensures cleaner { CleanersFilesAreOwed }
{
    what_flew_is_written();
    logs_stay_whole();
}

/// What clients, the cleaner and managers have in flight is the text of its name.
pub fn what_flies_is_its_text()
    ensures client { ClientsWriteTexts }
    ensures cleaner { CleanerWritesTexts }
    ensures manager { ManagersWriteTexts }
{
    what_is_held_flew();
}

/// A log is linked from the horizons of the epochs on that its owner may be polled at.
///
/// - `client`, `cleaner`: then what an owner is owed of a Poll holds.
/// - `present`: from the registry's epoch on it is linked so.
/// - `stay`: it stays linked where horizons rise, later epochs are promised, and nothing is filed of it.
/// - `files`: an owner that serves files its flight at most.
/// - `go_on`: and the log stays linked.
pub fn logs_are_linked()
    ensures client { ClientsPollsAreOwed }
    ensures cleaner { CleanersPollsAreOwed }
    ensures present { PresentIsLinked }
    ensures stay { LinksStay }
    ensures files { ServersGoOnByFlights }
    ensures go_on { LinksGoOn }
{
    what_flew_is_written();
    lines_are_filed();
}

/// In the events of clients and of the cleaner the lines of their logs go on.
///
/// - `acts`: what is so of each segment that is acted to be filed is so of what is done.
/// - `clients_short`, `cleaner_short`: the number of what was in flight, and is acted to be filed, has one after it: near the end of a counter an event changes
///   nothing.
/// - `in_boot`, `straight`: unless the owner serves after an event, nothing is filed in it.
/// - `clients`, `cleaner`: the line goes on to what is filed in the small world of one slot's index.
pub fn owners_lines_go_on()
    ensures acts { ActsAreDone }
    ensures clients_short { ClientsFileShort }
    ensures cleaner_short { CleanerFilesShort }
    ensures in_boot { InBootFilesStill }
    ensures straight { StraightFilesStill }
    ensures clients { ClientsLinesGoOn }
    ensures cleaner { CleanersLineGoesOn }
{
    laws_of_logs();
}

/// What owners act to be filed flew before the event.
///
/// - `filed`: so did all that is filed, where nothing more is.
/// - `openings`: so did all that is filed by one thing that happens to an owner whose opening segment is in flight.
/// - `restarts`: so did all that is filed after an event of an owner that didn't serve before it.
/// - `clients`, `cleaner`: an owner that serves, and has in flight what says of blocks, acts nothing to be filed but that, and its number has one after it.
pub fn what_is_filed_flew()
    ensures filed { WhatIsFiledFlew }
    ensures openings { OpeningsFileWhatFlew }
    ensures restarts { RestartsFileWhatFlew }
    ensures clients { ClientsFileTheirFlights }
    ensures cleaner { CleanerFilesItsFlights }
{
    laws_of_logs();
    settles_what_is_due();
    owners_file_their_flights();
}

/// What a client, or the cleaner, acts to be filed in any of its events is filed after it, and its number has one after it.
pub fn what_is_acted_is_filed()
    ensures clients { ClientsActsFile }
    ensures cleaner { CleanersActsFile }
{
    what_is_filed_flew();
    owners_lines_go_on();
}

/// The lines of what logs filed, and how they go on, and what their owners act to be filed: the laws on which those of runs stand.
pub fn line_laws()
    ensures lines { LineLaws }
    ensures filing { FilingLaws }
{
    lines_are_filed();
    lines_go_on();
    owners_lines_go_on();
    logs_are_linked();
    what_is_filed_is_owed();
    what_is_filed_flew();
    what_is_acted_is_filed();
}
