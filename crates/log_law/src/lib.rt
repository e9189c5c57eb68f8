//! The law of logs where machines, generations and packets meet: a small world of the shelves of all servers, the owner of one log through its falls and
//! reopenings, the registry and the cleaner, over a network that loses, repeats and reorders. It has no code: each function below calls the laws that it
//! stands on, and its contract is a law. A manager's log (10 to 13) isn't reopened: it begins anew at each restart, and of it is claimed that it is whole,
//! and that one name has one text.
#![tactic(auto)]

ghost use Rattle.log_law.specs.BeingRead.{WhatIsReadIsWhole};
ghost use Rattle.log_law.specs.Boots.{ARestartFilesOneOfItsBoot};
ghost use Rattle.log_law.specs.Ends.{EndsAreLast, FilesItsFlight};
ghost use Rattle.log_law.specs.Groups.{EndsNameGroups, PriorsNameGroups};
ghost use Rattle.log_law.specs.Held.{WhatFlewIsOfTheLog, WhatIsHeldFlew, WhatIsListedFlew};
ghost use Rattle.log_law.specs.Laws.{AReopeningAdopts, LogsStayInLine, LogsStayWhole, OneNameOneText, SomeSegmentFiled, TheFeedIsWhole};
ghost use Rattle.log_law.specs.LogLaws.{LogLaws};
ghost use Rattle.log_law.specs.Openings.{FliesNext, NothingFiledOpening, OpeningsGoOn};
ghost use Rattle.log_law.specs.Places.{APlaceNamesOneContent};
ghost use Rattle.log_law.specs.ReadBack.{OpeningsReadDown, ReopensBehind};
ghost use Rattle.log_law.specs.Runs.{SomeRestarts};
ghost use Rattle.log_law.specs.Tails.{ARestartFilesTheTail, ATailIsFiledOrNever};
ghost use Rattle.log_law.specs.Below.{Below};
ghost use Rattle.log_law.specs.Written.{WhatFlewIsWritten, WhatFliesIsNext, WhatIsReadBackIsLinked};

use client_log::laws::{end_rises_by_one, flight_is_next, settles_what_is_due};
use log_protocol::{
    all_is_in_order, end_is_head, hurt_is_earned, lacks_between, logs_whole, names_are_new,
    one_line, past_stays, runs_go_on, what_is_read_back_is_whole, what_reopening_adopts,
};
use log_tie::{log_inputs, opening_inputs, scan_inputs, shelf_deeds};

/// The laws of the crates below, on which each law here stands.
fn below()
    ensures { Below }
{
    log_inputs();
    opening_inputs();
    scan_inputs();
    shelf_deeds();
    flight_is_next();
    end_rises_by_one();
    settles_what_is_due();
    all_is_in_order();
    end_is_head();
    hurt_is_earned();
    lacks_between();
    logs_whole();
    one_line();
    what_reopening_adopts();
    names_are_new();
    runs_go_on();
    past_stays();
}

/// All laws of logs together: each is told, and has a contract of its own, below.
pub fn laws_of_logs()
    ensures { LogLaws }
{
    below();
    what_is_read_back_is_whole();
}

/// Logs stay whole: at each moment of every run, whatever is lost, and however the owner falls and opens its log again or, as a manager, begins it anew, each
/// member of a filed segment that isn't dropped holds its fragment, or its server is of a later generation than the segment's group names (the 1996 paper, on
/// RAID).
pub fn logs_stay_whole()
    ensures whole { LogsStayWhole }
{
    below();
}

/// One name, one text: at each moment of every run, whatever is held, stored or sent under a name of the log is a fragment of the one segment that was
/// written under that name.
pub fn one_name_one_text()
    ensures one_text { OneNameOneText }
{
    below();
}

/// A place names one content: at each moment of every run, whatever fragments of the name of a segment a round of reading joins, what it reads is that
/// segment, with its items each at its index.
pub fn a_place_names_one_content()
    ensures content { APlaceNamesOneContent }
{
    below();
}

/// What names a segment names its group: at each moment of every run the segment that another one names as the one before it, or that the end of a log that is
/// served names, is over the group that is named, among all that were in flight.
pub fn names_bear_groups()
    ensures priors { PriorsNameGroups }
    ensures ends { EndsNameGroups }
{
    below();
}

/// What an owner holds of its log was in flight: at each moment of every run the segment that it has in flight, and each that it has read back while its
/// opening segment is written, is among those that were in flight; and each of these bears the number of the log. So is each that a server listed, with its
/// group.
pub fn what_is_held_flew()
    ensures held { WhatIsHeldFlew }
    ensures own { WhatFlewIsOfTheLog }
    ensures listed { WhatIsListedFlew }
{
    below();
}

/// What its owner writes of a log: at each moment of every run each segment that was in flight is of the log, of a
/// boot and a number from 1 on, and has a text; what an owner that serves has in flight has the number after the end
/// of its log, and names that end as the one before it; and what was read back is linked, up to the opening segment.
pub fn what_flew_is_written()
    ensures written { WhatFlewIsWritten }
    ensures next { WhatFliesIsNext }
    ensures linked { WhatIsReadBackIsLinked }
{
    below();
}

/// One line: while no restart that ended was doubtful, no two filed segments of the log have one number, none is missing below a filed one, and each above the
/// least horizon names the pass of the one before it, through all falls and reopenings, and whichever tails were adopted or discarded. A restart is doubtful
/// where of the newest segment that was filed before it each member lacked its fragment at some moment of its span while the segment wasn't dropped, unless the
/// horizon by which the chain was picked had passed the segment; the span begins with the restart or, where attempts since the owner served last were cut short
/// once they had written their opening segments, with the first of these (the 1996 paper, on recovery).
pub fn logs_stay_in_line()
    ensures line { LogsStayInLine }
{
    below();
}

/// The end of a log that is served is its last filed segment, while no restart that ended was doubtful, and what it has in flight is the next one; what is
/// filed while its owner serves was in flight.
pub fn ends_are_last()
    ensures last { EndsAreLast }
    ensures flown { FilesItsFlight }
{
    below();
}

/// What a reopening adopts: while no restart that ended was doubtful, of what a reopening reads back beyond what was filed, only the flight of the last boot
/// that served tells anything: a segment of its number and its boot, with its content (the 1996 paper, on recovery).
pub fn a_reopening_adopts()
    ensures adopts { AReopeningAdopts }
{
    below();
}

/// A tail is filed or never: while no restart that ended was doubtful, at the event that ends a restart the flight of
/// the last boot that served is filed, as a segment of its number and its boot, with its content, or no segment of
/// that number and that boot is filed, then or later; and whatever else is filed then, and wasn't before, tells
/// nothing.
pub fn a_tail_is_filed_or_never()
    ensures tail { ATailIsFiledOrNever }
    ensures only { ARestartFilesTheTail }
{
    below();
}

/// What a reopening reads back: whatever comes to an opening, the chain that it tells has no gap from its end down to the horizon that it took last, which
/// isn't beyond the least one; and while no restart that ended was doubtful, all that was filed before the event that ends a restart lies before the opening
/// segment (the 1996 paper, on recovery).
pub fn a_reopening_reads_back()
    ensures down { OpeningsReadDown }
    ensures behind { ReopensBehind }
{
    below();
}

/// What is read is whole: at each moment of every run, after doubtful restarts too, the segment that an opening reads was in flight, over the group by which it
/// is read; and unless it was dropped, each member of that holds its fragment, or its server is of a later generation than the group names, whether the segment
/// was filed or not (the 1996 paper, on recovery).
pub fn what_is_read_is_whole()
    ensures whole { WhatIsReadIsWhole }
{
    below();
    what_is_read_back_is_whole();
}

/// The feed is whole: while no restart that ended was doubtful, the feed of an owner that serves has each filed segment from the least horizon on: those that
/// it filed in this boot, and those that its reopening read back (the 1996 paper, "The Imap").
pub fn the_feed_is_whole()
    ensures feed { TheFeedIsWhole }
{
    below();
}

/// Openings go on: where the number of all that was in flight has one after it, a log can be started behind the end that an opening tells, whatever comes next;
/// unless the owner falls, what begins to fly has no number beyond the one after the end of its log; nothing is filed up to a moment at which it doesn't
/// serve; and where it comes to serve, no two segments of its boot are filed, after doubtful restarts, too.
pub fn openings_go_on()
    ensures on { OpeningsGoOn }
    ensures flies { FliesNext }
    ensures unfiled { NothingFiledOpening }
    ensures one { ARestartFilesOneOfItsBoot }
{
    below();
}

/// The laws speak of something: there is a run, from a setting and a map of groups that exist, in which a segment is written, stored and filed.
pub fn runs_exist()
    ensures { SomeSegmentFiled }
{}

/// So do those on falls: there is a run in which the owner falls with its first segment in flight, restarts, reads that segment back and serves again with it
/// filed, and no restart is doubtful; and one in which a manager's log begins anew.
pub fn restarts_exist()
    ensures { SomeRestarts }
{}
