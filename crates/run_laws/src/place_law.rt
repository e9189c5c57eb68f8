//! What is read of a place is what the segment there says. It has no code: the functions below call the laws on which theirs rest, and their contracts are
//! laws. `specs/place_law/Reads.antt` says what is known of a log, and that what is read under a name is its text.

ghost use Rattle.run_laws.specs.place_law.Answers.{ManagersAnswer, RunsAnswer};
ghost use Rattle.run_laws.specs.place_law.Copies.{ChecksAreOfRows, JobsChecksLie, LivesTellCopies};
ghost use Rattle.run_laws.specs.place_law.Fetches.{ClientsKeepSo, ClientsStartSo, FetchesReadThere, RunsReadTheirFetches};
ghost use Rattle.run_laws.specs.place_law.Hands.{HandsReadTexts};
ghost use Rattle.run_laws.specs.place_law.PlaceLaws.{PlaceLaws};
ghost use Rattle.run_laws.specs.place_law.Reads.{TakeoversReadTexts, WhatIsReadIsTheText};

use crate::world_law::nodes_are_seen;
use log_law::laws_of_logs;
use node_logs::manager_log_tie::what_is_told_is_in_range;
use node_tellings::reading_tie::{
    cleaner_reads_what_came, clients_read_what_came, managers_read_what_came,
};

/// What is read under a name is the text of the name.
///
/// - `own`: what is joined of fragments that came, in answer to one question, for a reference that bears the group of the text that it names, is that text.
/// - `takeovers`: so is what a takeover reads, and each number in it is within its type.
/// - `hands`: what the cleaner reads of the segment in its hand is the segment that was filed at its number, where that bears its name.
pub fn what_is_read_is_the_text()
    ensures own { WhatIsReadIsTheText }
    ensures takeovers { TakeoversReadTexts }
    ensures hands { HandsReadTexts }
{
    laws_of_logs();
    what_is_told_is_in_range();
    managers_read_what_came();
    cleaner_reads_what_came();
}

/// What a client reads of a block is what the filed segment says at the place of its fetch.
///
/// - `start`: a client at its start reads nothing.
/// - `its`: while a block is fetched, its reading is of the place of the fetch, whatever event comes.
/// - `runs`: so it is of each client, at each moment of every run.
/// - `there`: where the place of each of its fetches is one that a filed segment says, its reading is of the place of
///   the fetch, and what its reading holds came, whatever packet that was sent makes the reading end, the value at
///   the place is that of the row of the block there.
pub fn a_fetch_reads_there()
    ensures start { ClientsStartSo }
    ensures its { ClientsKeepSo }
    ensures runs { RunsReadTheirFetches }
    ensures there { FetchesReadThere }
{
    laws_of_logs();
    clients_read_what_came();
}

/// What is answered Live to the cleaner of a block is a copy of what a filed segment says.
///
/// - `checks`: at each moment of every run of the small world of a slot's index, what the cleaner's job asks for are Blocks of the segment that it has in hand,
///   where that is the one filed at its number.
/// - `rows`: and each place that it asks of is that of the block's row, where the reference of the segment bears its
///   group, and each Block of a segment is named by a Delta of its block.
/// - `copies`: where each Live that was sent answers a Check that was sent, at the place that its entry has, and what
///   the cleaner awaits it asked of the segment in hand, and that has of a block one value, a Live that answers a
///   question that is out tells, with the value that was read, what the filed segment says.
pub fn a_live_tells_a_copy()
    ensures checks { JobsChecksLie }
    ensures rows { ChecksAreOfRows }
    ensures copies { LivesTellCopies }
{}

/// Each Live answers a Check.
///
/// - `managers`: whatever happens to a manager, each Live that it sends answers the Check that was delivered: of its block, under its question, and its entry
///   lies at the place of that.
/// - `runs`: at each moment of every run of a script of whose setup a run can be started each Live that was sent answers a Check that was sent.
pub fn lives_answer_checks()
    ensures managers { ManagersAnswer }
    ensures runs { RunsAnswer }
{
    nodes_are_seen();
}

/// What is read of a place, and told of it, on which the laws of runs stand.
pub fn place_laws()
    ensures { PlaceLaws }
{
    what_is_read_is_the_text();
    a_fetch_reads_there();
    a_live_tells_a_copy();
    lives_answer_checks();
}
