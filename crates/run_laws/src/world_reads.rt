//! The law of every run of the nodes' world about what its acts say: each read is of the newest version, while no restart was doubtful. It has no code of the
//! product: its functions call the laws that they stand on, and their contracts are laws. The proof carries, beside one run of the nodes, both small worlds of
//! each slot of the map, that of tokens and that of the index, and those of all logs: each gives the others what they are owed. `specs/world_reads/Joint.antt`
//! says how a moment of the run stands to all of them.

ghost use Rattle.run_laws.specs.world_reads.Holders.{EveryRunsHoldersAreNewest};
ghost use Rattle.run_laws.specs.world_reads.Indexes.{EveryRunKeepsItsIndexes, EveryRunsIndexesAreItsOwn};
ghost use Rattle.run_laws.specs.world_reads.Legal.{EveryRunWithoutLossesIsLegal, EveryRunsActsAreLegal};
ghost use Rattle.run_laws.specs.world_reads.Moments.{EveryMomentStands, EveryRunStands};
ghost use Rattle.run_laws.specs.world_reads.Readings.{ReadsBelow};
ghost use Rattle.run_laws.specs.world_reads.TokensBelow.{TokensBelow};

use crate::epoch_law::epoch_laws;
use crate::index_reads::index_laws;
use crate::place_law::place_laws;
use crate::reading_law::readers_hold_what_came;
use crate::reopening_law::reopening_laws;
use crate::restart_law::{run_lines, without_losses_no_restart_is_doubtful};
use crate::segment_law::writing_laws;
use crate::segment_tie::items_say_all;
use crate::world_law::{nodes_are_seen, what_fell_is_held_by_nobody};
use crate::world_lines::line_laws;
use crate::world_logs::runs_keep_logs;
use act_tie::blocks;
use log_law::laws_of_logs;
use node_tellings::entry_tie::{
    cleaner_tells_told_entries, clients_tell_told_entries, managers_tell_told_entries,
    registry_tells_no_entries, servers_tell_no_entries,
};
use node_tellings::reading_tie::managers_read_what_came;
use token_law::{acts_are_legal, dirty_blocks_lead, tokens_keep_their_word};

/// What nodes do is seen in the small world of tokens, and what stands of that.
fn tokens_below()
    ensures { TokensBelow }
{
    nodes_are_seen();
    tokens_keep_their_word();
    acts_are_legal();
    dirty_blocks_lead();
    epoch_laws();
    what_fell_is_held_by_nobody();
    blocks();
}

/// What nodes tell of where blocks lie, and what they read.
fn reads_below()
    ensures { ReadsBelow }
{
    clients_tell_told_entries();
    managers_tell_told_entries();
    cleaner_tells_told_entries();
    servers_tell_no_entries();
    registry_tells_no_entries();
    place_laws();
    managers_read_what_came();
    readers_hold_what_came();
}

/// In every run, whatever messages are lost, repeated or reordered, whichever nodes stop and start again, and however epochs pass from manager to manager, each
/// read is of the newest version of its block, with its value (the 1996 paper, on cache consistency), while no restart of a client or of the cleaner was
/// doubtful.
///
/// - `legal`: so it is of every run of a script of whose setup a run can be started: at each moment of it up to which no restart that ended was doubtful, the
///   acts up to there are legal.
/// - `unlost`: where the script has no line by which a server loses its disk, the acts up to each moment are legal.
/// - `indexes`: up to there the index of each manager that manages a slot is the join of what it has applied, and the
///   newest row of a block is in no segment that a server was told to delete (on the imap and on cleaning); both by the run's own
///   table of what logs filed: of logs 1 to 9 just the segments that were acted to be filed, as they were stored, one of each number.
///   What the slot's present manager has applied is at least what the checkpoint covers that the registry keeps.
/// - `own`: so it is with nothing given, by the run's own table at each such moment.
/// - `holders`: up to there what a client that serves holds of a block, where it keeps a value, is the block's newest version, with that version's value.
/// - `moments`: what all of it stands on: each such moment stands to the small worlds of tokens, of each slot's index
///   and of all logs, and comes of the start by moments that stand so, each of which follows the one before it.
pub fn every_runs_acts_are_legal()
    ensures legal { EveryRunsActsAreLegal }
    ensures unlost { EveryRunWithoutLossesIsLegal }
    ensures indexes { EveryRunKeepsItsIndexes }
    ensures own { EveryRunsIndexesAreItsOwn }
    ensures holders { EveryRunsHoldersAreNewest }
    ensures moments { EveryMomentStands }
{
    tokens_below();
    index_laws();
    reads_below();
    laws_of_logs();
    reopening_laws();
    run_lines();
    line_laws();
    writing_laws();
    without_losses_no_restart_is_doubtful();
}

/// What every run stands on: there is a setting in which contents tell items apart, a run has a line of each of its logs, those have one text of each name,
/// and by these each moment of it stands.
pub fn every_run_stands()
    ensures { EveryRunStands }
{
    items_say_all();
    runs_keep_logs();
    every_runs_acts_are_legal();
}
