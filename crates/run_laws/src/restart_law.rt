//! Doubtful restarts: while no restart of the nodes was doubtful, none is in the small world of any log, so that its line is sure; and where no disk is lost no
//! restart is doubtful. It has no code: each function calls the laws that it stands on, and its contract is a law. `specs/Restarts.antt` of `headline` says when
//! a restart is doubtful.

ghost use Rattle.run_laws.specs.restart_law.Below.{Below};
ghost use Rattle.run_laws.specs.restart_law.RunLines.{RunLines};
ghost use Rattle.run_laws.specs.restart_law.Sure.{UndoubtedRunsAreSure};
ghost use Rattle.run_laws.specs.restart_law.Unlost.{ScriptsWithoutLossesAreUndoubted, WithoutLossesNoRestartIsDoubtful};

use crate::world_lines::owners_lines_go_on;
use crate::world_logs::runs_keep_logs;
use log_law::laws_of_logs;
use log_tie::settings_exist;
use loss_law::fragments_go_with_disks;

/// The laws of logs, and how fragments and lines go on.
fn laws_below()
    ensures { Below }
{
    laws_of_logs();
    fragments_go_with_disks();
    owners_lines_go_on();
}

/// Where no restart that ended up to a count of the events of a run was doubtful, the line of each client's log and of the cleaner's is sure up to there, as
/// the laws of logs assume it. A restart is doubtful where each member of the newest segment of the log, as its owner had it when it served last, unless that
/// is below the low by which the opening picked its chain, lacked its fragment, or lost its disk, at some moment of the restart's span while no server was told
/// to delete the segment; the span begins with the restart or, where attempts since the owner served last were cut short once they had written their opening
/// segments, with the first of these (the 1996 paper, on recovery).
pub fn undoubted_runs_are_sure()
    ensures sure { UndoubtedRunsAreSure }
{
    laws_below();
}

/// Where no server loses its disk in a run, so that each server of a group is at each moment of the generation with which the group was made, no restart of
/// the run is doubtful: while no server was told to delete the newest segment of a log, each member of its group holds its fragment. So it is in each run of a
/// script that has no line by which a server loses its disk.
pub fn without_losses_no_restart_is_doubtful()
    ensures undoubted { WithoutLossesNoRestartIsDoubtful }
    ensures scripts { ScriptsWithoutLossesAreUndoubted }
{
    laws_below();
    settings_exist();
    runs_keep_logs();
}

/// What each run has of its logs: their lines, and what is known of these.
pub fn run_lines()
    ensures { RunLines }
{
    runs_keep_logs();
    undoubted_runs_are_sure();
}
