//! The text of each run is said to be legal. It has no code of the product: each function below calls the laws that it stands on, and its contract is a law.
//! `specs/Names.antt` says what an act may name, and `specs/Audits.antt` of `headline` what is said of a text.

ghost use Rattle.run_audits.specs.Laws.{ActsNameWhatIs, ItemsAreAnsweredInLines, RunsAreAuditedLegal};

use log_law::laws_of_logs;
use log_tie::settings_exist;
use node_slots::owner_index_tie::server_index_events_are_seen;
use run_answers::act_law::{answers_are_acts, file_answers_are_planned};
use run_answers::once_law::items_are_answered_once;
use run_answers::own_law::clients_act_for_their_items;
use run_laws::reading_law::readers_hold_what_came;
use run_laws::reopening_law::openings_end_by_one_thing;
use run_laws::restart_law::without_losses_no_restart_is_doubtful;
use run_laws::world_law::nodes_are_seen;
use run_laws::world_logs::runs_keep_logs;
use run_laws::world_reads::every_runs_acts_are_legal;
use run_losses::earned_law::each_lost_act_is_earned;

/// What the acts of a run name, and how its items are answered, in every run of a script of whose setup a run can be started.
///
/// - `named`: up to each moment up to which no restart that ended was doubtful, each act names a client of the run, or the owner of a log of it, and each segment
///   that it names is one of a log, whose number, incarnation and attempt count from 1. What was filed was in flight in the log of its owner; so was what a client
///   found as it is back, and what it had in flight as it fell; what the cleaner gives up a server listed; and what is said to be lost was filed, or was read
///   whole while its owner opened its log.
/// - `in_lines`: no name of a listing has a line feed: it was read in a bucket, by its form.
pub fn acts_name_what_is()
    ensures named { ActsNameWhatIs }
    ensures in_lines { ItemsAreAnsweredInLines }
{
    settings_exist();
    runs_keep_logs();
    laws_of_logs();
    nodes_are_seen();
    server_index_events_are_seen();
    readers_hold_what_came();
    openings_end_by_one_thing();
    clients_act_for_their_items();
    each_lost_act_is_earned();
    answers_are_acts();
    file_answers_are_planned();
    items_are_answered_once();
}

/// In every run of a script of whose setup a run can be started, where that has the line `acts`, and the numbers and the bytes of the run's acts are in the ranges
/// of their types: what is said of the front of its text that ends with the acts up to a moment is that it is legal, up to the first doubtful restart; and so of
/// all of it, where none was, or where no line of the script has a server lose its disk.
pub fn runs_are_audited_legal()
    ensures legal { RunsAreAuditedLegal }
{
    acts_name_what_is();
    every_runs_acts_are_legal();
    without_losses_no_restart_is_doubtful();
}
