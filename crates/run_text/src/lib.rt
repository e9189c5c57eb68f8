//! The text of a run of calls on blocks is that of one machine with one table, and so it is with calls on files among them, where none is open as another begins.
//! It has no code of the product: the functions below stand for the laws that their contracts state.
#![tactic(auto)]

ghost use Rattle.run_text.specs.Runs.{EachRunAloneIsInLine, EachRunIsAsOneMachine, EachRunOfOneClientIsAlone, EachRunWithFilesIsAsOneMachine};

use one_machine::its_table_holds_a_tree;
use run_answers::act_law::{answered_versions_are_newest, answers_are_acts};
use run_answers::change_law::calls_find_versions;
use run_answers::due_law::{nodes_serve_until_they_crash, runs_answer_what_is_due};
use run_answers::once_law::items_are_answered_once;
use run_answers::own_law::clients_act_for_their_items;
use run_laws::restart_law::without_losses_no_restart_is_doubtful;
use run_laws::world_reads::every_runs_acts_are_legal;

/// In each run of a script of whose setup a run can be started, whatever messages are lost, repeated or reordered: where each item is a bput, a bget or a sync, and
/// what is answered is answered as a call is that is done, one machine with one table gives the same answers, where it makes the calls in the order in which they
/// are answered. And where each item is answered so, in the order of the lines, the text of the run is that of the one machine.
pub fn runs_are_as_one_machine()
    ensures runs { EachRunIsAsOneMachine }
{
    every_runs_acts_are_legal();
    without_losses_no_restart_is_doubtful();
    items_are_answered_once();
    answers_are_acts();
    answered_versions_are_newest();
    nodes_serve_until_they_crash();
    clients_act_for_their_items();
}

/// In each such run, where each item is a bput, a bget, a sync or a call on files, and none is open as another begins: where each is answered as a call is that is
/// done, in the order of the lines, the text of the run is that of the one machine, which drives each call on files to its end.
pub fn runs_with_files_are_as_one_machine()
    ensures runs { EachRunWithFilesIsAsOneMachine }
{
    every_runs_acts_are_legal();
    without_losses_no_restart_is_doubtful();
    items_are_answered_once();
    answers_are_acts();
    answered_versions_are_newest();
    nodes_serve_until_they_crash();
    clients_act_for_their_items();
    calls_find_versions();
    its_table_holds_a_tree();
}

/// In each run of a script: where its items begin in the order of the lines, each while none is open, and none is open at the end, they are answered in that order.
pub fn items_that_begin_alone_are_answered_in_line()
    ensures runs { EachRunAloneIsInLine }
{
    items_are_answered_once();
}

/// In each run of a script whose items are calls of one client: where they begin in the order of the lines, each is answered as a call is that is done, and none is
/// open at the end, each begins while none is open. For one that began while another is open would be answered that its client is busy, or be left out.
pub fn items_of_one_client_begin_alone()
    ensures runs { EachRunOfOneClientIsAlone }
{
    runs_answer_what_is_due();
    nodes_serve_until_they_crash();
}
