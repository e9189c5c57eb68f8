//! The two calls of the program, and how the process ends.
ghost use Rattle.std.specs.Prelude.{◌≡◌, false, IfSome, map, string_bytes};
ghost use Rattle.std.specs.List.{AllByRecursion};
ghost use Rattle.core_world.specs.AnyNode.{any_step, any_start};
ghost use Rattle.core_world.specs.declared.any_node.AnyNode.{AnyNode as Node};
ghost use Rattle.top_call.specs.Claim.{writing, reading, Claim};
ghost use Rattle.top_call.specs.Commands.{command_of, is_live, reads};
ghost use Rattle.top_call.specs.Disks.{DisksOf};
ghost use Rattle.top_call.specs.Mounts.{MountsOf, NoReplies};
ghost use Rattle.shelved_nodes.specs.AnyShelf.{any_shelf};
ghost use Rattle.node_base.specs.Setups.{IsSetup};
ghost use Rattle.world_base.specs.declared.estate.Estate.{Estate};
ghost use Rattle.world_base.specs.Runs.{IsRun};
ghost use Rattle.xfs_top.specs.Bounds.{BoundsOf};
ghost use Rattle.xfs_top.specs.Headline.{HeadlineOf};
ghost use Rattle.xfs_top.specs.OneMachine.{OneMachineOf};
ghost use Rattle.headline.specs.Audits.{IsAuditedLegal};
ghost use Rattle.headline.specs.Safe.{IsSafe};
ghost use Rattle.run_audits.specs.Ranges.{FitsAct};
ghost use Rattle.xfs_top.specs.Replies.{AreAnswers};

use core_world::AnyNode;
use disk_play::unstopped::unstopped_scripts_are_played;
use quiet_run::all_quiet_scripts_are_answered;
use quiet_script::accepted_scripts_are_orderly;
use run_answers::act_law::{
    answered_versions_are_newest, answers_are_acts, file_answers_are_planned,
};
use run_answers::change_law::calls_find_versions;
use run_answers::checkpoint_law::checkpoints_are_true;
use run_answers::clean_law::cleanings_take_what_is_due;
use run_answers::due_law::runs_answer_what_is_due;
use run_answers::file_law::nodes_file_one_after_another;
use run_answers::linear_law::runs_are_linearizable;
use run_answers::number_law::{cleanings_are_true, rebuilds_are_true};
use run_answers::once_law::items_are_answered_once;
use run_answers::own_law::clients_act_for_their_items;
use run_answers::repeat_law::what_is_unanswered_is_said_again;
use run_answers::reply_law::questions_are_answered;
use run_answers::standing_law::answers_fit_where_a_node_stands;
use run_answers::turn_law::{each_crash_is_felt, runs_in_turn_are_never_busy};
use run_answers::wait_law::{open_calls_have_asked, wants_are_sent_again};
use run_audits::audit_law::runs_are_audited_legal;
use run_audits::ranges::prove_acts_fit;
use run_drops::drop_law::what_is_deleted_was_dropped;
use run_holdings::belief_law::managers_believe_their_clients;
use run_holdings::boot_law::the_cleaner_files_one_segment_of_its_boot;
use run_holdings::settled_law::what_is_settled_is_the_join;
use run_holdings::stripe_law::what_is_filed_is_read_back;
use run_holdings::sync_law::syncs_settle;
use run_laws::restart_law::without_losses_no_restart_is_doubtful;
use run_laws::world_law::{
    every_run_has_one_manager, every_run_has_one_owner, what_fell_is_held_by_nobody,
};
use run_laws::world_logs::runs_keep_logs;
use run_laws::world_reads::every_runs_acts_are_legal;
use run_losses::answer_law::lost_answers_are_said;
use run_losses::earned_law::each_lost_act_is_earned;
use run_losses::unlost_law::nothing_is_lost_without_losses;
use run_text::{
    items_of_one_client_begin_alone, items_that_begin_alone_are_answered_in_line,
    runs_are_as_one_machine, runs_with_files_are_as_one_machine,
};
use std::alloc::Global;
use std::mem;
use std::sync::Wait;
use std::thread::Threads;
use top_call::{Outcome, Sink, Source, answer, answer_threads, threads_asked};
use xfs_base::Gate;

/// What is so of every run of the xFS nodes.
fn every_run_is_safe()
    ensures { (e : Estate Node) → IsSetup e.script.setup → IsRun any_step any_start e.script e.events e.world → IsSafe e }
{
    every_run_has_one_owner();
    every_run_has_one_manager();
    managers_believe_their_clients();
    what_fell_is_held_by_nobody();
    runs_keep_logs();
    what_is_filed_is_read_back();
    the_cleaner_files_one_segment_of_its_boot();
    what_is_deleted_was_dropped();
    every_runs_acts_are_legal();
    what_is_settled_is_the_join();
    syncs_settle();
    each_lost_act_is_earned();
    lost_answers_are_said();
    items_are_answered_once();
    answers_are_acts();
    clients_act_for_their_items();
    nodes_file_one_after_another();
    answers_fit_where_a_node_stands();
    runs_answer_what_is_due();
    rebuilds_are_true();
    cleanings_are_true();
    cleanings_take_what_is_due();
    checkpoints_are_true();
    file_answers_are_planned();
    answered_versions_are_newest();
    runs_are_linearizable();
    calls_find_versions();
    runs_are_as_one_machine();
    runs_with_files_are_as_one_machine();
    without_losses_no_restart_is_doubtful();
    nothing_is_lost_without_losses();
    each_crash_is_felt();
    runs_in_turn_are_never_busy();
    questions_are_answered();
    open_calls_have_asked();
    wants_are_sent_again();
    what_is_unanswered_is_said_again();
}

/// The acts of the run, where there is one, are in the ranges of their types. It does nothing when it runs, but for a loop over them.
fn prove_in_range(outcome: &Outcome<AnyNode>)
    ensures { IfSome outcome.now.estate (λ e. AllByRecursion FitsAct e.world.acts) }
{
    if let Some(estate) = &outcome.estate {
        prove_acts_fit(estate.world.acts.as_slice());
    }
}

/// The program for all words but those that start threads, which are `live W` and `mount W`. `docs/LANGUAGE.md` lists the statuses,
/// and `docs/PROMISES.md` says what is promised.
///
/// - `claim`: what the call answers, of the words, the input and the output.
/// - `untouched`: words by which nothing is read, those that are no form and those by which a script is drawn, leave
///   the source as it was.
/// - `headline`: what is so of the run that was played, whatever messages were lost, repeated or reordered and
///   whichever nodes stopped, with the premises named there (`specs/Headline.antt`, and `specs/Safe.antt` of `headline`): it is one run of the xFS nodes,
///   linearizable block by block, in which no block has two owners, and only what is gone is refused as lost; up to the
///   first doubtful restart each act Read is of its block's newest version, and no fall goes below what was synced or
///   read elsewhere. Of `boards` it is said of the run with one registry that the run with three boards stands for,
///   whichever of them stopped.
/// - `audited`: where the script has the line `acts`, what `audit` says of the text of the run is that it is legal: of its front with the acts up to a moment, up
///   to the first doubtful restart, and of all of it, where none was, or where no line has a server lose its disk (`specs/Audits.antt` of `headline`). Of `big`,
///   which writes no text, it is said of the text that `run` would write.
/// - `bounds`: where the script has only the lines `bput`, `bget` and `sync`, each item was answered, once, within 128
///   deliveries and one tick of each node, in the order of the lines (`specs/Bounds.antt`). Of `boards` nothing is said.
/// - `one_machine`: of such a script the text is what one machine with one table of blocks answers that makes the call of each line
///   before it looks at the next (`specs/Machine.antt` of `one_machine`). And so it is, by `boards` too, where each item is a call
///   of a client, on blocks or on files, whatever the network does and whichever boards and servers stop: if none was open as
///   another began, nor at the end, and no answer is `busy`, `down`, `up`, `cut` or `lost`; where all items are of one client, the
///   text tells all of that (`specs/OneMachine.antt`).
/// - `disks`: by `disks` the run is the one that its script determines with servers that stop, and so is all that the disk of
///   each server did, and its bytes: `open` of it, without fault, gives what the script says is kept on it, with the shelf of
///   that server in the world in which the run ends. By other words there are none.
pub fn solo<S: Source, K: Sink>(
    alloc: Global,
    words: &[String],
    source: &mut S,
    sink: &mut K,
) -> Outcome<AnyNode>
    requires { is_live (command_of (map string_bytes words.now)) ≡ false }
    ensures claim { Claim any_step any_start (command_of (map string_bytes words.now)) (reading S.left S.faults source.old source.new)
        (writing K.written K.faults sink.old sink.new) result }
    ensures untouched { reads (command_of (map string_bytes words.now)) ≡ false → source.new ≡ source.old }
    ensures headline { IfSome result.estate (HeadlineOf (command_of (map string_bytes words.now))) }
    ensures audited { IfSome result.estate IsAuditedLegal }
    ensures bounds { IfSome result.estate (BoundsOf (command_of (map string_bytes words.now))) }
    ensures one_machine { IfSome result.estate (OneMachineOf (command_of (map string_bytes words.now))) }
    ensures disks { DisksOf any_step any_start any_shelf (command_of (map string_bytes words.now)) result.estate result.disks }
    ensures no_replies { NoReplies result.calls result.replies }
{
    every_run_is_safe();
    accepted_scripts_are_orderly();
    all_quiet_scripts_are_answered();
    unstopped_scripts_are_played::<AnyNode>();
    runs_are_audited_legal();
    items_that_begin_alone_are_answered_in_line();
    items_of_one_client_begin_alone();
    let outcome = answer(alloc, words, source, sink);
    prove_in_range(&outcome);
    outcome
}

/// The program, for all words. What `live W` does, W workers do, in threads of the runtime, which the gate watches; by
/// `mount W` each client's items are called from a thread of its own besides. If the call returns, the run is one run of the
/// nodes, and it promises what `solo` does; that it returns is not claimed. All other words `solo` answers.
///
/// - `bounds`: of the answers of a quiet script, as `solo` says it; of `live W` and `mount W` nothing is said.
/// - `one_machine`: that the text is the one machine's, as `solo` says it; of `live W` and `mount W` nothing is said but what
///   `headline` says of each run.
/// - `mounts`: by `mount W` for each client what its application called are its items, in their order, each once, and what
///   that was replied is what the client answered to them in the run, in that order, each once. By other words there are
///   neither.
/// - `replies`: so what an application was replied are the acts of the run that answer its client's items.
pub fn xfs<R: Threads + Wait + Sync, S: Source, K: Sink, G: Gate>(
    rt: &R,
    alloc: Global,
    words: &[String],
    source: &mut S,
    sink: &mut K,
    gate: &G,
) -> Outcome<AnyNode>
    ensures claim { Claim any_step any_start (command_of (map string_bytes words.now)) (reading S.left S.faults source.old source.new)
        (writing K.written K.faults sink.old sink.new) result }
    ensures untouched { reads (command_of (map string_bytes words.now)) ≡ false → source.new ≡ source.old }
    ensures headline { IfSome result.estate (HeadlineOf (command_of (map string_bytes words.now))) }
    ensures audited { IfSome result.estate IsAuditedLegal }
    ensures bounds { IfSome result.estate (BoundsOf (command_of (map string_bytes words.now))) }
    ensures one_machine { IfSome result.estate (OneMachineOf (command_of (map string_bytes words.now))) }
    ensures disks { DisksOf any_step any_start any_shelf (command_of (map string_bytes words.now)) result.estate result.disks }
    ensures mounts { MountsOf any_step any_start (command_of (map string_bytes words.now)) result.estate result.calls result.replies }
    ensures replies { IfSome result.estate (λ e. IfSome result.replies (AreAnswers e)) }
{
    every_run_is_safe();
    accepted_scripts_are_orderly();
    all_quiet_scripts_are_answered();
    unstopped_scripts_are_played::<AnyNode>();
    runs_are_audited_legal();
    items_that_begin_alone_are_answered_in_line();
    items_of_one_client_begin_alone();
    match threads_asked(words) {
        Some(command) => {
            let outcome = answer_threads(rt, alloc, command, source, sink, gate);
            prove_in_range(&outcome);
            outcome
        }
        None => solo(alloc, words, source, sink),
    }
}

/// The status with which the process ends. The memory of the run is given back by that end: to let go of each event and
/// each packet before would take a good part of the time of the run.
pub fn ended(outcome: Outcome<AnyNode>) -> u8
    ensures { result ≡ outcome.status }
{
    let status = outcome.status;
    mem::forget(outcome);
    status
}
