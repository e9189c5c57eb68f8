//! What the program does for all words but those that start threads, over nodes of any kind.
ghost use Rattle.std.specs.Prelude.{◌≡◌, ◌≤◌, false, None, Some, IfOk, IfSome, map, string_bytes};
ghost use Rattle.play.specs.Plays.{estate_of};
ghost use Rattle.script_print.specs.Printing.{IsScript, printed};
ghost use Rattle.transcript.specs.Counts.{brief_of};
ghost use Rattle.transcript.specs.Text.{text_of};
ghost use Rattle.top_call.specs.declared.command.Command.TheVariants as commands;
ghost use Rattle.top_call.specs.Claim.{writing, reading, line, run_answer, run_status, verdict_status, Tells, TellsOrGivesUp, run_wanted, brief_wanted, script_of, IsPlayed, AnswersOrGivesUp, Claim};
ghost use Rattle.top_call.specs.Commands.{command_of, is_live, reads, HasFewTurns};
ghost use Rattle.top_call.specs.Disks.{DisksOf};
ghost use Rattle.top_call.specs.Mounts.{NoReplies};
ghost use Rattle.top_call.specs.Spoken.{refused_text, verdict_text};
ghost use Rattle.top_call.specs.Told.{IsPlain};

use crate::command::{Command, Drawn, read_words};
use crate::one_script::{Way, answer_script};
use crate::output::write_output;
use crate::outside::{Sink, Source};
use crate::whole_input::{InputError, read_input};
use crate::{Outcome, spoken};
use audit::audit;
use play::play;
use script_print::{generate, print};
use script_text::{Kind, Script, ScriptError};
use shelved_nodes::Shelved;
use std::alloc::Global;
use transcript::{brief, open_items, text};
use version_model::Verdict;
use world_base::{Estate, Member};
use xfs_base::{Mem, Text};

/// An outcome without a run.
pub(crate) fn ended<N>(status: u8) -> Outcome<N>
    ensures { result ≡ record { status = status; estate = None; boards = None; disks = None; calls = None; replies = None } }
{
    Outcome {
        status,
        estate: None,
        boards: None,
        disks: None,
        calls: None,
        replies: None,
    }
}

/// Writes a text and ends with this status, or with 5 where the sink fails.
fn tell<N, K: Sink>(sink: &mut K, text: &[u8], status: u8) -> Outcome<N>
    ensures told { Tells (writing K.written K.faults sink.old sink.new) result (line text.now status) }
    ensures no_run { result.estate ≡ None }
    ensures plain { IsPlain result }
    ensures later { K.faults sink.old ≤ K.faults sink.new }
{
    match write_output(sink, text) {
        Ok(()) => ended(status),
        Err(_) => ended(5),
    }
}

/// Writes the line that names the first bad line.
pub(crate) fn refuse<N, K: Sink>(alloc: Global, number: u32, kind: Kind, sink: &mut K) -> Outcome<N>
    ensures told { TellsOrGivesUp (writing K.written K.faults sink.old sink.new) result (line (refused_text number kind) 3) }
    ensures no_run { result.estate ≡ None }
    ensures plain { IsPlain result }
    ensures later { K.faults sink.old ≤ K.faults sink.new }
{
    match spoken::refused(alloc, number, kind) {
        Ok(line) => tell(sink, line.as_bytes(), 3),
        Err(_) => ended(7),
    }
}

/// The status of a run of which all was written.
fn status_of<N>(estate: &Estate<N>) -> u8
    ensures { result ≡ run_status estate.now }
{
    if open_items(estate) == 0 { 0 } else { 1 }
}

/// Writes the text of an estate.
fn hand_out<N, K: Sink>(estate: Estate<N>, text: &Text, sink: &mut K) -> Outcome<N>
    ensures told { Tells (writing K.written K.faults sink.old sink.new) result (run_answer text.now estate) }
    ensures estate { result.estate ≡ Some estate }
    ensures plain { IsPlain result }
    ensures later { K.faults sink.old ≤ K.faults sink.new }
{
    let status = match write_output(sink, text.as_bytes()) {
        Ok(()) => status_of(&estate),
        Err(_) => 5,
    };
    Outcome {
        status,
        estate: Some(estate),
        boards: None,
        disks: None,
        calls: None,
        replies: None,
    }
}

/// Plays a script.
fn played<N: Member>(alloc: Global, script: &Script) -> Mem<Estate<N>>
    requires { IsScript script.now }
    ensures exact { IfOk result (λ estate. estate ≡ estate_of N.transition N.first script.now) }
    ensures run { IfOk result (λ estate. IsPlayed N.transition N.first estate) }
{
    let estate = play::<N>(alloc, script)?;
    Ok(estate)
}

/// Writes the text of an estate.
pub(crate) fn write_run<N: Drop, K: Sink>(
    alloc: Global,
    estate: Estate<N>,
    sink: &mut K,
) -> Outcome<N>
    ensures told { TellsOrGivesUp (writing K.written K.faults sink.old sink.new) result (run_answer (text_of estate) estate) }
    ensures estate { IfSome result.estate (λ left. left ≡ estate) }
    ensures plain { IsPlain result }
    ensures later { K.faults sink.old ≤ K.faults sink.new }
{
    match text(alloc, &estate) {
        Ok(text) => hand_out(estate, &text, sink),
        Err(_) => ended(7),
    }
}

/// Writes the counts of an estate.
fn write_brief<N: Drop, K: Sink>(alloc: Global, estate: Estate<N>, sink: &mut K) -> Outcome<N>
    ensures told { TellsOrGivesUp (writing K.written K.faults sink.old sink.new) result (run_answer (brief_of estate) estate) }
    ensures estate { IfSome result.estate (λ left. left ≡ estate) }
    ensures plain { IsPlain result }
    ensures later { K.faults sink.old ≤ K.faults sink.new }
{
    match brief(alloc, &estate) {
        Ok(text) => hand_out(estate, &text, sink),
        Err(_) => ended(7),
    }
}

/// Plays a script, and writes the text of what it leaves.
pub(crate) fn play_script<N: Member, K: Sink>(
    alloc: Global,
    script: &Script,
    sink: &mut K,
) -> Outcome<N>
    requires { IsScript script.now }
    ensures told { TellsOrGivesUp (writing K.written K.faults sink.old sink.new) result (run_wanted N.transition N.first script.now) }
    ensures one_run { IfSome result.estate (λ e. IsPlayed N.transition N.first e) }
    ensures plain { IsPlain result }
    ensures later { K.faults sink.old ≤ K.faults sink.new }
{
    match played::<N>(alloc, script) {
        Ok(estate) => write_run(alloc, estate, sink),
        Err(_) => ended(7),
    }
}

/// Plays a script, and writes the counts of what it leaves.
fn count_script<N: Member, K: Sink>(alloc: Global, script: &Script, sink: &mut K) -> Outcome<N>
    requires { IsScript script.now }
    ensures told { TellsOrGivesUp (writing K.written K.faults sink.old sink.new) result (brief_wanted N.transition N.first script.now) }
    ensures one_run { IfSome result.estate (λ e. IsPlayed N.transition N.first e) }
    ensures plain { IsPlain result }
    ensures later { K.faults sink.old ≤ K.faults sink.new }
{
    match played::<N>(alloc, script) {
        Ok(estate) => write_brief(alloc, estate, sink),
        Err(_) => ended(7),
    }
}

/// Plays a generated script, and writes the counts of what it leaves.
fn play_drawn<N: Member, K: Sink>(alloc: Global, drawn: Drawn, sink: &mut K) -> Outcome<N>
    requires { drawn.turns ≤ 2000 }
    ensures told { TellsOrGivesUp (writing K.written K.faults sink.old sink.new) result (brief_wanted N.transition N.first (script_of drawn)) }
    ensures one_run { IfSome result.estate (λ e. IsPlayed N.transition N.first e) }
    ensures plain { IsPlain result }
    ensures later { K.faults sink.old ≤ K.faults sink.new }
{
    match generate(alloc, drawn.number, drawn.turns) {
        Ok(script) => count_script(alloc, &script, sink),
        Err(_) => ended(7),
    }
}

/// Writes the text of a script.
fn write_script<N, K: Sink>(alloc: Global, script: &Script, sink: &mut K) -> Outcome<N>
    ensures told { TellsOrGivesUp (writing K.written K.faults sink.old sink.new) result (line (printed script.now) 0) }
    ensures no_run { result.estate ≡ None }
    ensures plain { IsPlain result }
    ensures later { K.faults sink.old ≤ K.faults sink.new }
{
    match print(alloc, script) {
        Ok(text) => tell(sink, text.as_bytes(), 0),
        Err(_) => ended(7),
    }
}

/// Writes a generated script.
fn print_drawn<N, K: Sink>(alloc: Global, drawn: Drawn, sink: &mut K) -> Outcome<N>
    requires { drawn.turns ≤ 2000 }
    ensures told { TellsOrGivesUp (writing K.written K.faults sink.old sink.new) result (line (printed (script_of drawn)) 0) }
    ensures no_run { result.estate ≡ None }
    ensures plain { IsPlain result }
    ensures later { K.faults sink.old ≤ K.faults sink.new }
{
    match generate(alloc, drawn.number, drawn.turns) {
        Ok(script) => write_script(alloc, &script, sink),
        Err(_) => ended(7),
    }
}

/// The status of a journal's verdict.
fn status_of_verdict(verdict: Verdict) -> u8
    ensures { result ≡ verdict_status verdict }
{
    match verdict {
        Verdict::Legal(_) => 0,
        Verdict::Illegal(_) => 1,
    }
}

/// Writes the verdict on a journal.
fn say<N, K: Sink>(alloc: Global, verdict: Verdict, sink: &mut K) -> Outcome<N>
    ensures told { TellsOrGivesUp (writing K.written K.faults sink.old sink.new) result (line (verdict_text verdict) (verdict_status verdict)) }
    ensures no_run { result.estate ≡ None }
    ensures plain { IsPlain result }
    ensures later { K.faults sink.old ≤ K.faults sink.new }
{
    match spoken::verdict(alloc, verdict) {
        Ok(line) => tell(sink, line.as_bytes(), status_of_verdict(verdict)),
        Err(_) => ended(7),
    }
}

/// Judges the journal of an input.
fn audit_input<N: Member, K: Sink>(alloc: Global, input: &[u8], sink: &mut K) -> Outcome<N>
    ensures told { AnswersOrGivesUp N.transition N.first (Some commands.Audit) input.now (writing K.written K.faults sink.old sink.new) result }
    ensures one_run { IfSome result.estate (λ e. IsPlayed N.transition N.first e) }
    ensures plain { IsPlain result }
    ensures later { K.faults sink.old ≤ K.faults sink.new }
{
    match audit(alloc, input) {
        Ok(verdict) => say(alloc, verdict, sink),
        Err(ScriptError::Bad(number, kind)) => refuse(alloc, number, kind, sink),
        Err(ScriptError::Memory) => ended(7),
    }
}

/// Reads an input, and judges the journal that it is.
fn answer_audit<N: Member, S: Source, K: Sink>(
    alloc: Global,
    source: &mut S,
    sink: &mut K,
) -> Outcome<N>
    ensures claim { Claim N.transition N.first (Some commands.Audit) (reading S.left S.faults source.old source.new)
        (writing K.written K.faults sink.old sink.new) result }
    ensures plain { IsPlain result }
{
    match read_input(alloc, source) {
        Ok(input) => audit_input::<N, K>(alloc, input.as_bytes(), sink),
        Err(InputError::Failed) => ended(4),
        Err(InputError::Memory) => ended(7),
    }
}

/// Carries out a command.
fn carry_out<N: Shelved, S: Source, K: Sink>(
    alloc: Global,
    command: Command,
    source: &mut S,
    sink: &mut K,
) -> Outcome<N>
    requires few { HasFewTurns (Some command) }
    requires alone { is_live (Some command) ≡ false }
    ensures claim { Claim N.transition N.first (Some command) (reading S.left S.faults source.old source.new)
        (writing K.written K.faults sink.old sink.new) result }
    ensures disks { DisksOf N.transition N.first N.shelf_of (Some command) result.estate result.disks }
    ensures no_replies { NoReplies result.calls result.replies }
    ensures untouched { reads (Some command) ≡ false → source.new ≡ source.old }
{
    match command {
        Command::Gen(drawn) => print_drawn(alloc, drawn, sink),
        Command::Big(drawn) => play_drawn(alloc, drawn, sink),
        Command::Run => answer_script(alloc, Way::Plainly, source, sink),
        Command::Audit => answer_audit(alloc, source, sink),
        Command::Boards => answer_script(alloc, Way::WithBoards, source, sink),
        Command::Disks => answer_script(alloc, Way::WithDisks, source, sink),
        Command::Live(_) => unreachable!(),
        Command::Mount(_) => unreachable!(),
    }
}

/// What the program answers to all words but those that start threads, over nodes of any kind.
/// `docs/LANGUAGE.md` lists the statuses, and `docs/PROMISES.md` says what the claim promises, and what the disks.
pub fn answer<N: Shelved, S: Source, K: Sink>(
    alloc: Global,
    words: &[String],
    source: &mut S,
    sink: &mut K,
) -> Outcome<N>
    requires { is_live (command_of (map string_bytes words.now)) ≡ false }
    ensures claim { Claim N.transition N.first (command_of (map string_bytes words.now)) (reading S.left S.faults source.old source.new)
        (writing K.written K.faults sink.old sink.new) result }
    ensures disks { DisksOf N.transition N.first N.shelf_of (command_of (map string_bytes words.now)) result.estate result.disks }
    ensures no_replies { NoReplies result.calls result.replies }
    ensures untouched { reads (command_of (map string_bytes words.now)) ≡ false → source.new ≡ source.old }
{
    match read_words(words) {
        None => tell(sink, spoken::usage(), 2),
        Some(command) => carry_out(alloc, command, source, sink),
    }
}
