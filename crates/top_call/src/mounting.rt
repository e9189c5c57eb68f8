//! What the program does for the words `mount W`, and for all words that start threads, over nodes of any kind.
ghost use Rattle.std.specs.Prelude.{◌≡◌, ◌≤◌, true, None, Some, IfOk, IfSome};
ghost use Rattle.mounts.specs.Mounted.{IsMounted};
ghost use Rattle.script_print.specs.Printing.{IsScript};
ghost use Rattle.transcript.specs.Text.{text_of};
ghost use Rattle.top_call.specs.declared.command.Command.TheVariants as commands;
ghost use Rattle.top_call.specs.Claim.{writing, reading, run_answer, IsLiveRun, is_full, TellsLive, TellsOrGivesUp, Claim};
ghost use Rattle.top_call.specs.Commands.{is_live};
ghost use Rattle.top_call.specs.Mounts.{MountsIn, MountsOf};
ghost use Rattle.top_call.specs.Told.{lists_where};

use crate::Outcome;
use crate::command::Command;
use crate::many_threads::{agrees, answer_live};
use crate::one_thread::{ended, write_run};
use crate::outside::{Sink, Source};
use crate::unread::{end_unread, read_script};
use mounts::Mounted;
use script_text::Script;
use std::alloc::{AllocError, Global};
use std::sync::Wait;
use std::thread::Threads;
use transcript::open_items;
use world_base::Member;
use xfs_base::{Gate, Mem};

/// Runs a script by workers and applications. A run that was given up with no item open is answered like want of memory:
/// no type excludes it.
fn mounted_run<N: Member + Send, R: Threads + Wait + Sync, G: Gate>(
    rt: &R,
    alloc: Global,
    script: &Script,
    workers: u8,
    gate: &G,
) -> Mem<Mounted<N>>
    requires { IsScript script.now }
    ensures script { IfOk result (λ run. run.estate.script ≡ script.now) }
    ensures run { IfOk result (λ run. IsLiveRun N.transition N.first run.estate) }
    ensures mounted { IfOk result (λ run. IsMounted N.transition N.first (is_full run.estate) run.estate run.calls run.replies) }
{
    let made = mounts::mounted::<N, R, G>(rt, alloc, script, workers, gate)?;
    if !agrees(made.full, open_items(&made.estate)) {
        return Err(AllocError);
    }
    Ok(made)
}

/// Writes the text of a run with applications.
fn write_mounted<N: Drop, K: Sink>(alloc: Global, run: Mounted<N>, sink: &mut K) -> Outcome<N>
    ensures told { TellsOrGivesUp (writing K.written K.faults sink.old sink.new) result (run_answer (text_of run.estate) run.estate) }
    ensures estate { IfSome result.estate (λ left. left ≡ run.estate) }
    ensures calls { result.calls ≡ lists_where result.estate run.calls }
    ensures replies { result.replies ≡ lists_where result.estate run.replies }
    ensures no_boards { result.boards ≡ None }
    ensures no_disks { result.disks ≡ None }
    ensures later { K.faults sink.old ≤ K.faults sink.new }
{
    let (estate, calls, replies) = run.into_parts();
    let outcome = write_run(alloc, estate, sink);
    outcome.with_replies(calls, replies)
}

/// Runs a script by workers and applications, and writes the text of what they leave.
fn run_script<N: Member + Send, R: Threads + Wait + Sync, K: Sink, G: Gate>(
    rt: &R,
    alloc: Global,
    script: &Script,
    workers: u8,
    sink: &mut K,
    gate: &G,
) -> Outcome<N>
    requires { IsScript script.now }
    ensures told { TellsLive N.transition N.first script.now (writing K.written K.faults sink.old sink.new) result }
    ensures one_run { IfSome result.estate (λ e. IsLiveRun N.transition N.first e) }
    ensures mounts { MountsIn N.transition N.first result.estate result.calls result.replies }
    ensures no_boards { result.boards ≡ None }
    ensures no_disks { result.disks ≡ None }
    ensures later { K.faults sink.old ≤ K.faults sink.new }
{
    match mounted_run::<N, R, G>(rt, alloc, script, workers, gate) {
        Ok(made) => write_mounted(alloc, made, sink),
        Err(_) => ended(7),
    }
}

/// What the program answers to `mount W`, over nodes of any kind: reads an input, and runs the script that it is by so many
/// workers, with an application for each client. If the call returns, it answers as the claim says, hands out no disks, and
/// tells what each application called and was replied; that it returns is not claimed.
pub fn answer_mount<N: Member + Send, R: Threads + Wait + Sync, S: Source, K: Sink, G: Gate>(
    rt: &R,
    alloc: Global,
    workers: u8,
    source: &mut S,
    sink: &mut K,
    gate: &G,
) -> Outcome<N>
    ensures claim { Claim N.transition N.first (Some (commands.Mount workers)) (reading S.left S.faults source.old source.new)
        (writing K.written K.faults sink.old sink.new) result }
    ensures mounts { MountsIn N.transition N.first result.estate result.calls result.replies }
    ensures no_disks { result.disks ≡ None }
{
    match read_script(alloc, true, source) {
        Ok(script) => run_script(rt, alloc, &script, workers, sink, gate),
        Err(why) => end_unread(alloc, why, sink),
    }
}

/// What the program answers to words that start threads. If the call returns, it answers as the claim says, hands out no
/// disks, and tells what applications called and were replied, where there are any; that it returns is not claimed.
pub fn answer_threads<N: Member + Send, R: Threads + Wait + Sync, S: Source, K: Sink, G: Gate>(
    rt: &R,
    alloc: Global,
    command: Command,
    source: &mut S,
    sink: &mut K,
    gate: &G,
) -> Outcome<N>
    requires { is_live (Some command) ≡ true }
    ensures claim { Claim N.transition N.first (Some command) (reading S.left S.faults source.old source.new)
        (writing K.written K.faults sink.old sink.new) result }
    ensures mounts { MountsOf N.transition N.first (Some command) result.estate result.calls result.replies }
    ensures no_disks { result.disks ≡ None }
{
    match command {
        Command::Live(workers) => answer_live(rt, alloc, workers, source, sink, gate),
        Command::Mount(workers) => answer_mount(rt, alloc, workers, source, sink, gate),
        Command::Run => unreachable!(),
        Command::Gen(_) => unreachable!(),
        Command::Big(_) => unreachable!(),
        Command::Audit => unreachable!(),
        Command::Boards => unreachable!(),
        Command::Disks => unreachable!(),
    }
}
