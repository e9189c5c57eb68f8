//! What the program does for the words `live W`, over nodes of any kind.
ghost use Rattle.std.specs.Prelude.{◌≡◌, ◌≤◌, ◌||◌, nat_lt, None, Some, IfOk, IfSome};
ghost use Rattle.script_print.specs.Printing.{IsScript};
ghost use Rattle.top_call.specs.declared.command.Command.TheVariants as commands;
ghost use Rattle.top_call.specs.Claim.{writing, reading, IsLiveRun, TellsLive, Claim};
ghost use Rattle.top_call.specs.Mounts.{NoReplies};
ghost use Rattle.top_call.specs.Told.{IsPlain};

use crate::Outcome;
use crate::one_thread::{ended, write_run};
use crate::outside::{Sink, Source};
use crate::unread::{end_unread, read_script};
use live_run::live;
use script_text::Script;
use std::alloc::{AllocError, Global};
use std::sync::Wait;
use std::thread::Threads;
use transcript::open_items;
use world_base::{Estate, Member};
use xfs_base::{Gate, Mem};

/// Whether a run is full, or some item of it is open.
pub(crate) fn agrees(full: bool, left: u64) -> bool
    ensures { result ≡ (full || nat_lt 0 left) }
{
    full || left > 0
}

/// Runs a script by workers. A run that was given up with no item open is answered like want of memory: no type excludes
/// it.
fn lived<N: Member + Send, R: Threads + Wait + Sync, G: Gate>(
    rt: &R,
    alloc: Global,
    script: &Script,
    workers: u8,
    gate: &G,
) -> Mem<Estate<N>>
    requires { IsScript script.now }
    ensures script { IfOk result (λ estate. estate.script ≡ script.now) }
    ensures run { IfOk result (λ estate. IsLiveRun N.transition N.first estate) }
{
    let (estate, full) = live::<N, R, G>(rt, alloc, script, workers, gate)?;
    if !agrees(full, open_items(&estate)) {
        return Err(AllocError);
    }
    Ok(estate)
}

/// Runs a script by workers, and writes the text of what they leave.
fn run_script<N: Member + Send, R: Threads + Wait + Sync, K: Sink, G: Gate>(
    rt: &R,
    alloc: Global,
    script: &Script,
    workers: u8,
    sink: &mut K,
    gate: &G,
) -> Outcome<N>
    requires { IsScript script.now }
    ensures told { TellsLive N.transition N.first script.now (writing K.written K.faults sink.old sink.new) result }
    ensures one_run { IfSome result.estate (λ e. IsLiveRun N.transition N.first e) }
    ensures plain { IsPlain result }
    ensures later { K.faults sink.old ≤ K.faults sink.new }
{
    match lived::<N, R, G>(rt, alloc, script, workers, gate) {
        Ok(estate) => write_run(alloc, estate, sink),
        Err(_) => ended(7),
    }
}

/// What the program answers to `live W`, over nodes of any kind: reads an input, and runs the script that it is by so many
/// workers. If the call returns, it answers as the claim says, and hands out no disks; that it returns is not claimed.
pub fn answer_live<N: Member + Send, R: Threads + Wait + Sync, S: Source, K: Sink, G: Gate>(
    rt: &R,
    alloc: Global,
    workers: u8,
    source: &mut S,
    sink: &mut K,
    gate: &G,
) -> Outcome<N>
    ensures claim { Claim N.transition N.first (Some (commands.Live workers)) (reading S.left S.faults source.old source.new)
        (writing K.written K.faults sink.old sink.new) result }
    ensures no_disks { result.disks ≡ None }
    ensures no_replies { NoReplies result.calls result.replies }
{
    match read_script(alloc, true, source) {
        Ok(script) => run_script(rt, alloc, &script, workers, sink, gate),
        Err(why) => end_unread(alloc, why, sink),
    }
}
