//! Reading what a line of each form asks for.
ghost use Rattle.script_text.specs.Words.{words};
ghost use Rattle.script_text.specs.Outcome.{Answers};
ghost use Rattle.script_text.specs.Reading.{read_work};

use crate::client_work::{bget, bput, get, ls, mk, mkdir, mv, put, rm, size};
use crate::node_work::{
    board_start, board_stop, checkpoint, clean, client_crash, client_restart, lose, manager_crash,
    manager_restart, net_again, net_lose, net_mix, net_step, reassign, rebuild, server_start,
    server_stop, sync,
};
use crate::{Form, LineError};
use std::alloc::Global;
use version_model::Work;
use xfs_base::{NodeId, Setup};

/// What a line of this form asks for. Of several parts at fault the first counts.
pub fn work_of(
    alloc: Global,
    setup: &Setup,
    room: usize,
    form: Form,
    line: &[u8],
) -> Result<Work, LineError>
    ensures { Answers result (read_work (record { setup = setup.now; room = room }) form (words line.now)) }
{
    match form {
        Form::Bput => bput(alloc, setup, room, line),
        Form::Bget => bget(setup, line),
        Form::Sync => sync(setup, line),
        Form::Mk => mk(alloc, setup, line),
        Form::Mkdir => mkdir(alloc, setup, line),
        Form::Put => put(alloc, setup, room, line),
        Form::Get => get(alloc, setup, line),
        Form::Size => size(alloc, setup, line),
        Form::Ls => ls(alloc, setup, line),
        Form::Rm => rm(alloc, setup, line),
        Form::Mv => mv(alloc, setup, line),
        Form::Clean => clean(line),
        Form::ServerStop => server_stop(setup, line),
        Form::Move => reassign(setup, line),
        Form::ClientCrash => client_crash(setup, line),
        Form::ClientRestart => client_restart(setup, line),
        Form::CleanerCrash => Ok(Work::Crash {
            node: NodeId::Cleaner,
        }),
        Form::CleanerRestart => Ok(Work::Restart {
            node: NodeId::Cleaner,
        }),
        Form::ManagerCrash => manager_crash(setup, line),
        Form::ManagerRestart => manager_restart(setup, line),
        Form::Checkpoint => checkpoint(setup, line),
        Form::Lose => lose(setup, line),
        Form::Rebuild => rebuild(setup, line),
        Form::ServerStart => server_start(setup, line),
        Form::BoardStop => board_stop(line),
        Form::BoardStart => board_start(line),
        Form::NetLose => net_lose(line),
        Form::NetAgain => net_again(line),
        Form::NetMix => net_mix(line),
        Form::NetHold => Ok(Work::NetHold),
        Form::NetGo => Ok(Work::NetGo),
        Form::NetStep => net_step(line),
    }
}
