//! Reading the works of all nodes but those of clients on blocks and files, and of the network.
ghost use Rattle.script_text.specs.declared.form.Form.TheVariants.{BoardStart, BoardStop, Checkpoint, Clean, ClientCrash, ClientRestart, Lose, ManagerCrash, ManagerRestart, Move, NetAgain, NetLose, NetMix, NetStep, Rebuild, ServerStart, ServerStop, Sync};
ghost use Rattle.script_text.specs.Words.{words};
ghost use Rattle.script_text.specs.Outcome.{Answers};
ghost use Rattle.script_text.specs.Reading.{read_work};

use crate::LineError;
use crate::operands::{board, client, manager, number_behind, operands, server};
use crate::part::{read_node, read_number};
use version_model::Work;
use xfs_base::limits::MAX_DELIVERIES;
use xfs_base::{NodeId, Setup};

/// Reads a line of `sync`.
pub fn sync(setup: &Setup, line: &[u8]) -> Result<Work, LineError>
    ensures { (room : _) → Answers result (read_work (record { setup = setup.now; room = room }) Sync (words line.now)) }
{
    let client = client(setup, line)?;
    Ok(Work::Sync { client })
}

/// Reads a line that crashes a client.
pub fn client_crash(setup: &Setup, line: &[u8]) -> Result<Work, LineError>
    ensures { (room : _) → Answers result (read_work (record { setup = setup.now; room = room }) ClientCrash (words line.now)) }
{
    let number = client(setup, line)?;
    let node = NodeId::Client(number);
    Ok(Work::Crash { node })
}

/// Reads a line that restarts a client.
pub fn client_restart(setup: &Setup, line: &[u8]) -> Result<Work, LineError>
    ensures { (room : _) → Answers result (read_work (record { setup = setup.now; room = room }) ClientRestart (words line.now)) }
{
    let number = client(setup, line)?;
    let node = NodeId::Client(number);
    Ok(Work::Restart { node })
}

/// Reads a line that crashes a manager.
pub fn manager_crash(setup: &Setup, line: &[u8]) -> Result<Work, LineError>
    ensures { (room : _) → Answers result (read_work (record { setup = setup.now; room = room }) ManagerCrash (words line.now)) }
{
    let number = manager(setup, line)?;
    let node = NodeId::Manager(number);
    Ok(Work::Crash { node })
}

/// Reads a line that restarts a manager.
pub fn manager_restart(setup: &Setup, line: &[u8]) -> Result<Work, LineError>
    ensures { (room : _) → Answers result (read_work (record { setup = setup.now; room = room }) ManagerRestart (words line.now)) }
{
    let number = manager(setup, line)?;
    let node = NodeId::Manager(number);
    Ok(Work::Restart { node })
}

/// Reads a line of `checkpoint`.
pub fn checkpoint(setup: &Setup, line: &[u8]) -> Result<Work, LineError>
    ensures { (room : _) → Answers result (read_work (record { setup = setup.now; room = room }) Checkpoint (words line.now)) }
{
    let manager = manager(setup, line)?;
    Ok(Work::Checkpoint { manager })
}

/// Reads a line of `lose`.
pub fn lose(setup: &Setup, line: &[u8]) -> Result<Work, LineError>
    ensures { (room : _) → Answers result (read_work (record { setup = setup.now; room = room }) Lose (words line.now)) }
{
    let server = server(setup, line)?;
    Ok(Work::Lose { server })
}

/// Reads a line of `rebuild`.
pub fn rebuild(setup: &Setup, line: &[u8]) -> Result<Work, LineError>
    ensures { (room : _) → Answers result (read_work (record { setup = setup.now; room = room }) Rebuild (words line.now)) }
{
    let server = server(setup, line)?;
    Ok(Work::Rebuild { server })
}

/// Reads a line of `reg move`.
pub fn reassign(setup: &Setup, line: &[u8]) -> Result<Work, LineError>
    ensures { (room : _) → Answers result (read_work (record { setup = setup.now; room = room }) Move (words line.now)) }
{
    let mut words = operands(line);
    let slot = read_number(0, 7, &mut words)?;
    let manager = read_node(b'm', setup.managers, &mut words)?;
    Ok(Work::Move {
        slot: slot as u8,
        manager,
    })
}

/// Reads a line that stops a storage server.
pub fn server_stop(setup: &Setup, line: &[u8]) -> Result<Work, LineError>
    ensures { (room : _) → Answers result (read_work (record { setup = setup.now; room = room }) ServerStop (words line.now)) }
{
    let server = server(setup, line)?;
    let passes = number_behind(0, 1000, line)?;
    Ok(Work::ServerStop { server, passes })
}

/// Reads a line that starts a storage server.
pub fn server_start(setup: &Setup, line: &[u8]) -> Result<Work, LineError>
    ensures { (room : _) → Answers result (read_work (record { setup = setup.now; room = room }) ServerStart (words line.now)) }
{
    let server = server(setup, line)?;
    Ok(Work::ServerStart(server))
}

/// Reads a line that stops a board.
pub fn board_stop(line: &[u8]) -> Result<Work, LineError>
    ensures { (c : _) → Answers result (read_work c BoardStop (words line.now)) }
{
    let number = board(line)?;
    Ok(Work::BoardStop(number))
}

/// Reads a line that starts a board.
pub fn board_start(line: &[u8]) -> Result<Work, LineError>
    ensures { (c : _) → Answers result (read_work c BoardStart (words line.now)) }
{
    let number = board(line)?;
    Ok(Work::BoardStart(number))
}

/// Reads a line of `cl clean`.
pub fn clean(line: &[u8]) -> Result<Work, LineError>
    ensures { (c : _) → Answers result (read_work c Clean (words line.now)) }
{
    let count = number_behind(1, 100, line)?;
    Ok(Work::Clean { count })
}

/// Reads a line of `net lose`.
pub fn net_lose(line: &[u8]) -> Result<Work, LineError>
    ensures { (c : _) → Answers result (read_work c NetLose (words line.now)) }
{
    let number = number_behind(0, MAX_DELIVERIES, line)?;
    Ok(Work::NetLose(number))
}

/// Reads a line of `net again`.
pub fn net_again(line: &[u8]) -> Result<Work, LineError>
    ensures { (c : _) → Answers result (read_work c NetAgain (words line.now)) }
{
    let number = number_behind(0, MAX_DELIVERIES, line)?;
    Ok(Work::NetAgain(number))
}

/// Reads a line of `net mix`.
pub fn net_mix(line: &[u8]) -> Result<Work, LineError>
    ensures { (c : _) → Answers result (read_work c NetMix (words line.now)) }
{
    let number = number_behind(0, 2_147_483_647, line)?;
    Ok(Work::NetMix(number))
}

/// Reads a line of `net step`.
pub fn net_step(line: &[u8]) -> Result<Work, LineError>
    ensures { (c : _) → Answers result (read_work c NetStep (words line.now)) }
{
    let number = number_behind(0, MAX_DELIVERIES, line)?;
    Ok(Work::NetStep(number))
}
