//! Drawing a script from a number.
ghost use Rattle.std.specs.Prelude.{◌≡◌, ◌≤◌, ◌<◌, ◌+◌, ◌%◌, ◌∷◌, ◌++◌, [], length, Some, false, IfOk, OnOk};
ghost use Rattle.std.specs.Fmt.{decimal};
ghost use Rattle.script_text.specs.Script.{IsScriptOf};
ghost use Rattle.script_print.specs.Printing.{printed};
ghost use Rattle.script_print.specs.Generator.{client_of, manager_of, server_of, block_of};
ghost use Rattle.script_print.specs.Generator.{fall_of, rare_works, turn_works, works_from, numbered, generated, generated_setup};

use crate::draws::{Draws, draws_from};
use script_text::{Line, Script};
use std::alloc::{AllocError, Global};
use version_model::Work;
use xfs_base::{BlockId, GroupSetup, Ino, List, Mem, NodeId, Setup, Value};

/// A group of these servers with one parity fragment.
fn group(alloc: Global, servers: &[u8]) -> Mem<GroupSetup>
    ensures { IfOk result (λ group. group ≡ record { servers = servers.now; parity = 1 }) }
{
    Ok(GroupSetup {
        servers: List::from_vec(Vec::from_slice(alloc, servers)?),
        parity: 1,
    })
}

/// The setup of every script that is drawn.
fn generated_setup(alloc: Global) -> Mem<Setup>
    ensures { IfOk result (λ setup. setup ≡ generated_setup) }
{
    let mut groups = List::new(alloc);
    groups.push(group(alloc, &[1, 2, 3])?)?;
    groups.push(group(alloc, &[4, 5, 6])?)?;
    Ok(Setup {
        clients: 4,
        managers: 2,
        servers: 6,
        groups,
        cache: 8,
        acts: false,
    })
}

fn client_of(draws: Draws) -> u8
    ensures { result ≡ client_of draws }
{
    (draws.node % 4 + 1) as u8
}

fn manager_of(draws: Draws) -> u8
    ensures { result ≡ manager_of draws }
{
    (draws.node % 2 + 1) as u8
}

fn server_of(draws: Draws) -> u8
    ensures { result ≡ server_of draws }
{
    (draws.block % 6 + 1) as u8
}

fn block_of(draws: Draws) -> BlockId
    ensures { result ≡ block_of draws }
{
    BlockId {
        ino: Ino(128 * (1 + draws.file % 8) + draws.slot % 8),
        blk: draws.block % 16,
    }
}

/// The value that the turn of this number writes: its digits.
fn value_of(alloc: Global, turn: u32) -> Mem<Value>
    ensures { IfOk result (λ value. value ≡ Some (decimal turn)) }
{
    let text = turn.to_string(alloc)?;
    match Value::of(alloc, text.as_str().as_bytes()) {
        Ok(value) => Ok(value),
        Err(_) => Err(AllocError),
    }
}

/// Appends an item on the next line.
fn add_item(lines: &mut List<Line>, work: Work) -> Mem<()>
    requires { length lines.old ≤ 4000 }
    ensures { OnOk result (lines.new ≡ lines.old ++ numbered (8 + length lines.old) (work ∷ [])) }
{
    lines.push(Line {
        number: 8 + lines.len() as u32,
        after: 0,
        work,
    })
}

/// Appends two items on the next two lines.
fn add_two(lines: &mut List<Line>, work: Work, next: Work) -> Mem<()>
    requires { length lines.old < 4000 }
    ensures { OnOk result (lines.new ≡ lines.old ++ numbered (8 + length lines.old) (work ∷ next ∷ [])) }
{
    add_item(lines, work)?;
    add_item(lines, next)?;
    Ok(())
}

/// Appends a checkpoint, a round of the cleaner, or a loss that is filled again.
fn add_rare(lines: &mut List<Line>, draws: Draws) -> Mem<()>
    requires { length lines.old < 4000 }
    ensures { OnOk result (lines.new ≡ lines.old ++ numbered (8 + length lines.old) (rare_works draws)) }
{
    let which = draws.file % 3;
    if which == 0 {
        add_item(
            lines,
            Work::Checkpoint {
                manager: manager_of(draws),
            },
        )
    } else if which == 1 {
        add_item(lines, Work::Clean { count: 2 })
    } else {
        let server = server_of(draws);
        add_two(lines, Work::Lose { server }, Work::Rebuild { server })
    }
}

/// Appends a crash and a restart.
fn add_fall(lines: &mut List<Line>, node: NodeId) -> Mem<()>
    requires { length lines.old < 4000 }
    ensures { OnOk result (lines.new ≡ lines.old ++ numbered (8 + length lines.old) (fall_of node)) }
{
    add_two(lines, Work::Crash { node }, Work::Restart { node })
}

/// Appends what the turn of this number makes of its draws.
fn add_turn(alloc: Global, lines: &mut List<Line>, turn: u32, draws: Draws) -> Mem<()>
    requires { length lines.old < 4000 }
    ensures { OnOk result (lines.new ≡ lines.old ++ numbered (8 + length lines.old) (turn_works turn draws)) }
{
    let client = client_of(draws);
    let block = block_of(draws);
    let kind = draws.kind % 16;
    if kind < 6 {
        let value = value_of(alloc, turn)?;
        add_item(
            lines,
            Work::Bput {
                client,
                block,
                value,
            },
        )
    } else if kind < 12 {
        add_item(lines, Work::Bget { client, block })
    } else if kind == 12 {
        add_item(lines, Work::Sync { client })
    } else if kind == 13 {
        add_fall(lines, NodeId::Client(client))
    } else if kind == 14 {
        add_fall(lines, NodeId::Manager(manager_of(draws)))
    } else {
        add_rare(lines, draws)
    }
}

/// The items of so many turns that draw from this number.
fn generated_lines(alloc: Global, number: u32, turns: u32) -> Mem<List<Line>>
    requires { turns ≤ 2000 }
    ensures { IfOk result (λ lines. lines ≡ numbered 8 (works_from turns 1 (number % 2147483648))) }
{
    let mut lines = List::new(alloc);
    let mut left = number % 2_147_483_648;
    for turn in 0..turns {
        let draws = draws_from(left);
        add_turn(alloc, &mut lines, turn + 1, draws)?;
        left = draws.left;
    }
    Ok(lines)
}

/// The script of so many turns.
fn script_of(alloc: Global, number: u32, turns: u32) -> Mem<Script>
    requires { turns ≤ 2000 }
    ensures { IfOk result (λ script. script ≡ generated number turns) }
{
    Ok(Script {
        setup: generated_setup(alloc)?,
        lines: generated_lines(alloc, number, turns)?,
    })
}

/// The script of `n` turns, at most 2,000, that a number draws. Its text spells that very script.
pub fn generate(alloc: Global, number: u32, n: u32) -> Mem<Script>
    requires { n ≤ 2000 }
    ensures exact { IfOk result (λ script. script ≡ generated number n) }
    ensures again { IfOk result (λ script. IsScriptOf false (printed script) script) }
{
    script_of(alloc, number, n)
}
