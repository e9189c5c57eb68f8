//! Which commands are in a list.
ghost use Rattle.std.specs.Prelude.{◌≡◌, IfOk, take, drop};
ghost use Rattle.board.specs.Waiting.{is_in, first_outside, without};

use crate::Command;
use std::alloc::Global;
use xfs_base::{List, Mem};

/// Whether a command is in a list.
pub(crate) fn is_in(command: &Command, list: &[Command]) -> bool
    ensures { result ≡ is_in command.now list.now }
{
    list.iter().any(|other| command.same(other))
}

/// The first of these commands that isn't in a list.
pub(crate) fn first_outside(
    alloc: Global,
    list: &[Command],
    commands: &[Command],
) -> Mem<Option<Command>>
    ensures { IfOk result (λ first. first ≡ first_outside list.now commands.now) }
{
    for command in commands {
        if !is_in(command, list) {
            return Ok(Some(command.copy(alloc)?));
        }
    }
    Ok(None)
}

/// Those of these commands that aren't in a list, in order.
pub(crate) fn without(alloc: Global, list: &[Command], commands: &[Command]) -> Mem<List<Command>>
    ensures { IfOk result (λ rest. rest ≡ without list.now commands.now) }
{
    let mut rest = List::new(alloc);
    for command in commands {
        if !is_in(command, list) {
            rest.push(command.copy(alloc)?)?;
        }
    }
    Ok(rest)
}

/// The first so many commands of a list, or all of it.
pub(crate) fn first_of(list: &[Command], count: u32) -> &[Command]
    ensures { result.now ≡ take count list.now }
{
    let count = count as usize;
    if list.len() <= count {
        return list;
    }
    &list[..count]
}

/// The commands of a list after so many.
pub(crate) fn rest_of(list: &[Command], count: u32) -> &[Command]
    ensures { result.now ≡ drop count list.now }
{
    let count = count as usize;
    if list.len() <= count {
        return &[];
    }
    &list[count..]
}
