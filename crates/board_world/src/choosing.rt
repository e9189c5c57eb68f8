//! Lists of chosen commands.
ghost use Rattle.std.specs.Prelude.{◌≡◌, ◌++◌, drop, OnOk};

use board::Command;
use std::alloc::Global;
use xfs_base::{List, Mem};

/// The commands of a list after so many.
pub(crate) fn beyond(list: &[Command], count: usize) -> &[Command]
    ensures { result.now ≡ drop count list.now }
{
    if list.len() <= count {
        return &[];
    }
    &list[count..]
}

/// These commands become chosen, after all that are.
pub(crate) fn choose(alloc: Global, chosen: &mut List<Command>, more: &[Command]) -> Mem<()>
    ensures { OnOk result (chosen.new ≡ chosen.old ++ more.now) }
{
    for command in more {
        chosen.push(command.copy(alloc)?)?;
    }
    Ok(())
}
