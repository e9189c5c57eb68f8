//! What the cleaner's log and its job have the node do.
ghost use Rattle.std.specs.Prelude.{◌≡◌, ◌++◌, OnOk};
ghost use Rattle.std.specs.List.{flat_map};
ghost use Rattle.cleaner_job.specs.Jobs.{act_dropped};
ghost use Rattle.log_owner.specs.Opening.{stored};

use log_owner::sending::send_store;
use node_base::Effects;
use version_model::Act;
use xfs_base::{List, Mem, SegName};

/// The fragments that the log writes are sent to be stored.
pub fn send_stores(effects: &mut Effects, outs: List<client_log::Out>) -> Mem<()>
    ensures { OnOk result (effects.new ≡ effects.old ++ flat_map stored outs) }
{
    for out in outs.into_vec() {
        send_stored(effects, out)?;
    }
    Ok(())
}

fn send_stored(effects: &mut Effects, out: client_log::Out) -> Mem<()>
    ensures { OnOk result (effects.new ≡ effects.old ++ stored out) }
{
    match out {
        client_log::Out::Send { fragment, member } => send_store(effects, fragment, member),
        client_log::Out::Settled { .. } => Ok(()),
    }
}

/// The segment in hand is dropped with the first word to delete it.
pub fn act_dropped(effects: &mut Effects, is_first: bool, name: SegName) -> Mem<()>
    ensures { OnOk result (effects.new ≡ effects.old ++ act_dropped is_first name) }
{
    if is_first {
        effects.act(Act::Dropped { seg: name })?;
    }
    Ok(())
}
