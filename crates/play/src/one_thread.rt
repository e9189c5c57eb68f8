//! A script played on one thread.
ghost use Rattle.std.specs.Prelude.{◌≡◌, IfOk};
ghost use Rattle.node_base.specs.Setups.{IsSetup};
ghost use Rattle.play.specs.Plays.{actors_of, estate_of};
ghost use Rattle.world_base.specs.Runs.{BeginsAll, IsRun, begun_in};

use crate::Player;
use script_text::Script;
use std::alloc::Global;
use world_base::{Estate, Member};
use xfs_base::Mem;

/// Plays a script of a setup of which a run can be started: the run that the script determines, with the
/// world in which it ends. Its events are a run of the script, and each item is begun once, at its line.
pub fn play<N: Member>(alloc: Global, script: &Script) -> Mem<Estate<N>>
    requires { IsSetup script.now.setup }
    ensures exact { IfOk result (λ estate. estate ≡ estate_of N.transition N.first script.now) }
    ensures one_run { IfOk result (λ estate. IsRun N.transition N.first script.now estate.events estate.world) }
    ensures in_order { IfOk result (λ estate. begun_in estate.events ≡ actors_of script.now.lines) }
    ensures complete { IfOk result (λ estate. BeginsAll script.now.lines estate.events) }
{
    let player: Player<N> = Player::play(alloc, script)?;
    let script = script.copy(alloc)?;
    let (world, events) = player.into_parts();
    Ok(Estate {
        script,
        events,
        world,
    })
}
