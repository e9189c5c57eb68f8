//! The world behind some events, made anew.
ghost use Rattle.std.specs.Prelude.{◌≡◌, IfOk, fold};
ghost use Rattle.node_base.specs.Setups.{IsSetup};
ghost use Rattle.world_base.specs.NextWorld.{next_world, start_world};

use script_text::Script;
use std::alloc::Global;
use world_base::{Event, Member, World};
use xfs_base::Mem;

/// The world behind these events of a script, made anew from its start.
pub fn world_after<N: Member>(alloc: Global, script: &Script, events: &[Event]) -> Mem<World<N>>
    requires { IsSetup script.now.setup }
    ensures { IfOk result (λ world. world ≡ fold (next_world N.transition) (start_world N.first script.now) events.now) }
{
    let mut world: World<N> = World::start(alloc, script)?;
    for event in events {
        let what = event.what(alloc)?;
        world.happen(alloc, event.node(), &what)?;
    }
    Ok(world)
}
