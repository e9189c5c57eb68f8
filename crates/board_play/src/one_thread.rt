//! A script played on one thread, with boards.
ghost use Rattle.std.specs.Prelude.{◌≡◌, IfOk};
ghost use Rattle.board_law.specs.OneRun.{HasRegistry};
ghost use Rattle.node_base.specs.Setups.{IsSetup};
ghost use Rattle.board_play.specs.Played.{IsBoardPlayed};
ghost use Rattle.board_play.specs.Plays.{estate_of};

use crate::{BoardEstate, Player};
use board_law::runs_with_boards_are_one_run;
use script_text::Script;
use std::alloc::Global;
use world_base::Member;
use xfs_base::Mem;

/// Plays a script of a setup of which a run can be started, with three boards in the registry's place: the run that
/// the script determines. Where the registry is among the nodes, the run stands for one of the script with one
/// registry.
pub fn board_play<N: Member>(alloc: Global, script: &Script) -> Mem<BoardEstate<N>>
    requires { IsSetup script.now.setup }
    ensures exact { IfOk result (λ estate. estate ≡ estate_of N.transition N.first script.now) }
    ensures played { IfOk result (λ estate. HasRegistry N.transition N.first → IsBoardPlayed N.transition N.first estate) }
{
    runs_with_boards_are_one_run::<N>();
    let player: Player<N> = Player::play(alloc, script)?;
    let script = script.copy(alloc)?;
    Ok(player.into_estate(script))
}
