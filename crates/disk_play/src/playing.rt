//! A script played with servers that stop and keep their disk.
ghost use Rattle.std.specs.Prelude.{◌≡◌, IfOk};
ghost use Rattle.node_base.specs.Setups.{IsSetup};
ghost use Rattle.play.specs.Plays.{actors_of};
ghost use Rattle.world_base.specs.Runs.{BeginsAll, IsRun, begun_in};
ghost use Rattle.disk_play.specs.Courses.{disk_estate_of, disks_of};
ghost use Rattle.disk_play.specs.Standing.{AreTheirs, DisksStand};

use crate::DiskPlayer;
use disk_shelf::{DiskShelf, MemDisk};
use script_text::Script;
use shelved_nodes::Shelved;
use std::alloc::Global;
use world_base::Estate;
use xfs_base::{List, Mem};

/// A run and the disks of its servers.
pub struct DiskEstate<N> {
    /// The run.
    pub estate: Estate<N>,
    /// The disks of the servers, in their order.
    pub disks: List<MemDisk>,
}

impl<N: Drop> Drop for DiskEstate<N> {
    fn drop(self) {
        let DiskEstate { estate, disks } = self;
        drop(estate);
        drop(disks);
    }
}

impl<N> DiskEstate<N> {
    /// The run, and the disks.
    pub fn into_parts(self) -> (Estate<N>, List<MemDisk>)
        ensures { result ≡ (self.estate, self.disks) }
    {
        let DiskEstate { estate, disks } = self;
        (estate, disks)
    }
}

/// The disks of the shelves.
fn closed(alloc: Global, shelves: Vec<DiskShelf<MemDisk>>) -> Mem<List<MemDisk>>
    ensures { IfOk result (λ disks. AreTheirs shelves.items disks) }
{
    let mut disks = List::new(alloc);
    for shelf in shelves {
        disks.push(shelf.close())?;
    }
    Ok(disks)
}

/// Plays a script of a setup of which a run can be started, with servers that stop and keep their disk: the run that the script
/// determines, with the world in which it ends, and the disks of the servers. Its events are a run of the script, each item is
/// begun once, at its line; each disk did what the script determines, and stands for what is kept on it then, with the shelf of
/// its server in that world.
pub fn disk_play<N: Shelved>(alloc: Global, script: &Script) -> Mem<DiskEstate<N>>
    requires { IsSetup script.now.setup }
    ensures exact { IfOk result (λ played. played.estate ≡ disk_estate_of N.transition N.shelf_of N.first script.now) }
    ensures one_run { IfOk result (λ played. IsRun N.transition N.first script.now played.estate.events played.estate.world) }
    ensures in_order { IfOk result (λ played. begun_in played.estate.events ≡ actors_of script.now.lines) }
    ensures complete { IfOk result (λ played. BeginsAll script.now.lines played.estate.events) }
    ensures disks { IfOk result (λ played. DisksStand N.shelf_of played.estate (disks_of N.transition N.shelf_of N.first script.now) played.disks) }
{
    let player: DiskPlayer<N> = DiskPlayer::play(alloc, script)?;
    let script = script.copy(alloc)?;
    let (course, shelves) = player.into_parts();
    let disks = closed(alloc, shelves)?;
    let (world, events) = course.into_player().into_parts();
    let estate = Estate {
        script,
        events,
        world,
    };
    Ok(DiskEstate { estate, disks })
}
