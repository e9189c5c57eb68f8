//! Calls find the versions that blocks have. It has no code of the product: the function below stands for the law that its contract states, of which
//! `specs/Changes.antt` of `headline` says what it is.

ghost use Rattle.run_answers.specs.change_law.Changes.{EachRunsCallsFindVersions};

use act_tie::blocks;
use run_laws::world_law::{nodes_are_seen, what_fell_is_held_by_nobody};
use run_laws::world_reads::{every_run_stands, every_runs_acts_are_legal};
use token_law::acts_are_legal;

/// In each run of a script of whose setup a run can be started, up to the first doubtful restart: in each event each call on blocks of a client that is answered is
/// answered as the history of the block is at that moment. A write makes the version behind the newest. One that names a version to be written over is made where
/// just that is the newest, and it is told that the version has changed only where the block has more versions than that.
pub fn calls_find_versions()
    ensures finds { EachRunsCallsFindVersions }
{
    every_run_stands();
    every_runs_acts_are_legal();
    acts_are_legal();
    blocks();
    nodes_are_seen();
    what_fell_is_held_by_nobody();
}
