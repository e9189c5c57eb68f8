//! What checkpoints count is true. It has no code of the product: the function below stands for the law that its contract states. `specs/Checkpoints.antt` of
//! `headline` says it of runs.

ghost use Rattle.run_answers.specs.checkpoint_law.Runs.{EachRunsCheckpointsAreTrue};

/// In each run of a script: where a manager answers an item by a count, it has gone over all slots, in order, since the item began, and left out none that it
/// managed as it came to it. It told the registry of the checkpoint of each of these, in the slot's epoch, and the number is that of the slots of which the first
/// answer that it took named that epoch; of the others it named a later one.
pub fn checkpoints_are_true()
    ensures runs { EachRunsCheckpointsAreTrue }
{}
