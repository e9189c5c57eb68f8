//! What a cleaning takes. It has no code of the product: the function below stands for the law that its contract states.
//! `specs/Cleanings.antt` of `headline` says it of runs.

ghost use Rattle.run_answers.specs.clean_law.Runs.{EachRunsCleaningsTakeWhatIsDue};

/// In each run of a script: wherever the cleaner answers an item by a count, it has taken of all that there was to empty since the item began as many segments as
/// it was asked for, or all; so many of these were dropped, and each other was missed under two questions, by more members of its group than the parity makes good.
pub fn cleanings_take_what_is_due()
    ensures runs { EachRunsCleaningsTakeWhatIsDue }
{}
