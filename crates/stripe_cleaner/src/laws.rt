//! What is true of a job, whatever it took before. Each function stands for the law that its contract states;
//! a call of it does nothing. A history is what a job took, oldest first.
ghost use Rattle.std.specs.Prelude.{ℕ, List, [], ◌∷◌, ◌++◌};
ghost use Rattle.std.specs.List.{AllByRecursion};
ghost use Rattle.stripe_cleaner.specs.declared.input.In.{In};
ghost use Rattle.stripe_cleaner.specs.CleaningState.{cleaning_start};
ghost use Rattle.stripe_cleaner.specs.Histories.{state_after, EmptiesBelow, DeletesEmptied};
ghost use Rattle.stripe_cleaner.specs.Transition.{transition};

/// No segment is read or deleted whose number is at or above the least horizon of its log, which is that of
/// the Welcome of the job.
pub fn empties_below_the_horizon()
    ensures { (count : ℕ) (history : List In) (input : In)
        → AllByRecursion (EmptiesBelow (cleaning_start count) (history ++ input ∷ [])) (transition (state_after (cleaning_start count) history) input).outs }
{}

/// A segment is deleted only after it was read and each of its Block items was then answered Dead in the
/// promised epoch, after it was moved or where it was never live.
pub fn deletes_what_is_emptied()
    ensures { (count : ℕ) (history : List In) (input : In)
        → AllByRecursion (DeletesEmptied (cleaning_start count) (history ++ input ∷ [])) (transition (state_after (cleaning_start count) history) input).outs }
{}
