//! What isn't acknowledged is said again. It has no code of the product: the function below stands for the law that its contract states.
//! `specs/Repeats.antt` of `headline` says what that is.

ghost use Rattle.run_answers.specs.repeat_law.Runs.{EachRunRepeats, EachTickRepeats};

/// As time passes at a node whose counters are far from their ends: a client, the cleaner and a manager, where they serve, send each fragment of the segment in
/// flight that its server isn't known to hold; a client and the cleaner tell the manager of each slot what it hasn't acknowledged of their log; a manager sends
/// each recall that isn't answered, polls each node whose report a takeover lacks, and tells the registry of the checkpoint whose answer it awaits; and one that
/// awaits the maps asks for them. So it is in each event of every run in which time passes.
pub fn what_is_unanswered_is_said_again()
    ensures events { EachTickRepeats }
    ensures runs { EachRunRepeats }
{}
