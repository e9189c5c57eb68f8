//! Where a node answers an item that a segment is lost, it has said so just before, in the same event. It has no code of the product: the function below stands for
//! the law that its contract states. `specs/answer_law/Answers.antt` says it of the acts of one event, `specs/answer_law/Calls.antt` of clients, and
//! `specs/answer_law/Runs.antt` of the other nodes and of runs.

ghost use Rattle.run_losses.specs.answer_law.Calls.{ClientsSay, ClientsStartWell};
ghost use Rattle.run_losses.specs.answer_law.Runs.{LostAnswersAreSaid, OthersSayNone, TheCleanerSays};

/// Whatever comes to a node, and in whatever order: a client or the cleaner that answers an item that a segment is lost has said just before, in the same event,
/// that this very segment is lost, and the item had begun; managers, servers and the registry answer no item so. A client's call on files never ends so by its
/// own plan: the loss of a segment that a block of it needs is the answer at once (the 1996 paper, on RAID). So it is in each event of every run.
pub fn lost_answers_are_said()
    ensures start { ClientsStartWell }
    ensures clients { ClientsSay }
    ensures cleaner { TheCleanerSays }
    ensures others { OthersSayNone }
    ensures runs { LostAnswersAreSaid }
{}
