//! What a storage server, a manager, a client or a cleaner that serves, and the registry are asked they answer at once. It has no code of the product: the
//! function below calls the law that it stands on, and its contract is a law. In `headline`, `specs/ServerReplies.antt` says it of servers,
//! `specs/ManagerReplies.antt` and `specs/ManagerTakes.antt` of managers, `specs/ClientReplies.antt` and `specs/ClientRefusals.antt` of clients,
//! `specs/CleanerReplies.antt` of the cleaner, `specs/RegistryReplies.antt` of the registry, `specs/Shelves.antt` of shelves, and `specs/Replies.antt` of runs.

ghost use Rattle.run_answers.specs.reply_law.Runs.{EachQuestionIsAnswered, EachRunAnswersQuestions};

use shelf_changes::server_events_change_a_shelf_by_one_call;

/// In the event in which a packet comes to a server that is well formed and names no unknown group, where its counters are far from their ends: one that asks
/// for a fragment is answered by it, or that none is held; one that tells it to store is done and answered where generation, marks and fence allow, and else
/// nothing is done; one that bars a log below a pass does so, and is answered by what is held of the log where that pass is the fence then; one that asks for a
/// list is answered by it, and one that deletes is done and answered. The registry answers a Hello by the maps that it keeps then, and that a checkpoint is
/// written by the slot's epoch; it keeps the checkpoint just where it is of that epoch and its horizon does not fall. A manager that serves answers whether a
/// block lies at a place, and the counts of a slot, where it manages the slot, and else says nothing; and a want in a slot whose index needs a lost segment by
/// a Gone. In a slot that it manages it meets a want that nobody bars, and asks those that bar it to give the block up; as the last of these does, and what all
/// named of their logs is applied, it meets the want that waits; and what a log tells is applied where it joins on, which is said. A client that serves gives
/// up at once what a manager takes back under a later stamp than it was held under, where the newest version is settled; else it puts that off, with a segment
/// of its log in flight; and a recall that it answered it answers again. It passes on a copy of just the version that a manager names, and tells a manager that
/// asks what it holds of a slot, and where its log ends. Where a Gone refuses a want of it that stands it ends its call, which is answered lost, and else loses
/// nothing by it. A cleaner that serves tells a manager that asks it where its log ends, and reports to nobody else. And a shelf changes only so, by a fragment
/// that a rebuild under way fills in, or by the loss of its disk as an item begins. So it is in each event of every run.
pub fn questions_are_answered()
    ensures events { EachQuestionIsAnswered }
    ensures runs { EachRunAnswersQuestions }
{
    server_events_change_a_shelf_by_one_call();
}
