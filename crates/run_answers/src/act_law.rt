//! Answers of clients and of the cleaner tell of acts, those of calls on files are what their plans say, and what is cut is cut by a crash. It has no code of the
//! product: the functions below stand for the laws that their contracts state. `specs/Answers.antt` of `headline` says what stands behind an answer,
//! `specs/Files.antt` there what does behind one of a call on files.

ghost use Rattle.run_answers.specs.act_law.Files.{EachFileAnswerIsPlanned};
ghost use Rattle.run_answers.specs.act_law.Newest.{EachVersionIsNewest};
ghost use Rattle.run_answers.specs.act_law.Runs.{EachAnswersActs};

use run_laws::world_reads::every_runs_acts_are_legal;

/// Whatever events a script's world goes through: where a client answers what it read, it has acted before, in the same event, that it read this version and
/// value of the block that the item asks for; where it answers a version, that it wrote the block; where it answers that a sync is done, that all it changed is
/// settled; where it answers that a restart is done, that it is back. It gives the answers of calls on files to such calls alone. Where the cleaner answers that
/// a restart is done, it has acted before that a segment of its log is filed, of the incarnation in which it opened its log. An item of any node is cut only where a crash, or the loss of a disk, is answered
/// behind it, in the same event.
pub fn answers_are_acts()
    ensures acted { EachAnswersActs }
{}

/// Whatever events a script's world goes through: an answer of a call on files is what the plan of the call replies to the answers of its own calls on blocks.
/// Each of them is one to the call on blocks that the plan made then, and the client has acted it since the item began, each behind what the one before tells of:
/// that it read this version and value of the block, that it wrote this value, or that all it changed is settled. An answer that the block has no longer the
/// version that was named tells of no act.
pub fn file_answers_are_planned()
    ensures planned { EachFileAnswerIsPlanned }
{}

/// In each run of a script of whose setup a run can be started, up to the first doubtful restart: the version that a client answers to a write is the newest of
/// the block at the end of the event, and its value is the one that the item asks to be written.
pub fn answered_versions_are_newest()
    ensures newest { EachVersionIsNewest }
{
    every_runs_acts_are_legal();
}
