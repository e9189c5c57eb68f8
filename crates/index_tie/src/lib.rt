//! The machines that know where blocks lie are steps of the abstract index: what a manager's slot, a takeover, a checkpoint, a feed and the cleaner do, seen
//! at one block, is a list of steps whose guards the machines meet. What a machine can't know is a premise, by its name. It has no code: each function below
//! has an empty body, and its contract is a law.
#![tactic(auto)]

ghost use Rattle.index_tie.specs.Checkpoints.{PartsCover, PartsAreRead, PartsTellTheirRows, CheckpointsAreKept};
ghost use Rattle.index_tie.specs.Cleaning.{LiveIsFiled, MovesAreCopies, DeadsAreBeats, MovesAndDrops, JobsStay, JobsBegin};
ghost use Rattle.index_tie.specs.Feeds.{RangesTellWhatIsFiled};
ghost use Rattle.index_tie.specs.Growth.{ClientsFile, CleanerFiles, SlotsStay, PartsStay, DeltasStay, MoreIsFiled};
ghost use Rattle.index_tie.specs.Laws.{IndexesAreJoins, PlacesAreExact, DroppedIsOutdated, NewestIsKept};
ghost use Rattle.index_tie.specs.Lines.{LinesAreFiled, LinesAreLinked, FiledNamesAreEnds, FeedsAreFed, LinesGrow};
ghost use Rattle.index_tie.specs.NetLaws.{CheckpointsHaveManagers, EachIndexIsTheJoin, ManagersCoverTheirHorizon, NewestIsNeverDeleted, ReigningIsOutdated, TakenOver};
ghost use Rattle.index_tie.specs.Slots.{AppliesAreMerges};
ghost use Rattle.index_tie.specs.Takeovers.{TakeoversAreActivations};

/// What a slot does on an input is, at each block, a list of steps of its manager: Deltas that it applies are one merge, all else is no step.
pub fn applies_are_merges()
    ensures { AppliesAreMerges }
{}

/// When a takeover hands a slot out, the slot that starts with what it hands out is, at each block of it, an activation.
pub fn takeovers_are_activations()
    ensures { TakeoversAreActivations }
{}

/// What is seen stays seen while logs file more.
///
/// - `slots`: a slot of whose manager nothing is changed is seen as before.
/// - `parts`: parts of a checkpoint cover what they covered.
/// - `deltas`: Deltas tell what they told.
/// - `more`: with one more segment, what was filed is as it was.
pub fn what_is_seen_stays()
    ensures slots { SlotsStay }
    ensures parts { PartsStay }
    ensures deltas { DeltasStay }
    ensures more { MoreIsFiled }
{}

/// What a log files is, at each block, one step.
///
/// - `clients`: a segment that a client settles is news of the blocks that it names.
/// - `cleaner`: one that the cleaner settles has copies of the blocks that it names.
pub fn logs_file()
    ensures clients { ClientsFile }
    ensures cleaner { CleanerFiles }
{}

/// What stands on the lines of clean logs is what the index is told of.
///
/// - `filed`: it is filed, each segment under its log and seq.
/// - `linked`: above the least horizon each segment names the one before it.
/// - `ends`: the end of a filed name is one of the filed segments.
/// - `feeds`: a serving owner's feed was told of it, above its base.
/// - `grow`: lines only grow.
pub fn lines_are_filed()
    ensures filed { LinesAreFiled }
    ensures linked { LinesAreLinked }
    ensures ends { FiledNamesAreEnds }
    ensures feeds { FeedsAreFed }
    ensures grow { LinesGrow }
{}

/// What is told of a range is the join of its rows: the ranges of a log's feed tell of each block of their slot what the log filed in them.
pub fn what_is_told_is_filed()
    ensures { RangesTellWhatIsFiled }
{}

/// A checkpoint is kept, and a takeover has it back.
///
/// - `cover`: its parts tell of each block the join of what the logs filed below its horizon.
/// - `read`: a takeover that read the parts whole was told what they hold.
/// - `rows`: a segment that has just parts of the slot tells what its items hold.
/// - `kept`: its horizon, which the slot's manager has applied, is kept.
pub fn checkpoints_are_kept()
    ensures cover { PartsCover }
    ensures read { PartsAreRead }
    ensures rows { PartsTellTheirRows }
    ensures kept { CheckpointsAreKept }
{}

/// The cleaner (the 1996 paper, on cleaning) moves what is live, and drops what is dead.
///
/// - `live`: what a manager answers Live is a filed row.
/// - `moves`: what is live, moved once, is a row at the same version and one hop further.
/// - `dead`: an active manager that answers Dead for a filed row below a kept horizon has its entry elsewhere.
/// - `inputs`: what a job does on an input is, at each block, a list of steps of the cleaner: a promise, a count of a Dead, a drop. What is to be deleted was
///   dropped.
/// - `stay`: a job is seen as before while more is filed.
/// - `begin`: a job that begins is seen as the cleaner.
pub fn moves_and_drops()
    ensures live { LiveIsFiled }
    ensures moves { MovesAreCopies }
    ensures dead { DeadsAreBeats }
    ensures inputs { MovesAndDrops }
    ensures stay { JobsStay }
    ensures begin { JobsBegin }
{}

/// What the index comes to (the 1996 paper, on the imap and on cleaning), of machines that are seen so.
///
/// - `joins`: the index of each active slot is the join of what it has applied.
/// - `places`: a place in it names a filed segment, by its log, seq, pass and group.
/// - `dropped`: a slot whose entry lies in a dropped row, of which a Dead was counted at an epoch up to the slot's, is outdated.
/// - `kept`: cleaning loses nothing: the newest row was not dropped.
pub fn the_index_is_the_join()
    ensures joins { IndexesAreJoins }
    ensures places { PlacesAreExact }
    ensures dropped { DroppedIsOutdated }
    ensures kept { NewestIsKept }
{}

/// The law of every run of a small world of these machines, in which a slot of the map goes from manager to manager, is checkpointed, taken over and cleaned.
///
/// - `joins`: the index of each slot that a manager ever had is the join of what it has applied.
/// - `covers`: and that is at least what the checkpoint covers that the registry had last kept at its epoch.
/// - `kept`: the newest row of a block is in no segment that was to be deleted.
/// - `outdated`: where the reigning slot's entry lies in such a segment, a newer version is filed.
/// - `managed`: a checkpoint is sent only at an epoch that has a manager.
pub fn cleaning_loses_nothing()
    ensures joins { EachIndexIsTheJoin }
    ensures covers { ManagersCoverTheirHorizon }
    ensures kept { NewestIsNeverDeleted }
    ensures outdated { ReigningIsOutdated }
    ensures managed { CheckpointsHaveManagers }
{}

/// The small world has a run in which a checkpoint is kept, the slot is taken over, and its new manager is told of what a client files.
pub fn a_run_exists()
    ensures { TakenOver }
{}
