//! The abstract log protocol: that logs stay whole, for every schedule.
//!
//! No code of the product is here. `specs/` has the state of one log with its servers and its owner, the steps
//! that it takes, and the laws; `proofs/Invariant.antt` lists the groups of the invariant and is read first.
//! Each function below is one law: it does nothing, and its contract holds of every run, that is, of every list of
//! steps from a new log, whatever is lost, late, repeated or never delivered. A second, smaller machine is the
//! index of one block. `docs/PROTOCOL_LOGS.md` says which transition of which node is which step.
#![tactic(auto)]

ghost use Rattle.std.specs.Prelude.{◌≡◌, ℕ, ◌<◌, ◌≤◌, suc, List, [], ◌∷◌};
ghost use Rattle.log_protocol.specs.Tables.{put};
ghost use Rattle.log_protocol.specs.Packets.{FencedPacket};
ghost use Rattle.log_protocol.specs.Phase as Phase;
ghost use Rattle.log_protocol.specs.State.{State, Names};
ghost use Rattle.log_protocol.specs.OpeningSteps.{Picked, Undoubted, CanServe};
ghost use Rattle.log_protocol.specs.Step.{Step, Steps};
ghost use Rattle.log_protocol.specs.LogLaws.{Reached, LogsWhole, OneText, OneLine, AdoptsOne, FeedWhole};
ghost use Rattle.log_protocol.specs.StateLaws.{BookInOrder, ShelvesInOrder, OwnerInOrder, HorizonsInOrder, EndIsHead, OriginalUnhurt};
ghost use Rattle.log_protocol.specs.StepLaws.{NamesNew, FilesWhatWasRead, HurtEarned};
ghost use Rattle.log_protocol.specs.UndoubtedRuns.{SureRun};
ghost use Rattle.log_protocol.specs.GrowthLaws.{PastStays, LacksBetween, SameNames};
ghost use Rattle.log_protocol.specs.LogRuns.{TailAdopted, TailDiscarded, EmptyOpened, EveryStepTaken};
ghost use Rattle.log_protocol.specs.PickRule.{gather, best, SameLists};
ghost use Rattle.log_protocol.specs.NamesAsNumbers.{code_seq, code_incarnation, code_attempt, Decodes};
ghost use Rattle.log_protocol.specs.Counting.{NotAllHurt};
ghost use Rattle.log_protocol.specs.LossLaws.{MissedTwice, Whole, ReadBy, TornBetween};
ghost use Rattle.log_protocol.specs.IndexState.{Entry, IndexState, Joins};
ghost use Rattle.log_protocol.specs.IndexLaws.{IndexReached, IndexIsJoin, CleaningLosesNothing, DeadStays, HorizonStays};
ghost use Rattle.log_protocol.specs.IndexSteps.{IndexSteps};
ghost use Rattle.log_protocol.specs.IndexBoundLaws.{IndexInBounds, RowsInPlace, IndexPastStays};
ghost use Rattle.log_protocol.specs.IndexMerge.{FirstGreatest, merged};
ghost use Rattle.log_protocol.specs.IndexRuns.{IndexMoved, EveryIndexStepTaken};

/// Logs stay whole: in every run each member of a filed segment that isn't dropped holds its fragment, at its index,
/// or its server is of a later generation than the segment's group names. So nothing but losses takes a fragment
/// away. (The 1996 paper, "Zebra": a segment is striped over a group, one fragment a server.)
pub fn logs_whole()
    ensures whole { (w : State) → Reached w → LogsWhole w }
{}

/// One name, one text: in every run whatever a server holds of a name, and whatever a Store or a Fragment brings of
/// it, is of the one text that was written under that name.
pub fn one_text()
    ensures text { (w : State) → Reached w → OneText w }
{}

/// One line of segments: while no doubtful opening has served, no two filed segments have one seq, each seq up to the
/// head has a filed segment, and each filed one above the least horizon has the one before it as its prior.
pub fn one_line()
    ensures line { (w : State) → Reached w → w.clean ≡ 1 → OneLine w }
{}

/// What a reopening adopts: while no doubtful opening has served, of what an opening reads back beyond the head only
/// the segment at head + 1 tells anything, and it tells what the last boot that served had in flight there. (The
/// 1996 paper, "LFS": a log is rolled forward after a crash.)
pub fn what_reopening_adopts()
    ensures adopted { (w : State) → Reached w → w.clean ≡ 1 → AdoptsOne w }
{}

/// What a feed has: while no doubtful opening has served, the feed of a serving owner begins no later than the least
/// horizon, and has from there to the head the filed segment of each seq.
pub fn feed_is_whole()
    ensures whole { (w : State) → Reached w → w.clean ≡ 1 → w.phase ≡ Phase.serving → FeedWhole w }
{}

/// Undoubted runs are clean: where each opening that served met the premise on losses, of the newest filed segment some
/// member never lacked its fragment since the span began, the log is clean, and the laws of the line hold. A manager's
/// log, which goes on with a chain of its own after each restart, isn't among these.
pub fn undoubted_runs_are_clean()
    ensures clean { (w : State) (reached : Reached w) → SureRun reached.run → w.clean ≡ 1 }
{}

/// Few losses keep an opening undoubted: where fewer members of the newest filed segment were hurt since the span
/// began than it has, the premise on losses is met.
pub fn few_losses_are_undoubted()
    ensures undoubted { (w : State) → NotAllHurt w → Undoubted w }
{}

/// A hurt member is one that lacks the head: in a clean log a member of the head that is of the generation that its
/// group names isn't hurt; and over each step of a span, a member that is hurt was so before, or lacks its fragment of
/// the head now, while the head isn't dropped. So what is lost after it was dropped never makes a restart doubtful.
pub fn hurt_is_earned()
    ensures original { (w : State) → Reached w → w.clean ≡ 1 → OriginalUnhurt w }
    ensures earned { (w u : State) → Reached w → Step w u → w.clean ≡ 1 → HurtEarned w u }
{}

/// Two rounds tell of a torn segment: where more members than the spare ones answered Missing in two rounds of a reader,
/// each in one generation, and the segment isn't dropped when the second round ends, it was torn, and not dropped, when
/// the first one ended: all of them lacked their fragments at that one moment.
pub fn two_rounds_tell_of_a_torn_segment()
    ensures torn { (since m u : State) (x spare : ℕ) → Reached since → Steps since m → Steps m u → MissedTwice since m u x spare → (u.dropped x ≡ 1 → ⊥)
        → TornBetween m x spare }
{}

/// What a reopening reads back is whole unless it was dropped, and it wasn't dropped where a later horizon doesn't pass
/// it. Both hold in every run, also after a doubtful opening.
pub fn what_is_read_back_is_whole()
    ensures whole { (w : State) (x : ℕ) → Reached w → ReadBy w x → w.dropped x ≡ 0 → Whole w x }
    ensures kept { (w u : State) (x : ℕ) → Reached w → Steps w u → u.low ≤ u.seq_of x → w.dropped x ≡ 0 }
{}

/// The end is the head: while no doubtful opening has served, the owner's end is the newest filed segment, whatever its
/// phase, and the filed segments are just those of the line, none later than its head.
pub fn end_is_head()
    ensures head { (w : State) → Reached w → w.clean ≡ 1 → EndIsHead w }
{}

/// Small facts of every state of every run: of booked names, of shelves and packets, of the owner, of horizons.
pub fn all_is_in_order()
    ensures book { (w : State) → Reached w → BookInOrder w }
    ensures shelves { (w : State) → Reached w → ShelvesInOrder w }
    ensures owner { (w : State) → Reached w → OwnerInOrder w }
    ensures horizons { (w : State) → Reached w → HorizonsInOrder w }
{}

/// Names are new: what a seal, a restripe or an opening books was not booked before.
pub fn names_are_new()
    ensures new { (w : State) → Reached w → NamesNew w }
{}

/// Serving files what was read: after an opening that serves, what is filed is what was, the opening segment, and each
/// segment that was read back, also one that a later horizon passed in the meantime.
pub fn serving_files_what_was_read()
    ensures files { (w : State) (path : ℕ → ℕ) (lowest sure : ℕ) → Reached w → CanServe w path lowest sure → FilesWhatWasRead w path lowest sure }
{}

/// Runs go on: steps that follow a run make a run, what it reaches is reached, and neither what names say nor the number
/// of servers ever changes.
pub fn runs_go_on()
    ensures joined { (w v u : State) → Steps w v → Steps v u → Steps w u }
    ensures reached { (w u : State) → Reached w → Steps w u → Reached u }
    ensures names { (w u : State) → Steps w u → SameNames w u }
    ensures index_joined { (w v u : IndexState) → IndexSteps w v → IndexSteps v u → IndexSteps w u }
    ensures index_reached { (w u : IndexState) → IndexReached w → IndexSteps w u → IndexReached u }
{}

/// What only grows: between two moments of a run, a booked name keeps its text, group, prior and content, what is filed
/// or dropped stays so, the least horizon never falls, and the line is only added to.
pub fn past_stays()
    ensures stays { (w u : State) → Reached w → Steps w u → PastStays w u }
{}

/// The interval: a server of one generation at both ends of an interval, that lacks a fragment at its end and isn't
/// marked for it there, is of that generation and lacks it at every moment between.
pub fn lacks_between()
    ensures lacks { (w m u : State) → Reached w → Steps w m → Steps m u → LacksBetween w m u }
{}

/// The pick is a fold over the lists that an owner kept: the best of the names that aren't below the horizon is the
/// picked one, and where there is none no list names anything at or above the horizon.
pub fn pick_is_a_fold()
    ensures picked { (w : State) (list_of : ℕ → FencedPacket) (names : ℕ → List ℕ) (low x : ℕ) (xs : List ℕ) → SameLists w list_of names
        → gather w.seq_of low names w.servers ≡ x ∷ xs → Picked w list_of low (best w.seq_of w.incarnation_of w.attempt_of x xs) }
    ensures nothing { (w : State) (list_of : ℕ → FencedPacket) (names : ℕ → List ℕ) (low : ℕ) → SameLists w list_of names
        → gather w.seq_of low names w.servers ≡ [] → (v y : ℕ) → v < w.servers → (list_of v).listed y ≡ 1 → w.seq_of y < low }
{}

/// Names as numbers: with incarnation and attempt below a base, no two names have one number, and a number tells what
/// was coded in it.
pub fn numbers_name()
    ensures apart { (base : ℕ) → 0 < base → Names (code_seq base) (code_incarnation base) (code_attempt base) }
    ensures decode { (base seq incarnation attempt : ℕ) → incarnation < base → attempt < base → Decodes base seq incarnation attempt }
{}

/// The index is the join: in every run each active manager's index names the greatest of the rows that it applied,
/// whichever manager has the slot, and whatever was lost or came twice. (The 1996 paper, "The Imap".)
pub fn index_is_the_join()
    ensures join { (w : IndexState) → IndexReached w → IndexIsJoin w }
{}

/// Cleaning loses nothing: in every run the join of all that is filed never names a row that the cleaner dropped.
/// (The 1996 paper, "LFS": the cleaner copies what is live, and frees the rest.)
pub fn cleaning_loses_nothing()
    ensures nothing_lost { (w : IndexState) → IndexReached w → CleaningLosesNothing w }
{}

/// What was counted dead stays dead: in every run a row of which the cleaner counted a Dead, as it does before it drops
/// it, is named by no manager that is active at that epoch or later, unless a newer version is filed.
pub fn dead_stays()
    ensures dead { (w : IndexState) → IndexReached w → DeadStays w }
{}

/// Horizons stand still since the reigning epoch, the greatest at which a manager was ever active: a checkpoint is taken
/// from an active manager alone.
pub fn horizons_stand_still()
    ensures still { (w : IndexState) → IndexReached w → HorizonStays w }
{}

/// The index is in bounds: how far managers have applied the logs, against heads, horizons, epochs and the cleaner's
/// promises; no horizon is more than one above what is filed.
pub fn index_is_in_bounds()
    ensures bounds { (w : IndexState) → IndexReached w → IndexInBounds w }
{}

/// Rows are in place: which logs say something of the block and where, and that a version stands at one place of the
/// clients' logs.
pub fn rows_are_in_place()
    ensures placed { (w : IndexState) → IndexReached w → RowsInPlace w }
{}

/// What only grows in the index: between two moments of a run, what is filed keeps its row, heads, epochs, promises,
/// horizons and what is applied only rise, and what was answered Dead, counted or dropped stays so.
pub fn index_past_stays()
    ensures stays { (w u : IndexState) → IndexReached w → IndexSteps w u → IndexPastStays w u }
{}

/// Merging gives the join: an entry that is the join of what was applied, merged with the first greatest row of the
/// segments that follow in one log, is the join of both; of equals the older stays.
pub fn merging_gives_the_join()
    ensures join { (w : IndexState) (applied : ℕ → ℕ) (l first upto : ℕ) (old new : Entry) → IndexReached w → Joins w.version w.hop applied old
        → FirstGreatest w l first upto new → first ≤ suc (applied l) → applied l ≤ upto → Joins w.version w.hop (put applied l upto) (merged old new) }
{}

/// The laws speak of something: runs reach a state in which a restriped tail was adopted, a segment dropped, and a
/// server lost and filled again; one in which a tail was discarded; one in which an empty log was opened; and one in
/// which managers were activated, a horizon kept, a row dropped and another copied. Each says which steps it takes, and
/// together they take every kind of step, so each guard is one that something meets.
pub fn runs_exist()
    ensures adopted { TailAdopted }
    ensures discarded { TailDiscarded }
    ensures empty { EmptyOpened }
    ensures index { IndexMoved }
    ensures every_step { EveryStepTaken }
    ensures every_index_step { EveryIndexStepTaken }
{}
