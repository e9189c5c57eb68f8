//! What the owners of logs write. A client that serves writes what its calls wrote, at first hand; the cleaner what it moved; a manager the pages of its
//! checkpoints; and an owner that opens its log again a segment without items. It has no code: each function below has an empty body, and its contract is a
//! law. `specs/segment_tie/Segments.antt` says what each kind of segment is.

ghost use Rattle.run_laws.specs.segment_tie.Cleaners.{CleanerStartsWriting, CleanerWritesCopies};
ghost use Rattle.run_laws.specs.segment_tie.Clients.{ClientsStartWriting, ClientsWriteOriginals};
ghost use Rattle.run_laws.specs.segment_tie.Managers.{ManagersStartWriting, ManagersWritePages};
ghost use Rattle.run_laws.specs.segment_tie.Runs.{RunsWriteCopies, RunsWriteOriginals};
ghost use Rattle.run_laws.specs.segment_tie.Segments.{AttemptsAreAlike, NothingIsAnyKind};
ghost use Rattle.run_laws.specs.segment_tie.Settings.{TellingSetting};

/// What a segment tells of blocks is said by its items alone.
///
/// - `nothing`: a segment without items is of each kind.
/// - `alike`: another attempt of a segment, with the same items, is of its kind.
/// - `setting`: there is a setting of the small world of a log in which contents tell items apart: attempts of one content have the same items.
pub fn items_say_all()
    ensures nothing { NothingIsAnyKind }
    ensures alike { AttemptsAreAlike }
    ensures setting { TellingSetting }
{}

/// What a client writes.
///
/// - `start`: a client at its start has nothing in its log.
/// - `events`: where each version that waits in the log of a client that serves is one from 1 on, at first hand, and
///   of no block two wait, and what is in flight has Blocks and Deltas alone, such versions of blocks, each block
///   once, and each Delta names the Block of its value; and where the log that a client opens again has nothing that
///   waits and no items in flight: so it is after each event.
pub fn clients_write_originals()
    ensures start { ClientsStartWriting }
    ensures events { ClientsWriteOriginals }
{}

/// What the cleaner writes.
///
/// - `start`: the cleaner at its start has nothing in its log.
/// - `events`: what a client's log is, the cleaner's is after each event where it was before, but that each version
///   was moved at least once; where a manager that tells of a live block tells a version from 1 on.
pub fn cleaner_writes_copies()
    ensures start { CleanerStartsWriting }
    ensures events { CleanerWritesCopies }
{}

/// What a manager writes.
///
/// - `start`: a manager at its start has nothing in its log.
/// - `events`: where no block waits in the log of a manager that serves, and what is in flight there has Parts alone, so it is after each event.
pub fn managers_write_pages()
    ensures start { ManagersStartWriting }
    ensures events { ManagersWritePages }
{}

/// So it is at each moment of each run of the nodes.
///
/// - `originals`: each client and each manager writes so.
/// - `copies`: so does the cleaner, up to which moment managers that told of live blocks told versions from 1 on.
pub fn runs_write_so()
    ensures originals { RunsWriteOriginals }
    ensures copies { RunsWriteCopies }
{}
