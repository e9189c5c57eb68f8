//! What the owner of a log, a client or the cleaner, does in one event, as inputs of the machines that know where blocks lie: the tie of the
//! nodes to the small world of `index_tie`, for one slot of the map. It has no code: each function below has an empty body, and its contract is a
//! law. `specs/owner_index_tie/Owners.antt` says how an owner is seen in the small world, `specs/owner_index_tie/Filing.antt` what it files
//! there.
//!
//! Of texts each name has one, which is given from outside: that what is in flight is the text of its name, and that what a reopening read
//! back is what was filed and adopted, is owed.

ghost use Rattle.node_slots.specs.owner_index_tie.Acting.{CleanerFilesFlights, ClientsFileFlights};
ghost use Rattle.node_slots.specs.owner_index_tie.CleanerEvents.{CleanerEventGoes, CleanerStartAgrees, CleanerStays};
ghost use Rattle.node_slots.specs.owner_index_tie.CleanerMoves.{CleanerMovesAnswered, CleanerStartsMoving, FlightsAreMoves};
ghost use Rattle.node_slots.specs.owner_index_tie.ClientEvents.{ClientEventGoes, ClientsStay, FirstClientAgrees};
ghost use Rattle.node_slots.specs.owner_index_tie.ServerEvents.{ServerEventGoes};

/// What an event makes of a client is a run of the small world, if what it acts to be filed is new, and what a reopening of its log read
/// back is what was filed and adopted.
///
/// - `start`: a client at its start is seen in the opening of the small world.
/// - `events`: a client that is seen there before an event is seen after it in a world to which that one runs on by what its log files; the
///   Deltas, the Reports and the ends that it sends tell what was filed.
/// - `others`: what others do leaves a client seen, where what is filed of its log stays as it is.
pub fn client_index_events_are_seen()
    ensures start { FirstClientAgrees }
    ensures events { ClientEventGoes }
    ensures others { ClientsStay }
{}

/// What an event makes of the cleaner is a run of the small world, if what a reopening of its log adopts was answered Live and moved once, if it
/// may ask what it asks, and if answers and what it reads are of the segment in hand.
///
/// - `start`: the cleaner at its start is seen in the opening of the small world.
/// - `events`: a cleaner that is seen there before an event is seen after it in a world to which that one runs on: by what its log files, by what
///   it promises and reports, by its job, and by its Checks. What it tells of its log, its Reports and its Checks are so there, what it files was
///   answered Live there and is moved once, and each segment that it drops, and has deleted, was to be deleted there.
/// - `others`: what others do leaves the cleaner seen, where what is filed of its log, and what it has there, stay as they are.
pub fn cleaner_index_events_are_seen()
    ensures start { CleanerStartAgrees }
    ensures events { CleanerEventGoes }
    ensures others { CleanerStays }
{}

/// What the cleaner writes into its log was answered Live, and is moved once.
///
/// - `start`: so it is of the cleaner at its start.
/// - `events`: so it stays, of what waits in its log, of what is in flight, and of what its job is to move, where a Live that comes was answered.
/// - `flights`: what is in flight then says of each block of the slot what was answered Live, moved once, as the small world asks of what the
///   cleaner files.
pub fn cleaner_moves_what_was_live()
    ensures start { CleanerStartsMoving }
    ensures events { CleanerMovesAnswered }
    ensures flights { FlightsAreMoves }
{}

/// What an event makes of a storage server is nothing in the small world: it files and drops nothing, and tells nothing of where blocks lie.
pub fn server_index_events_are_seen()
    ensures { ServerEventGoes }
{}

/// What an owner that serves acts to be filed in an event was in flight before it, where that may be filed next: of a client, and of the cleaner.
pub fn owners_file_their_flights()
    ensures client { ClientsFileFlights }
    ensures cleaner { CleanerFilesFlights }
{}
