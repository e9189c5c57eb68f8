//! How the machines of logs are seen in the abstract log protocol. It has no code: each function below has an empty body, and its contract is a law.
#![tactic(auto)]

ghost use Rattle.log_tie.specs.Exist.{SomeSetting};
ghost use Rattle.log_tie.specs.Inputs.{TakesInputs};
ghost use Rattle.log_tie.specs.Openings.{OpensByStep, OpeningTakes};
ghost use Rattle.log_tie.specs.Scans.{ScanStarts, ScanStays, ScanTakes};
ghost use Rattle.log_tie.specs.Shelves.{TakesDeeds};

/// What a log that its owner writes does on an input is a list of steps of the log protocol that meet their guards: a segment is sealed, striped anew, noted,
/// settled, and its Stores are sent. Asked of the world are that Stored packets were sent, and that maps of groups are the registry's (the 1996 paper, on
/// writes and on RAID).
pub fn log_inputs()
    ensures { TakesInputs }
{}

/// A log that is opened again, once all of it is read back: its opening segment is written by a step of the opening,
/// and each input that it then takes is a list of steps, until the segment has settled, the owner serves and all that
/// was read back is filed. Where no restart is doubtful the premise on losses is asked for (the 1996 paper, on
/// recovery).
pub fn opening_inputs()
    ensures opens { OpensByStep }
    ensures takes { OpeningTakes }
{}

/// Whatever is done to a server's shelf is done by steps of that server: a Store is kept or found held, a Fetch is answered with a fragment of the booked
/// segment, a Fence with what is held, a name is deleted, a rebuild fills in, a disk is lost. Asked of the world are that Stores and what a rebuild read were
/// sent, that what is deleted was dropped, that a Fence is of a boot that began, and that generations don't end. No guard asks for the fences that a
/// shelf keeps.
pub fn shelf_deeds()
    ensures { TakesDeeds }
{}

/// A log that is opened again, from the restart until all of it is read back: each input of its opening is a list of
/// steps: maps are learned, what the lists name is picked, kept or passed over, reading back is cut at later
/// horizons; and where the opening tells its chain, all is read back. What others do meanwhile leaves it as it is
/// seen. Asked of the world are that lists, fragments and answers of the registry were sent, that maps of groups are
/// the registry's and whole, and that each booked segment has a text and names the group of the segment before it:
/// then a segment that is read is the booked one (the 1996 paper, on recovery).
pub fn scan_inputs()
    ensures starts { ScanStarts }
    ensures takes { ScanTakes }
    ensures stays { ScanStays }
{}

/// The laws above speak of something: there is a setting, with names as numbers, and a map of groups that is as the world owes it.
pub fn settings_exist()
    ensures { SomeSetting }
{}
