//! What a manager does in one event, as what the owner of its log does in the small world of that log (`log_law`), as `client_log_tie` says it of a client. It
//! has no code: each function below calls the laws that it stands on, and its contract is a law. `specs/manager_log_tie/Owner.antt` says how a manager is seen
//! there.

ghost use Rattle.node_logs.specs.manager_log_tie.Listing.{ServersListWhatWasStored, ServersStartBare};
ghost use Rattle.node_logs.specs.manager_log_tie.OwnerEvents.{ManagerStarts, ManagerTakes};
ghost use Rattle.node_logs.specs.manager_log_tie.Servers.{ServersStartEmpty, ServersTellBytes};
ghost use Rattle.node_logs.specs.manager_log_tie.Told.{WhatIsToldIsInRange};

use log_law::one_name_one_text;

/// What an event makes of a manager is a run of the small world of its log, by its owner alone, if the packet that comes was sent there. It opens no log: while
/// it is down, or awaits the Welcome of its restart, the owner is down, and at that Welcome the log begins anew.
///
/// - `start`: a manager at its start is seen in the opening of the small world, where the ids of the setup's groups fit.
/// - `events`: a manager that is seen there before an event is seen after it in a world to which that one runs on; all that it sends was sent there, and all
///   that it tells to be filed is filed there; it stores to its own log alone, and the numbers of what it sends are
/// in range, those of the entry of a grant too.
///
/// What is owed still is that the numbers of what comes are in the ranges of their types: the rows of Deltas (one
/// that tells that nothing is known of a block may be any), the bytes of a fragment, the ids of the groups of
/// maps. That each segment of a checkpoint has a text follows from it: how many Parts and rows it has is looked
/// at when it is begun.
pub fn manager_log_events_are_seen()
    ensures start { ManagerStarts }
    ensures events { ManagerTakes }
{}

/// What was stored and told of a log is in range: at each moment of every run of its small world each segment that was in flight has a text, and each fragment
/// that was sent to be stored, or as what is held, is bytes. So a fragment that comes to one that reads a segment is in range by the small world of its log.
pub fn what_is_told_is_in_range()
    ensures { WhatIsToldIsInRange }
{
    one_name_one_text();
}

/// What a storage server holds and tells is bytes, of whatever log it is, where each fragment that is stored there, and each that it is told for a rebuild, is.
///
/// - `start`: a server at its start holds nothing.
/// - `events`: where the fragments on its shelf, and those that came to the round of a rebuild, are bytes, and so is the fragment that the packet that comes
///   carries, then so are all that it holds after the event, those that it fills in too, and all that it sends.
pub fn what_servers_tell_is_bytes()
    ensures start { ServersStartEmpty }
    ensures events { ServersTellBytes }
{}

/// Whichever logs are asked about, a storage server holds and lists fragments of these alone, where each that is
/// stored there, and each that another server lists to it, is of one of these: what it fills in once it is
/// rebuilt is of a segment that was listed.
///
/// - `start`: a server at its start holds nothing.
/// - `events`: where what it holds, what was listed to it and what it reads for a rebuild is of these logs, and what
///   the packet that comes stores or lists, then so is it after the event, and all that it sends lists only such.
pub fn servers_list_what_was_stored()
    ensures start { ServersStartBare }
    ensures events { ServersListWhatWasStored }
{}
