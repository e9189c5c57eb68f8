//! What a client does in one event, as what the owner of its log does in the small world of that log (`log_law`). It has no code: each function below has an
//! empty body, and its contract is a law. `specs/client_log_tie/Owner.antt` says how a client is seen there.

ghost use Rattle.node_logs.specs.client_log_tie.ClientEvents.{ClientStarts, ClientTakes};
ghost use Rattle.node_logs.specs.client_log_tie.Texts.{WhatFitsStaysWritten};

/// What an event makes of a client is a run of the small world of its log. Owed are these: a packet that comes is for the client and was sent there, and the
/// group ids of a map that comes fit the format; to one that opens its log also that the ids of all maps that were sent fit, and that of the chain that its
/// scan tells, whatever comes next, the log can go on behind the end, and it goes down to the horizon that was taken last. A client that serves is owed nothing
/// more: what it puts fits the format, by the test that it puts by.
///
/// - `start`: a client at its start is seen in the opening of the small world; its log can be spelled where the ids of the setup's groups fit.
/// - `events`: a client that is seen there before an event is seen after it in a world to which that one runs on, by its owner alone; all that the client sends
///   was sent there, and all that it tells to be filed is filed there; it stores to its own log, and bars it, alone; the owner doesn't fall on the way, or
///   nothing begins to fly; unless it serves then, it serves nowhere on the way, and where it comes to serve, that is by one thing that happens; and unless it
///   serves or writes its opening segment then, it does neither on the way.
pub fn client_log_events_are_seen()
    ensures start { ClientStarts }
    ensures events { ClientTakes }
{}

/// A log that starts behind an end whose numbers fit the format, over groups whose ids fit, can be spelled whatever it takes, as long as that fits: what is in
/// flight then has a text.
pub fn what_fits_stays_written()
    ensures { WhatFitsStaysWritten }
{}
