//! Facts of a client by itself, whatever packets come in whatever order, however time passes, and whichever
//! items it has. It has no code: each function below has an empty body, and its contract is a law.
//!
//! `specs/client_law/Events.antt` says what holds after any events. `proofs/client_law/Keeping.antt` says what a fact
//! of a client's tokens, log and cache has to show to be kept; `Arriving`, `Packets`, `Calls` and `Happening` walk
//! through all events once, and take any such fact along. Each fact has a file of its own: `Asking`, `Fetching`,
//! `Caching` (with `CachingSteps` and `CachingThrough`), `Unsettled`, `Giving`, `Groups`, `Stamps`, and `Unserving`
//! for a client that doesn't serve.

ghost use Rattle.node_slots.specs.client_law.Asking.{AsksForOneBlockAlways};
ghost use Rattle.node_slots.specs.client_law.Caching.{CachesJustWhatIsClean, CachesThroughAnyEvent, CopiesOnlyClean, EvictsOnlyClean, SettlesOnlyClean};
ghost use Rattle.node_slots.specs.client_law.Fetching.{WantsEndByAnAnswer};
ghost use Rattle.node_slots.specs.client_law.Giving.{PutsOffWhatIsDirty};
ghost use Rattle.node_slots.specs.client_law.Groups.{StripesByPresentGroupsAlways};
ghost use Rattle.node_slots.specs.client_law.Stamps.{StampsNeverFallAlways};
ghost use Rattle.node_slots.specs.client_law.Standing.{EventsKeepWell, StartsWell};
ghost use Rattle.node_slots.specs.client_law.Unserving.{SaysNothingOfTokens, TakesNothingOfTokens};
ghost use Rattle.node_slots.specs.client_law.Unsettled.{WritesJustWhatIsDirty};

/// A client that doesn't serve, down or while it opens its log, says nothing of tokens and takes nothing of
/// them.
///
/// - `says_nothing`: whatever happens, it sends no Want, Gave, Report or Supply.
/// - `takes_nothing`: a Grant, Supply, Forward, Recall, Gone or Poll leaves it as it was, but that it may ask
///   for the maps.
pub fn only_who_serves_has_tokens()
    ensures says_nothing { SaysNothingOfTokens }
    ensures takes_nothing { TakesNothingOfTokens }
{}

/// After any events a recall is put off of dirty blocks alone: once all of a block is settled it is given up
/// in that very event (the 1996 paper, on cache consistency).
pub fn puts_off_what_is_dirty()
    ensures dirty { PutsOffWhatIsDirty }
{}

/// A victim is clean (the 1996 paper, on cooperative caching).
///
/// - `clean`: after any events the cache of a client has just the blocks that it holds and that are clean, each
///   once, and what would leave it for one more such block is held and clean.
/// - `evicts`: wherever the cache has none but such blocks, what leaves it for one more is held and clean as it
///   leaves, and then it has none but such blocks again.
/// - `copies`, `settles`: of a client whose cache is exact, it has none but such blocks once a copy is held that came,
///   and before each block of a segment that is settled.
/// - `through`: after any events the cache is exact within the next one, too, between any two of its parts: once a
///   packet was taken, but for a block that was just granted to be written; once time passed, and once a call began;
///   then after each call on blocks. And of a client as it stands between events it is exact after each thing that
///   its log might say.
pub fn caches_what_is_clean()
    ensures clean { CachesJustWhatIsClean }
    ensures evicts { EvictsOnlyClean }
    ensures copies { CopiesOnlyClean }
    ensures settles { SettlesOnlyClean }
    ensures through { CachesThroughAnyEvent }
{}

/// After any events just the dirty blocks of a client whose newest version isn't in flight wait to be written
/// to its log, each once, and what is in flight of a block is above its settled version and at most its newest
/// (the 1996 paper, "Writes").
pub fn writes_what_is_dirty()
    ensures written { WritesJustWhatIsDirty }
{}

/// After any events at most one block asks, by a want or a fetch, and that for the open call: to be written for
/// a call that writes it, to be read for one that reads it (the 1996 paper, on cache consistency).
pub fn asks_for_one_block()
    ensures one { AsksForOneBlockAlways }
{}

/// After any events, in any further one before and after which a client serves: a block that isn't held and of
/// which a want is open is held after it only where it brings a Grant or a Supply of that block.
pub fn wants_end_by_an_answer()
    ensures answered { WantsEndByAnAnswer }
{}

/// After any events, in any further one before and after which a client serves, no stamp falls: the last word of
/// a manager on a block is not forgotten (the 1996 paper, on cache consistency).
pub fn keeps_stamps()
    ensures stamps { StampsNeverFallAlways }
{}

/// After any events that bring maps of groups, as each is by its type, the map over which a client stripes is one:
/// so each member of a current group is at the generation that its server has in the map.
pub fn stripes_by_present_groups()
    ensures present { StripesByPresentGroupsAlways }
{}

/// These facts as one invariant, for those who go from event to event: a client that serves has sound tokens,
/// asks for its open call alone, puts off recalls of dirty blocks alone, caches just what is held and clean, has
/// just what is dirty and not in flight wait to be written, has in flight the segment after its log's end, and
/// stripes over a map of groups; in the log of one that opens nothing waits, and its maps are such.
///
/// - `start`: a client at the start stands so, where the map of the setup's groups is one.
/// - `events`: each event keeps it so, whatever a packet says, where a map of groups that it brings is one.
pub fn clients_stand_well()
    ensures start { StartsWell }
    ensures events { EventsKeepWell }
{}
