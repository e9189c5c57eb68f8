//! What the two small worlds of one slot of the map give each other at a moment of both: that of tokens, which knows who may hold and write a block, and that
//! of the index, which knows where its versions lie. `specs/index_reads/Ties.antt` says how they tell of the same logs. It has no code: the
//! contract of each function below is a law.

ghost use Rattle.run_laws.specs.index_reads.Clients.{FlightsAreNews, NothingIsNewer};
ghost use Rattle.run_laws.specs.index_reads.IndexLaws.{IndexLaws};
ghost use Rattle.run_laws.specs.index_reads.Managers.{DeltasAreCovered, FoundGather, ManagersAreTold, MissingGather, ReportsGather};
ghost use Rattle.run_laws.specs.index_reads.Places.{PlacesAreKept};
ghost use Rattle.run_laws.specs.index_reads.Rows.{DeltasAreSaid, RowsAreEntries};

use crate::world_index::index_events_are_seen;
use index_tie::cleaning_loses_nothing;

/// What a segment says of a block to the one small world, a version and its value, it says to the other, a version and where it lies.
///
/// - `entries`: of each block both are of one version, and where it lies in the segment there is its value.
/// - `deltas`: each Delta of the segment is what it says of the Delta's block.
/// - `places`: where a filed segment says that a version lies at a place, the books have that version there, with the value of the item.
pub fn rows_are_entries()
    ensures entries { RowsAreEntries }
    ensures deltas { DeltasAreSaid }
    ensures places { PlacesAreKept }
{}

/// What tokens give the index.
///
/// - `news`: what a client has in flight, or had when it fell, is newer than all that is filed of each block of the slot that it names, and at first hand.
/// - `nothing`: a segment that says nothing of blocks is news of each.
pub fn flights_are_news()
    ensures news { FlightsAreNews }
    ensures nothing { NothingIsNewer }
{}

/// What the index gives tokens.
///
/// - `deltas`: Deltas that tell what their log filed cover the index of the slot that they join on to.
/// - `reports`, `found`, `missing`: what a takeover gathered that a report, or an answer of a server, ends, is what was filed: each log up to its reported end
///   at least, no further than it is filed, and of each block the newest version of that.
/// - `events`: so each event of a manager that both small worlds see is owed what the small world of tokens asks of it.
pub fn managers_are_told()
    ensures deltas { DeltasAreCovered }
    ensures reports { ReportsGather }
    ensures found { FoundGather }
    ensures missing { MissingGather }
    ensures events { ManagersAreTold }
{}

/// What nodes do is seen in the small world of a slot's index, and what stands of that.
pub fn index_laws()
    ensures { IndexLaws }
{
    index_events_are_seen();
    cleaning_loses_nothing();
    flights_are_news();
    managers_are_told();
}
