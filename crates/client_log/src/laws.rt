//! What is true of a log, whatever it took before. Each function stands for the law that its contract
//! states; a call of it does nothing. A history is what a log took, oldest first.
ghost use Rattle.std.specs.Prelude.{◌≡◌, ℕ, IfSome, List, true};
ghost use Rattle.std.specs.List.{AllByRecursion};
ghost use Rattle.xfs_base.specs.declared.block.BlockId.{BlockId};
ghost use Rattle.xfs_base.specs.declared.segment.End.{End};
ghost use Rattle.xfs_base.specs.declared.segment.LogId.{LogId};
ghost use Rattle.group_map.specs.GroupMapState.{GroupMapState};
ghost use Rattle.log_flight.specs.declared.dirty.Change.{Change};
ghost use Rattle.client_log.specs.declared.input.In.{In};
ghost use Rattle.client_log.specs.LogState.{LogState, log_start};
ghost use Rattle.client_log.specs.Transition.{transition, waits, can_go_on, on_put};
ghost use Rattle.client_log.specs.History.{state_after, IsInLine, EndRisesByOne, TellsWhatIsDue, FlightFollows, AreLastPuts, HoldsLastPuts, NothingIsLost, WaitsOrFlies};

/// The segment in flight has the next number, is of its owner's incarnation, and names the end as the one
/// before it.
pub fn flight_is_next()
    ensures { (log : LogId) (inc : ℕ) (end : End) (groups : GroupMapState) (history : List In) → IsInLine (state_after (log_start log inc end groups) history) }
{}

/// The end never falls: it stays, or rises by one with a segment that is settled.
pub fn end_rises_by_one()
    ensures { (log : LogId) (inc : ℕ) (end : End) (groups : GroupMapState) (history : List In) (input : In)
        → EndRisesByOne (state_after (log_start log inc end groups) history) (transition (state_after (log_start log inc end groups) history) input) }
{}

/// What is told as settled is the flight, with what its Deltas say, once no more of its members are lost
/// than its group has parity and each is noted or lost: a server's answer counts as noted only where it is
/// of the flight, by name, place and generation.
pub fn settles_what_is_due()
    ensures { (s : LogState) (input : In) → AllByRecursion (TellsWhatIsDue s input) (transition s input).outs }
{}

/// A segment in flight goes on, with no more noted of it than an answer of its own tells; or is the next
/// attempt of what flew, with the same content and an attempt one higher, where more members are lost than
/// the group has parity; or has begun behind the end, by its first attempt, where nothing flew before or
/// what flew is that end. Of one that is sent anew nothing is noted. Where nothing is in flight nothing was,
/// or what was is the end.
pub fn attempts_rise()
    ensures { (s : LogState) (input : In) → FlightFollows s input (transition s input).state }
{}

/// What waits of a block is what was put last of it, among the puts that had an effect.
pub fn last_put_waits()
    ensures { (log : LogId) (inc : ℕ) (end : End) (groups : GroupMapState) (history : List In)
        → AreLastPuts (log_start log inc end groups) history (state_after (log_start log inc end groups) history).dirty }
{}

/// What is sealed of a block is what was put last of it, among the puts that had an effect: a flight holds
/// what flew before, what was given as items, or changes of which each was put last.
pub fn last_put_is_sealed()
    ensures { (log : LogId) (inc : ℕ) (end : End) (groups : GroupMapState) (history : List In) (input : In)
        → IfSome (transition (state_after (log_start log inc end groups) history) input).state.flight
        (λ g. HoldsLastPuts (log_start log inc end groups) history input g.segment.items) }
{}

/// A put that has an effect is not lost: its version waits, or is in flight. It has none only where it would
/// seal a segment whose number can't rise.
pub fn puts_are_kept()
    ensures { (s : LogState) (block : BlockId) (change : Change) → can_go_on (waits s block change) ≡ true
        → WaitsOrFlies (on_put s block change).state block change }
{}

/// What waits leaves only into the flight: after any input all of it waits, in the same order, or the first
/// of it are what is in flight, and the rest wait.
pub fn nothing_is_lost()
    ensures { (s : LogState) (input : In) → NothingIsLost s input (transition s input).state }
{}
