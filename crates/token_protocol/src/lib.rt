//! The abstract token protocol: one block, with its clients, its reigning manager, its logs and its packets, and what is true of it at every
//! moment of every run, whatever is lost, repeated or reordered and whichever nodes stop. It stands on std alone and has no code: each function
//! below has an empty body, and its contract is a law. `docs/PROTOCOL_TOKENS.md` says which file answers which question.
#![tactic(auto)]

ghost use Rattle.std.specs.Prelude.{◌≡◌, ℕ, suc, Bool, true, ◌⊎◌};
ghost use Rattle.token_protocol.specs.Basics.{In};
ghost use Rattle.token_protocol.specs.Acts.{LegalActs};
ghost use Rattle.token_protocol.specs.Example.{moment37, example_acts, example_kinds};
ghost use Rattle.token_protocol.specs.Growth.{Grows};
ghost use Rattle.token_protocol.specs.Kind.{Kind};
ghost use Rattle.token_protocol.specs.Kinds.{kinds};
ghost use Rattle.token_protocol.specs.Laws.{SingleOwner, EpochPromised, BeliefsCover, AcceptableBelieved, NoHolderAfterFall, HoldersNewest, ReadsLegal, JoinIsJoin, JoinNewest, DirtyLeads, FallsLegal, ReturnsLegal, OffersJoined, AcceptableJoins, PlacesFiled, IndexBounded, FlightsNew, FallsSettled, OwnersSettled, RowsKnown, CleanerIdle, CleanerEmpty};
ghost use Rattle.token_protocol.specs.Stamps.{TakenSeen, EqualSeen, StampedSeen, ActivationSeen, PromiseSeen, Unheard};
ghost use Rattle.token_protocol.specs.OtherExample.{other_moment36, other_acts, other_kinds};
ghost use Rattle.token_protocol.specs.Step.{Steps};
ghost use Rattle.token_protocol.specs.Told.{told};
ghost use Rattle.token_protocol.specs.World.{World, start};

/// The law of tokens, for every list of steps and any number of clients, whether or not the logs keep their word (the 1996 paper,
/// on cache consistency: ownership of a block is given by its manager alone, after it has taken the block from every other holder).
///
/// - `single_owner`: where a client owns the block, no other holds it.
/// - `epoch_promised`: every client has promised at least the epoch of the reigning manager.
/// - `beliefs_cover`: the reigning manager believes of each client at least what it holds or fetches, and believes one owner.
/// - `acceptable_believed`: what a client could still accept is believed of it.
/// - `no_holder_after_fall`: between a fall with the block dirty and the return, nobody holds the block.
pub fn tokens()
    ensures single_owner { (logs : Bool) (n : ℕ) (w : World) → Steps logs (start n) w → SingleOwner w }
    ensures epoch_promised { (logs : Bool) (n : ℕ) (w : World) → Steps logs (start n) w → EpochPromised w }
    ensures beliefs_cover { (logs : Bool) (n : ℕ) (w : World) → Steps logs (start n) w → BeliefsCover w }
    ensures acceptable_believed { (logs : Bool) (n : ℕ) (w : World) → Steps logs (start n) w → AcceptableBelieved w }
    ensures no_holder_after_fall { (logs : Bool) (n : ℕ) (w : World) → Steps logs (start n) w → NoHolderAfterFall w }
{}

/// The law of the block, for every list of steps whose logs keep their word (the premises of `specs/Premises.antt`) and any number of clients.
///
/// - `holders_newest`: who holds the block has its newest version and that version's value.
/// - `reads_legal`: each read is of the newest version and its value.
/// - `join_is_join`: the join's version is the greatest that is filed.
/// - `join_newest`: where nobody has the block dirty and nobody fell with it, the join is the newest version, with its value.
/// - `dirty_leads`: a dirty block is owned, its settled version is the join, and all versions above the join are its owner's.
/// - `falls_legal`: each fall falls to versions at or above what was read elsewhere or synced, and loses only what the client wrote itself.
/// - `returns_legal`: that stays so until the return, which cuts the history to one of these two versions.
/// - `acts_legal`: the acts that a run tells, each judged by the history that the acts before it made and by nothing of this machine, are legal.
pub fn block()
    ensures holders_newest { (n : ℕ) (w : World) → Steps true (start n) w → HoldersNewest w }
    ensures reads_legal { (n : ℕ) (w : World) → Steps true (start n) w → ReadsLegal w }
    ensures join_is_join { (n : ℕ) (w : World) → Steps true (start n) w → JoinIsJoin w }
    ensures join_newest { (n : ℕ) (w : World) → Steps true (start n) w → JoinNewest w }
    ensures dirty_leads { (n : ℕ) (w : World) → Steps true (start n) w → DirtyLeads w }
    ensures falls_legal { (n : ℕ) (w : World) → Steps true (start n) w → FallsLegal w }
    ensures returns_legal { (n : ℕ) (w : World) → Steps true (start n) w → ReturnsLegal w }
    ensures acts_legal { (n : ℕ) (w : World) (steps : Steps true (start n) w) → LegalActs (told (start n) w steps) }
{}

/// The law of what is offered, for every list of steps whose logs keep their word.
///
/// - `joined`: every offer is of a version that is filed.
/// - `acceptable`: what a client may still take is of the join's version.
/// - `places`: the places that the index, offers and fetches name are filed rows.
/// - `index`: the index is at least what is applied and at most the join, and what is applied is filed.
pub fn offers()
    ensures joined { (n : ℕ) (w : World) → Steps true (start n) w → OffersJoined w }
    ensures acceptable { (n : ℕ) (w : World) → Steps true (start n) w → AcceptableJoins w }
    ensures places { (n : ℕ) (w : World) → Steps true (start n) w → PlacesFiled w }
    ensures index { (n : ℕ) (w : World) → Steps true (start n) w → IndexBounded w }
{}

/// The law of clients' logs, for every list of steps whose logs keep their word.
///
/// - `flights_new`: what a client has in flight is above all that is filed, and no newer than what it holds.
/// - `falls_settled`: who fell had settled the join, and returns to that or to what it had in flight.
/// - `owners_settled`: an owner's settled version is the join.
/// - `rows_known`: rows are versions of the history, with their values, and stand where logs are filed or in flight.
pub fn logs()
    ensures flights_new { (n : ℕ) (w : World) → Steps true (start n) w → FlightsNew w }
    ensures falls_settled { (n : ℕ) (w : World) → Steps true (start n) w → FallsSettled w }
    ensures owners_settled { (n : ℕ) (w : World) → Steps true (start n) w → OwnersSettled w }
    ensures rows_known { (n : ℕ) (w : World) → Steps true (start n) w → RowsKnown w }
{}

/// The cleaner as a member (the 1996 paper, on cleaning, gives it a log of its own): it is member 0 beside n clients, whose numbers begin at 1, so what is
/// said of every member's promises is said of the cleaner's.
///
/// - `idle`: it asks for nothing, so it holds nothing, and whatever else happens it only promises and reports.
/// - `empty`: where logs keep their word, its log here is empty, and each version was written by a client.
pub fn cleaner()
    ensures idle { (logs : Bool) (n : ℕ) (w : World) → Steps logs (start n) w → CleanerIdle w }
    ensures empty { (n : ℕ) (w : World) → Steps true (start (suc n)) w → CleanerEmpty w }
{}

/// What only grows over any list of steps from any moment of a run whose logs keep their word: epochs, promises, incarnations, what is filed and its
/// values, what is pinned, the packets sent and, under one manager, turns and what is applied.
pub fn growth()
    ensures grows { (n : ℕ) (w v : World) → Steps true (start n) w → Steps true w v → Grows w v }
{}

/// How stamps of several epochs, as nodes keep them, are seen here, where a client's stamp is a turn of the reigning epoch.
///
/// - `taken`, `equal`, `stamped`: the tests of a client on a packet of the epoch that it promised, and what it keeps after.
/// - `activated`, `promised`: a later epoch begins to reign, or is promised.
/// - `unheard`: a manager that completes its reports below the reigning epoch is heard by nobody.
pub fn stamps()
    ensures taken { TakenSeen }
    ensures equal { EqualSeen }
    ensures stamped { StampedSeen }
    ensures activated { ActivationSeen }
    ensures promised { PromiseSeen }
    ensures unheard { (logs : Bool) (n : ℕ) (w : World) → Steps logs (start n) w → Unheard w }
{}

/// Every guard and premise can be met: two runs of two clients and the cleaner, with logs that keep their word, take each kind of step at least once, and
/// tell these acts.
///
/// - `fault_run`: a client writes, is recalled and gives, another reads a place, the first falls with its tail in flight and returns with it adopted,
///   a later manager takes over, the cleaner copies, and the first falls again and returns with nothing adopted.
/// - `calm_run`: what the first leaves out, as repetitions, an absent block, a refused write, a Supply, a sync, an eviction, a clean fall.
pub fn example()
    ensures fault_run { (steps : Steps true (start 3) moment37)
        × ((told (start 3) moment37 steps ≡ example_acts) × (kinds steps ≡ example_kinds)) }
    ensures calm_run { (steps : Steps true (start 3) other_moment36)
        × ((told (start 3) other_moment36 steps ≡ other_acts) × (kinds steps ≡ other_kinds)) }
    ensures every_kind { (k : Kind) → (k ≡ Kind.Loses → ⊥) → In k example_kinds ⊎ In k other_kinds }
{}
