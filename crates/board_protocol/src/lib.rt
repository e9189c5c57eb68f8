//! The abstract protocol of three boards that agree on one list of commands, whatever is lost, repeated or reordered and whichever boards stop and
//! start, and what is true of them at every moment of every run. It stands on std alone and has no code: each function below has an empty body, and
//! its contract is a law. C is the type of commands: any type will do, with no test of equality. Whose each ballot is, is left open: any owner of each
//! ballot will do.
#![tactic(auto)]

ghost use Rattle.std.specs.Prelude.{ℕ, List, length, ◌≡◌, ◌<◌};
ghost use Rattle.board_protocol.specs.Basics.{Prefix};
ghost use Rattle.board_protocol.specs.Example.{turns, moment23};
ghost use Rattle.board_protocol.specs.Growth.{Grows};
ghost use Rattle.board_protocol.specs.Kinds.{TakesEach};
ghost use Rattle.board_protocol.specs.Laws.{Chosen, Agree, DoneChosen, AppliedChosen, OneLeader, Booked, HadTwice};
ghost use Rattle.board_protocol.specs.Step.{Steps};
ghost use Rattle.board_protocol.specs.World.{World, start, Leads};

/// The law of chosen lists, for every list of steps and any owners of ballots.
///
/// - `agree`: of two chosen lists one is a prefix of the other, though they were chosen with two ballots.
/// - `accepted_twice`: a list that two boards had as a prefix of theirs with one ballot, each at a moment of its own, is chosen from then on.
/// - `had_twice`: and nothing else is chosen, but the empty list.
/// - `stays`: what is chosen stays chosen.
pub fn chosen<C>()
    ensures agree { (owner : ℕ → ℕ) (w : World C) → Steps (start owner) w → Agree w }
    ensures accepted_twice { (owner : ℕ → ℕ) (w u v : World C) → Steps (start owner) w → Steps w u → Steps u v
        → (i j : ℕ) → i < 3 → j < 3 → (i ≡ j → ⊥) → (w.board i).ballot ≡ (u.board j).ballot
        → (xs : List C) → Prefix xs (w.board i).list → Prefix xs (u.board j).list → Chosen v xs }
    ensures had_twice { (owner : ℕ → ℕ) (v : World C) → Steps (start owner) v → (xs : List C) → 0 < length xs → Chosen v xs → HadTwice owner v xs }
    ensures stays { (owner : ℕ → ℕ) (w v : World C) → Steps (start owner) w → Steps w v → (xs : List C) → Chosen w xs → Chosen v xs }
{}

/// The law of boards, for every list of steps.
///
/// - `done`: what a leader holds for done is a chosen part of its list.
/// - `applied`: what a board has applied, in order, is chosen, so a prefix of each chosen list that is as long.
/// - `followed`: what a board has of a ballot that is another's is chosen.
/// - `one_leader`: a ballot has one leader.
/// - `booked`: what the ghosts say of the lists that boards have.
pub fn boards<C>()
    ensures done { (owner : ℕ → ℕ) (w : World C) → Steps (start owner) w → (k : ℕ) → k < 3 → Leads w k → DoneChosen w k }
    ensures applied { (owner : ℕ → ℕ) (w : World C) → Steps (start owner) w → (k : ℕ) → k < 3 → AppliedChosen w k }
    ensures followed { (owner : ℕ → ℕ) (w : World C) → Steps (start owner) w → (k : ℕ) → k < 3 → w.owner (w.board k).ballot < 3
        → (k ≡ w.owner (w.board k).ballot → ⊥) → Chosen w (w.board k).list }
    ensures one_leader { (owner : ℕ → ℕ) (w : World C) → Steps (start owner) w → OneLeader w }
    ensures booked { (owner : ℕ → ℕ) (w : World C) → Steps (start owner) w → (k : ℕ) → Booked w k }
{}

/// What only grows over any list of steps from any moment of a run: promises, ballots, accepted lengths, the list of each ballot's leader, what was
/// applied, and the packets sent; and below its promise a board accepts nothing more.
pub fn growth<C>()
    ensures grows { (owner : ℕ → ℕ) (w v : World C) → Steps (start owner) w → Steps w v → Grows w v }
{}

/// Every guard can be met: a run takes each kind of step at least once, with ballots in turns.
pub fn example()
    ensures run { (steps : Steps (start turns) moment23) × TakesEach steps }
{}
