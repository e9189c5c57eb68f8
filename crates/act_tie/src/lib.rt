//! The bridge between the acts of a run, which speak of all blocks, and the acts of one block, which the abstract token protocol tells: whoever shows
//! that the acts of each block are legal has shown that the acts of the run are. It has no code: each function below has an empty body, and its
//! contract is a law.
#![tactic(auto)]

ghost use Rattle.std.specs.Prelude.{◌≡◌, List, None};
ghost use Rattle.xfs_base.specs.declared.block.BlockId.{BlockId};
ghost use Rattle.version_model.specs.declared.act.Act.{Act};
ghost use Rattle.version_model.specs.Effects.{history_after};
ghost use Rattle.version_model.specs.History.{Content, nothing_yet};
ghost use Rattle.version_model.specs.Legal.{AreLegal};
ghost use Rattle.token_protocol.specs.Acts.{LegalActs, history};
ghost use Rattle.act_tie.specs.BlockActs.{acts_of};
ghost use Rattle.act_tie.specs.Number.{number};
ghost use Rattle.act_tie.specs.Shown.{HistoryShown};
ghost use Rattle.version_model.specs.Falls.{FallsApart};

/// A value and its number: what is absent is 0, and two values that have one number are one value.
pub fn numbers()
    ensures absent { number None ≡ 0 }
    ensures apart { (x y : Content) → number x ≡ number y → x ≡ y }
{}

/// The acts of a run whose falls are apart (no client falls again before it is back, and no fall names a block twice).
///
/// - `legal`: where the acts of each block are legal as the token protocol has them, they are legal as the version model has them.
/// - `history`: where those of one block are, its history is the one that they make.
pub fn blocks()
    ensures legal { (acts : List Act) → FallsApart acts → ((b : BlockId) → LegalActs (acts_of b acts)) → AreLegal acts }
    ensures history { (acts : List Act) → FallsApart acts → (b : BlockId) → LegalActs (acts_of b acts)
        → HistoryShown b (history_after acts nothing_yet) (history (acts_of b acts)) }
{}
