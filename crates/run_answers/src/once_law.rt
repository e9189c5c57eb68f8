//! Each item is answered at most once, by its own node, after its Begin. It has no code of the product: the function below stands for the law that its contract
//! states. `specs/once_law/Ledgers.antt` says it of one event, and `specs/Items.antt` of `headline` of runs.

ghost use Rattle.run_answers.specs.once_law.Ledgers.{EachEventKeepsLedger};
ghost use Rattle.run_answers.specs.once_law.Runs.{EachItemIsAnsweredOnce};

/// Whatever comes to a node, and in whatever order: in an event it answers only items of its own, the one that was open before or the one that the event begins,
/// and what it answers is open no more. So in every run no item is answered twice, nor before its Begin, nor by another node, and the items that are counted as
/// open are those that no act answers.
pub fn items_are_answered_once()
    ensures events { EachEventKeepsLedger }
    ensures runs { EachItemIsAnsweredOnce }
{}
