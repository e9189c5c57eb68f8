//! Acts belong to items. It has no code of the product: the function below stands for the law that its contract states. `specs/Calls.antt` of
//! `headline` says what a client acts for its open call and in one event, `specs/ItemActs.antt` there says it of runs, and `specs/own_law/Others.antt` here what no
//! other node acts.

ghost use Rattle.run_answers.specs.own_law.Answered.{EachCallIsAnswered};
ghost use Rattle.run_answers.specs.own_law.Events.{EachClientActsForItems};
ghost use Rattle.run_answers.specs.own_law.Others.{OthersActNone};
ghost use Rattle.run_answers.specs.own_law.Runs.{EachRunsClientsActForItems};
ghost use Rattle.run_answers.specs.own_law.Whole.{EachCallHasRun};

/// Whatever comes to a client whose open call is that of an open item, what it acts in the event, but that segments are filed or lost, it acts for its items, and
/// nothing besides: of its open call, or of the one that begins, what the answers to its calls on blocks tell of, each an answer to the call on blocks that the
/// plan of the call makes then; and as soon as the plan replies, the answer of the item, and nothing behind. With no call open, and where none begins, it acts
/// nothing of blocks. That it falls it acts only by an item that crashes it while it serves, and that it is back only where its opening ends. Its open call is that
/// of an open item then, too. Other nodes act none of these.
///
/// So whatever events a script's world goes through, what is acted of blocks, of falls and of returns, is acted by an event of a client, and names it; of blocks it
/// is for a call on files that an item of the client asks for, or the item asks for one call on blocks, of which it tells, and the answer stands directly behind,
/// and these two are all that the event acts of items. And from the Begin of an item on, over all events, what its client acts of blocks is one stretch of the
/// call that the item asks for; where that is answered, and not as busy, down, up, cut or lost, it is the whole of it, and the answer is the last of it.
pub fn clients_act_for_their_items()
    ensures events { EachClientActsForItems }
    ensures others { OthersActNone }
    ensures runs { EachRunsClientsActForItems }
    ensures calls { EachCallHasRun }
    ensures answered { EachCallIsAnswered }
{}
