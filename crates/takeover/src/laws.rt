//! What holds of every takeover. Each function stands for the law that its contract states; a call of it does
//! nothing.
ghost use Rattle.std.specs.Prelude.{◌≡◌, ℕ, List, [], Contains};
ghost use Rattle.group_map.specs.GroupMapState.{GroupMapState};
ghost use Rattle.xfs_base.specs.declared.block.BlockId.{BlockId};
ghost use Rattle.xfs_base.specs.declared.entry.Entry.{Entry};
ghost use Rattle.xfs_base.specs.declared.news.SlotNews.{SlotNews};
ghost use Rattle.xfs_base.specs.declared.segment.SegName.{SegName};
ghost use Rattle.xfs_base.specs.declared.token.Mode.{Mode};
ghost use Rattle.takeover.specs.declared.input.In.{In};
ghost use Rattle.takeover.specs.declared.output.Out.TheVariants.{Active, Lost};
ghost use Rattle.takeover.specs.Course.{course_of, after_input, IsTakenOver, IsOver};
ghost use Rattle.takeover.specs.TakeState.{TakeState};
ghost use Rattle.takeover.specs.Transition.{transition};

/// Whatever a takeover takes: when it hands a slot out, all nodes have reported, the checkpoint and the logs behind
/// it are read whole, and the index is the join of what they tell of the slot's blocks.
pub fn index_is_the_join()
    ensures { (news : SlotNews) (groups : GroupMapState) (clients : ℕ) (inputs : List In) (input : In) (epoch : ℕ) (index : List (BlockId × Entry))
        (beliefs : List (BlockId × ℕ × Mode)) (applied : List ℕ)
        → Contains (transition (course_of news groups clients inputs).state input).outs (Active epoch index beliefs applied)
        → IsTakenOver news (after_input (course_of news groups clients inputs) input) epoch index beliefs applied }
{}

/// A takeover is over once it has handed the slot out or said that it is broken, and stays so: nothing more is said.
pub fn nothing_comes_after_the_end()
    ensures handed { (news : SlotNews) (groups : GroupMapState) (clients : ℕ) (inputs : List In) (input : In) (epoch : ℕ) (index : List (BlockId × Entry))
        (beliefs : List (BlockId × ℕ × Mode)) (applied : List ℕ)
        → Contains (transition (course_of news groups clients inputs).state input).outs (Active epoch index beliefs applied)
        → IsOver (transition (course_of news groups clients inputs).state input).state }
    ensures lost { (news : SlotNews) (groups : GroupMapState) (clients : ℕ) (inputs : List In) (input : In) (name : SegName)
        → Contains (transition (course_of news groups clients inputs).state input).outs (Lost name)
        → IsOver (transition (course_of news groups clients inputs).state input).state }
    ensures silent { (s : TakeState) (input : In) → IsOver s → (transition s input).outs ≡ [] }
    ensures stays { (s : TakeState) (input : In) → IsOver s → IsOver (transition s input).state }
{}
