//! What is true after any inputs. Each function stands for the law that its contract states; a call of it
//! does nothing.
ghost use Rattle.std.specs.Prelude.{◌≡◌, List};
ghost use Rattle.xfs_base.specs.declared.block.BlockId.{BlockId};
ghost use Rattle.xfs_base.specs.declared.segment.LogId.{LogId};
ghost use Rattle.xfs_base.specs.declared.segment.SegRef.{SegRef};
ghost use Rattle.delta_index.specs.Index.{entry_of};
ghost use Rattle.delta_index.specs.Join.{join};
ghost use Rattle.checkpoint.specs.declared.input.In.{In};
ghost use Rattle.checkpoint.specs.Laws.{Event, rows_in, fresh, after_input, run_of, SettlesAsGiven, AllSettleAsGiven, DoneAsAsked, nothing_checkpointed, after_event, slot_after, MayCome, AllMayCome};
ghost use Rattle.checkpoint.specs.Laws.Event.{Written};
ghost use Rattle.checkpoint.specs.Transition.{transition};
ghost use Rattle.checkpoint.specs.WriterState.{Rows};

/// Whatever a writer takes: where each segment that settles meanwhile holds the rows that were given out
/// for it, a checkpoint that is done is the one that was begun last, and the parts that it names hold, one
/// after the other, what the parts held that were handed to it, and then its pages.
pub fn parts_hold_what_was_begun()
    ensures { (holds : SegRef → Rows) (log : LogId) (inputs : List In) (input : In)
        → AllSettleAsGiven holds (fresh log) inputs → SettlesAsGiven holds (run_of holds log inputs) input
        → DoneAsAsked holds (after_input holds (run_of holds log inputs) input).asked (transition (run_of holds log inputs).state input).outs }
{}

/// Whatever is merged into a slot's index, and however often it is written by the plan: the rows of the
/// parts that a checkpoint names, joined in their order, are those of the index when it was begun.
pub fn checkpoint_is_the_index()
    ensures { (holds : SegRef → Rows) (events : List Event) (segments : List SegRef) (block : BlockId)
        → AllMayCome holds nothing_checkpointed events → MayCome holds (slot_after events) (Written segments)
        → join (rows_in holds (after_event (slot_after events) (Written segments)).parts) block ≡ entry_of (slot_after events).pages.rows block }
{}
