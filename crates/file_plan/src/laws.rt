//! What is true of formats, of the order of writes and of the file tree. Each function stands for the laws
//! that its contract states; a call of it does nothing.
ghost use Rattle.std.specs.Prelude.{◌≡◌, ◌≤◌};
ghost use Rattle.version_model.specs.declared.file_call.FileCall.{FileCall};
ghost use Rattle.file_plan.specs.Driving.{MeetsTree, IsShort, most_steps, AllMeetFromNothing, WritesOverItsReads, ReadsAgain, nothing_written};
ghost use Rattle.file_plan.specs.Example.{replies_of, calls, told, long_calls, long_told};
ghost use Rattle.file_plan.specs.Formats.{BucketsAreExact, SizesAreExact};
ghost use Rattle.file_plan.specs.WriteOrder.{RemovesEntryFirst, AddsBeforeItRemoves};

/// A bucket is read exactly where it is of its form, and as what was written; so is a size.
pub fn formats_are_exact()
    ensures buckets { BucketsAreExact }
    ensures sizes { SizesAreExact }
{}

/// The law of the file tree (the 1996 paper, "File Directories and Index Numbers"), where nobody else
/// writes while a call runs.
///
/// - `meets`: on a sound table every call replies within `most_steps` calls on blocks, as the tree has
///   it, and leaves a sound table that holds the tree's change.
/// - `few`: these are at most 275 calls on blocks for a call that a script can have.
/// - `from_nothing`: from nothing, in whatever order calls of whichever clients come, each replies as the
///   tree has it.
pub fn calls_keep_the_tree()
    ensures meets { (call : FileCall) → MeetsTree call }
    ensures few { (call : FileCall) → IsShort call → most_steps call ≤ 275 }
    ensures from_nothing { AllMeetFromNothing }
{}

/// Whoever else writes and whatever is answered.
///
/// - `own`: a call writes at a version only over one that it has itself read.
/// - `again`: where such a write was refused, it reads that block again.
pub fn writes_are_over_own_reads()
    ensures own { WritesOverItsReads }
    ensures again { ReadsAgain }
{}

/// The order of writes, whoever else writes and whatever is answered.
///
/// - `removes`: a removal takes the entry out before it makes any block Absent, and writes nothing else.
/// - `moves`: a move puts the second entry in, waits until all is settled, and only then takes the first
///   entry out, and writes nothing else.
pub fn writes_keep_their_order()
    ensures removes { RemovesEntryFirst }
    ensures moves { AddsBeforeItRemoves }
{}

/// Worked calls on an empty table, with their replies.
///
/// - `short`: seventeen calls of two clients, with most refusals among them.
/// - `long`: ten calls, with a text of 10,000 bytes and names of 60 and 61 letters.
pub fn worked_calls_reply_so()
    ensures short { replies_of nothing_written calls ≡ told }
    ensures long { replies_of nothing_written long_calls ≡ long_told }
{}
