//! Writing a whole text.
ghost use Rattle.std.specs.Prelude.{◌<◌, ◌≤◌, [], length, take, IfOk, OnOk, OnErr};
ghost use Rattle.std.specs.Io.KnownBytes.{Appends};
ghost use Rattle.xfs_base.specs.Causes.{CountsFaults};
ghost use Rattle.top_call.specs.Output.{AppendsFront};

use crate::Sink;
use xfs_base::Failed;

/// One turn of writing: at least one byte of the piece was taken, or the sink's count of faults rose.
pub fn write_turn<K: Sink>(sink: &mut K, piece: &[u8]) -> Result<usize, Failed>
    requires { 0 < length piece.now }
    ensures took { IfOk result (λ n. (0 < n) × (n ≤ length piece.now)) }
    ensures wrote { IfOk result (λ n. Appends (K.written sink.old) (K.written sink.new) (take n piece.now)) }
    ensures nothing { OnErr result (Appends (K.written sink.old) (K.written sink.new) []) }
    ensures cause { CountsFaults (K.faults sink.old) (K.faults sink.new) result }
{
    let taken = sink.write(piece)?;
    if taken == 0 {
        return Err(Failed);
    }
    Ok(taken)
}

/// Writes the whole text, or a front of it where the sink fails: `Failed` only where the sink's count of
/// faults rose.
pub fn write_output<K: Sink>(sink: &mut K, text: &[u8]) -> Result<(), Failed>
    ensures ok { OnOk result (Appends (K.written sink.old) (K.written sink.new) text.now) }
    ensures front { OnErr result (AppendsFront (K.written sink.old) (K.written sink.new) text.now) }
    ensures cause { CountsFaults (K.faults sink.old) (K.faults sink.new) result }
{
    let mut done = 0;
    while done < text.len() {
        let (_, rest) = text.split_at(done);
        let taken = write_turn(sink, rest)?;
        done += taken;
    }
    Ok(())
}
