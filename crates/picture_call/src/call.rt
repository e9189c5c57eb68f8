//! What `xfs_picture` does.
ghost use Rattle.std.specs.Prelude.{◌≡◌, ◌<◌, ◌≤◌, ◌∷◌, [], Some, Err, IfOk, length, map, string_bytes};
ghost use Rattle.node_base.specs.Setups.{IsSetup};
ghost use Rattle.picture_call.specs.Asking.{asked_of, word_of};
ghost use Rattle.picture_call.specs.Shown.{Drawn, Refused, Shows, Written, picture_of, rows_of, told_of};
ghost use Rattle.run_chart.specs.Charts.{max_rows};
ghost use Rattle.run_chart.specs.declared.charting.ChartError.TheVariants.{TooMany};
ghost use Rattle.top_call.specs.Claim.{reading, writing};

use crate::aside::Aside;
use crate::asked::{Asked, read_words};
use board_world::BoardEvent;
use core_world::AnyNode;
use run_chart::{ChartError, board_chart, chart};
use std::alloc::Global;
use top_call::output::write_output;
use top_call::{Sink, Source};
use world_base::Estate;
use xfs_base::{List, Mem, Text};
use xfs_top::solo;

/// Writes a text and ends with this status, or with 5 where the sink fails.
fn tell<K: Sink>(sink: &mut K, text: &[u8], status: u8) -> u8
    ensures { Written (writing K.written K.faults sink.old sink.new) text.now status result }
{
    match write_output(sink, text) {
        Ok(()) => status,
        Err(_) => 5,
    }
}

/// The picture of a run.
fn picture_of(
    alloc: Global,
    asked: Asked,
    estate: &Estate<AnyNode>,
    events: &[BoardEvent],
) -> Result<Text, ChartError>
    requires { IsSetup estate.now.script.setup }
    ensures drawn { IfOk result (λ text. (length (rows_of asked estate.now events.now) ≤ max_rows) × (text ≡ picture_of asked estate.now events.now)) }
    ensures too_many { result ≡ Err TooMany → max_rows < length (rows_of asked estate.now events.now) }
{
    let span = asked.span(estate.script.lines.as_slice());
    match asked {
        Asked::All => chart(alloc, estate, span),
        Asked::Lines(_, _) => chart(alloc, estate, span),
        Asked::Boards => board_chart(alloc, estate, events),
        Asked::Disks => chart(alloc, estate, span),
    }
}

/// Writes the picture of a run, or that it would be too long.
fn draw<K: Sink>(
    alloc: Global,
    asked: Asked,
    estate: &Estate<AnyNode>,
    events: &[BoardEvent],
    sink: &mut K,
) -> u8
    requires { IsSetup estate.now.script.setup }
    ensures { Drawn asked estate.now events.now (writing K.written K.faults sink.old sink.new) result }
{
    match picture_of(alloc, asked, estate, events) {
        Ok(text) => tell(sink, text.as_bytes(), 0),
        Err(ChartError::TooMany) => tell(sink, b"more than 20000 events: name lines A B\n", 3),
        Err(ChartError::Memory) => 7,
    }
}

/// What a call tells of nodes and boards; nothing where it tells nothing.
fn told_of<'a>(
    boards: &'a Option<List<BoardEvent>>,
    nothing: &'a List<BoardEvent>,
) -> &'a [BoardEvent]
    requires { nothing.now ≡ [] }
    ensures { result.now ≡ told_of boards.now }
{
    match boards {
        None => nothing.as_slice(),
        Some(events) => events.as_slice(),
    }
}

/// Writes why there is no run.
fn refuse<K: Sink>(status: u8, text: &Text, sink: &mut K) -> u8
    ensures { Refused status text.now (writing K.written K.faults sink.old sink.new) result }
{
    match status {
        3 => tell(sink, text.as_bytes(), 3),
        4 => 4,
        _ => 7,
    }
}

/// The words by which `solo` plays what it reads.
fn words_by(alloc: Global, asked: Asked) -> Mem<Vec<String>>
    ensures { IfOk result (λ words. map string_bytes words.items ≡ word_of asked ∷ []) }
{
    let mut words = Vec::new(alloc);
    words.push(String::from_str(alloc, asked.word())?)?;
    Ok(words)
}

/// Plays what is read, and draws its run.
fn show<S: Source, K: Sink>(
    alloc: Global,
    asked: Asked,
    words: &[String],
    source: &mut S,
    sink: &mut K,
) -> u8
    requires { map string_bytes words.now ≡ word_of asked ∷ [] }
    ensures { Shows (Some asked) (reading S.left S.faults source.old source.new)
        (writing K.written K.faults sink.old sink.new) result }
{
    let mut aside = Aside::new(alloc);
    let outcome = solo(alloc, words, source, &mut aside);
    let nothing = List::new(alloc);
    let events = told_of(&outcome.boards, &nothing);
    match &outcome.estate {
        Some(estate) => draw(alloc, asked, estate, events, sink),
        None => refuse(outcome.status, &aside.text, sink),
    }
}

/// What `xfs_picture` does: it plays the script that it reads as `xfs` does by the word `run`, `boards` or `disks`, and
/// writes the picture of the run.
/// 0: all was written. 2: the words are no form. 3: the input is no script, which is said as `xfs` says it, or more
/// than 20,000 events would be drawn. 4: a read failed. 5: a write failed. 7: want of memory.
pub fn picture<S: Source, K: Sink>(
    alloc: Global,
    words: &[String],
    source: &mut S,
    sink: &mut K,
) -> u8
    ensures { Shows (asked_of (map string_bytes words.now)) (reading S.left S.faults source.old source.new)
        (writing K.written K.faults sink.old sink.new) result }
{
    match read_words(words) {
        None => tell(
            sink,
            b"usage: xfs_picture [lines A B | boards | disks]\n",
            2,
        ),
        Some(asked) => match words_by(alloc, asked) {
            Ok(words) => show(alloc, asked, words.as_slice(), source, sink),
            Err(_) => 7,
        },
    }
}
