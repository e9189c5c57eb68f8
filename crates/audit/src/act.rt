//! Reading a line of an act.
ghost use Rattle.script_text.specs.Outcome.{Answers};
ghost use Rattle.audit.specs.Acts.{read_each, read_fall, read_segment, act_of, read_act};

use crate::part::{
    read_block, read_client, read_fall, read_flight, read_segment, read_value, read_version,
    read_writer,
};
use crate::shape::{Verb, shape_of};
use script_text::word::Words;
use script_text::{Kind, LineError};
use std::alloc::Global;
use version_model::{Act, Fall};
use xfs_base::{List, SegName};

/// The falls that the words left name.
fn read_falls(alloc: Global, words: &mut Words) -> Result<List<Fall>, LineError>
    ensures { Answers result (read_each read_fall words.old) }
{
    let mut falls = List::new(alloc);
    while !words.is_end() {
        falls.push(read_fall(words.next())?)?;
    }
    Ok(falls)
}

/// The segments that the words left name.
fn read_segments(alloc: Global, words: &mut Words) -> Result<List<SegName>, LineError>
    ensures { Answers result (read_each read_segment words.old) }
{
    let mut segments = List::new(alloc);
    while !words.is_end() {
        segments.push(read_segment(words.next())?)?;
    }
    Ok(segments)
}

/// A write.
fn read_wrote(alloc: Global, words: &mut Words) -> Result<Act, LineError>
    ensures { Answers result (act_of Verb.Wrote words.old) }
{
    let client = read_client(words.next())?;
    let block = read_block(words.next())?;
    let value = read_value(alloc, words.rest())?;
    Ok(Act::Wrote {
        client,
        block,
        value,
    })
}

/// A read.
fn read_read(alloc: Global, words: &mut Words) -> Result<Act, LineError>
    ensures { Answers result (act_of Verb.Read words.old) }
{
    let client = read_client(words.next())?;
    let block = read_block(words.next())?;
    let ver = read_version(words.next())?;
    let value = read_value(alloc, words.rest())?;
    Ok(Act::Read {
        client,
        block,
        ver,
        value,
    })
}

/// What a crashed client may lose.
fn read_fell(alloc: Global, words: &mut Words) -> Result<Act, LineError>
    ensures { Answers result (act_of Verb.Fell words.old) }
{
    let client = read_client(words.next())?;
    let flight = read_flight(words.next())?;
    let falls = read_falls(alloc, words)?;
    Ok(Act::Fell {
        client,
        flight,
        falls,
    })
}

/// A client that is back.
fn read_back(alloc: Global, words: &mut Words) -> Result<Act, LineError>
    ensures { Answers result (act_of Verb.Back words.old) }
{
    let client = read_client(words.next())?;
    let chain = read_segments(alloc, words)?;
    Ok(Act::Back { client, chain })
}

/// A segment that is refused as lost.
fn read_lost(words: &mut Words) -> Result<Act, LineError>
    ensures { Answers result (act_of Verb.Lost words.old) }
{
    let node = read_writer(words.next())?;
    let seg = read_segment(words.next())?;
    Ok(Act::Lost { node, seg })
}

/// The act of a verb and the words behind it, which are of its form.
fn act_of(alloc: Global, verb: Verb, words: &mut Words) -> Result<Act, LineError>
    ensures { Answers result (act_of verb words.old) }
{
    match verb {
        Verb::Wrote => read_wrote(alloc, words),
        Verb::Read => read_read(alloc, words),
        Verb::Synced => Ok(Act::Synced {
            client: read_client(words.next())?,
        }),
        Verb::Fell => read_fell(alloc, words),
        Verb::Back => read_back(alloc, words),
        Verb::Lost => read_lost(words),
        Verb::Filed => Ok(Act::Filed {
            seg: read_segment(words.next())?,
        }),
        Verb::Dropped => Ok(Act::Dropped {
            seg: read_segment(words.next())?,
        }),
    }
}

/// The act of a line. `BadWord` where its words are of no act; else the first part at fault counts, from
/// left to right.
pub fn read_act(alloc: Global, line: &[u8]) -> Result<Act, LineError>
    ensures { Answers result (read_act line.now) }
{
    match shape_of(line) {
        None => Err(LineError::Bad(Kind::BadWord)),
        Some(verb) => {
            let mut words = Words::of(line);
            let _ = words.next();
            let _ = words.next();
            act_of(alloc, verb, &mut words)
        }
    }
}
