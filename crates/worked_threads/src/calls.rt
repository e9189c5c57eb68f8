//! Calls of the program on inputs in memory.
use std::alloc::{AllocError, Global};
use std::sync::Wait;
use std::thread::Threads;
use top_call::answer_live;
use version_model::Answer;
use xfs_base::List;
use xfs_top::{AnyNode, Gate, MemSink, MemSource, OpenGate, Outcome, Reply, xfs};

/// Two clients, each with a file of its own.
pub const FILES: &[u8] =
    b"xfs 1\nclients 2\nmanagers 1\nservers 3\ngroup 1 2 3\nc1 mk /a\nc2 mk /b\nc1 put /a 0 \"one\"\nc2 put /b 0 \"two\"\nc1 get /a 0 9\nc2 get /b 0 9\n";

/// What is answered, in whatever order the nodes have their turns.
pub const ANSWERS: &[u8] = b"6 ino 136\n7 ino 145\n8 ok\n9 ok\n10 \"one\"\n11 \"two\"\nend 6 0\n";

/// A client that crashes and comes back.
pub const CRASH: &[u8] =
    b"xfs 1\nclients 2\nmanagers 1\nservers 3\ngroup 1 2 3\nc1 bput 1 0 \"a\"\nc1 sync\nc1 bget 1 0\nc1 crash\nc1 restart\nc1 bget 1 0\n";

/// What is answered to it.
pub const BACK: &[u8] = b"6 v1\n7 ok\n8 v1 \"a\"\n9 ok\n10 ok\n11 v1 \"a\"\nend 6 0\n";

/// A client crashes while others call on files in four groups of servers. What it lost of a manager's word in its crash it
/// hears only where the manager says it again, as time passes.
pub const CALLED_BACK: &[u8] =
    b"xfs 1\nclients 5\nmanagers 3\nservers 5\ngroup2 5 3 1 4 2\nc3 mv /a.txt/home /a\nc1 mk /a.txt\nc3 crash\nc3 restart\n";

/// Two of three servers lose their disks, so that a client's restart is refused as lost; what another asks of a block that
/// this one owned is never answered.
pub const REFUSED: &[u8] =
    b"xfs 1\nclients 2\nmanagers 1\nservers 3\ngroup 1 2 3\nc1 bput 1 0 \"a\"\nc1 sync\nafter 40 s1 lose\nafter 40 s2 lose\nafter 160 c1 crash\nc1 restart\nafter 320 c2 bget 1 0\n";

fn source_of(alloc: Global, input: &[u8]) -> Result<MemSource, AllocError> {
    Ok(MemSource::start(
        List::from_vec(Vec::from_slice(alloc, input)?),
        4096,
        List::new(alloc),
    ))
}

fn sink_of(alloc: Global) -> Result<MemSink, AllocError> {
    MemSink::start(alloc, 65536, 4096, List::new(alloc), List::new(alloc))
}

fn words_of(alloc: Global, words: &[&str]) -> Result<Vec<String>, AllocError> {
    let mut all = Vec::new(alloc);
    for word in words {
        all.push(String::from_str(alloc, word)?)?;
    }
    Ok(all)
}

/// Whether the program answers these words, of this input, with this status and this text.
pub fn answers<R: Threads + Wait + Sync, G: Gate>(
    rt: &R,
    alloc: Global,
    words: &[&str],
    input: &[u8],
    gate: &G,
    status: u8,
    text: &[u8],
) -> Result<bool, AllocError> {
    let words = words_of(alloc, words)?;
    let mut source = source_of(alloc, input)?;
    let mut sink = sink_of(alloc)?;
    let outcome = xfs(rt, alloc, &words, &mut source, &mut sink, gate);
    Ok(outcome.status == status && sink.bytes() == text)
}

/// Whether the program answers these words, of this input, with this status and a text that ends so.
pub fn ends<R: Threads + Wait + Sync>(
    rt: &R,
    alloc: Global,
    words: &[&str],
    input: &[u8],
    status: u8,
    end: &[u8],
) -> Result<bool, AllocError> {
    let words = words_of(alloc, words)?;
    let mut source = source_of(alloc, input)?;
    let mut sink = sink_of(alloc)?;
    let outcome = xfs(rt, alloc, &words, &mut source, &mut sink, &OpenGate);
    Ok(outcome.status == status && sink.bytes().ends_with(end))
}

/// Whether cells in one thread, with no worker, answer this input with status 0 and this text.
pub fn answers_alone<R: Threads + Wait + Sync>(
    rt: &R,
    alloc: Global,
    input: &[u8],
    text: &[u8],
) -> Result<bool, AllocError> {
    let mut source = source_of(alloc, input)?;
    let mut sink = sink_of(alloc)?;
    let outcome: Outcome<AnyNode> = answer_live(rt, alloc, 0, &mut source, &mut sink, &OpenGate);
    Ok(outcome.status == 0 && sink.bytes() == text)
}

/// The kind of an answer in one letter: a version, what was got, or done; a dash for any other.
fn letter_of(answer: &Answer) -> u8 {
    match answer {
        Answer::Version(_) => b'v',
        Answer::Got(_, _) => b'g',
        Answer::Done => b'd',
        _ => b'-',
    }
}

/// The kinds of the answers that were replied, in their order; a question mark for a reply to another item than the next.
fn letters_of(alloc: Global, replies: &List<Reply>) -> Result<Vec<u8>, AllocError> {
    let mut letters = Vec::new(alloc);
    for reply in replies.as_slice() {
        if reply.item as usize == letters.len().saturating_add(1) {
            letters.push(letter_of(&reply.answer))?;
        } else {
            letters.push(b'?')?;
        }
    }
    Ok(letters)
}

/// Whether of this input by these words the first application is replied answers of these kinds.
pub fn is_replied<R: Threads + Wait + Sync>(
    rt: &R,
    alloc: Global,
    words: &[&str],
    input: &[u8],
    kinds: &[u8],
) -> Result<bool, AllocError> {
    let words = words_of(alloc, words)?;
    let mut source = source_of(alloc, input)?;
    let mut sink = sink_of(alloc)?;
    let outcome = xfs(rt, alloc, &words, &mut source, &mut sink, &OpenGate);
    let all = match &outcome.replies {
        None => return Ok(false),
        Some(all) => all,
    };
    match all.get(0) {
        None => Ok(false),
        Some(replies) => Ok(letters_of(alloc, replies)?.as_slice() == kinds),
    }
}
