//! Plays each example and draws each picture, and tells whether the answer is the file that stands beside the script. The
//! gate runs this in `data/`, by the lines of `args`: the name of an example, behind the word by which it is played, or
//! behind `picture`, or `picture` and a word. What it tells has to be `stdout`.
#![tactic(auto)]

use picture_call::picture;
use std::alloc::{AllocError, Global};
use std::rt::Files;
use std::sync::Wait;
use std::thread::Threads;
use std::{env, fs, io};
use xfs_base::List;
use xfs_top::{MemSink, MemSource, OpenGate, ended, xfs};

/// More bytes than any answer has.
const ROOM: u32 = 1_048_576;

/// What a call answers, and the status with which it ends.
#[derive(Drop)]
struct Answer {
    status: u8,
    sink: MemSink,
}

fn source_of(alloc: Global, script: &str) -> Result<MemSource, AllocError> {
    let bytes = List::from_vec(Vec::from_slice(alloc, script.as_bytes())?);
    Ok(MemSource::start(bytes, 4096, List::new(alloc)))
}

fn sink_of(alloc: Global) -> Result<MemSink, AllocError> {
    MemSink::start(alloc, ROOM, 4096, List::new(alloc), List::new(alloc))
}

/// The one word of a call, or none where it is empty.
fn words_of(alloc: Global, word: &str) -> Result<Vec<String>, AllocError> {
    let mut words = Vec::new(alloc);
    if !word.is_empty() {
        words.push(String::from_str(alloc, word)?)?;
    }
    Ok(words)
}

/// What `xfs` answers to a script by a word.
fn played<R: Threads + Wait + Sync>(
    rt: &R,
    alloc: Global,
    word: &str,
    script: &str,
) -> Result<Answer, AllocError> {
    let words = words_of(alloc, word)?;
    let mut source = source_of(alloc, script)?;
    let mut sink = sink_of(alloc)?;
    let outcome = xfs(rt, alloc, &words, &mut source, &mut sink, &OpenGate);
    Ok(Answer {
        status: ended(outcome),
        sink,
    })
}

/// What `xfs_picture` answers to a script by a word.
fn drawn(alloc: Global, word: &str, script: &str) -> Result<Answer, AllocError> {
    let words = words_of(alloc, word)?;
    let mut source = source_of(alloc, script)?;
    let mut sink = sink_of(alloc)?;
    let status = picture(alloc, &words, &mut source, &mut sink);
    Ok(Answer { status, sink })
}

/// The text of a file of an example.
fn text_of<R: Files + Alloc>(
    rt: &R,
    alloc: Global,
    name: &str,
    ending: &str,
) -> io::Result<String<R::A>> {
    let path = format!(in alloc; "{name}.{ending}")?;
    fs::read_to_string(rt, path.as_str())
}

/// How an answer is found: its status, and whether it is the text that is wanted.
#[derive(Clone, Copy)]
struct Found {
    status: u8,
    as_written: bool,
}

fn compare(answer: &Answer, wanted: &str) -> Found {
    Found {
        status: answer.status,
        as_written: answer.sink.bytes() == wanted.as_bytes(),
    }
}

/// Plays an example by a word.
fn check_answers<R: Threads + Wait + Sync + Files + Alloc>(
    rt: &R,
    alloc: Global,
    word: &str,
    name: &str,
) -> io::Result<Found> {
    let script = text_of(rt, alloc, name, "xfs")?;
    let answer = played(rt, alloc, word, script.as_str())?;
    let wanted = text_of(rt, alloc, name, "answers")?;
    Ok(compare(&answer, wanted.as_str()))
}

/// Draws the picture of an example by a word, or by none.
fn check_picture<R: Files + Alloc>(
    rt: &R,
    alloc: Global,
    word: &str,
    name: &str,
) -> io::Result<Found> {
    let script = text_of(rt, alloc, name, "xfs")?;
    let answer = drawn(alloc, word, script.as_str())?;
    let wanted = text_of(rt, alloc, name, "svg")?;
    Ok(compare(&answer, wanted.as_str()))
}

/// Plays an example, or draws its picture.
fn check<R: Threads + Wait + Sync + Files + Alloc>(
    rt: &R,
    alloc: Global,
    word: &str,
    rest: &str,
) -> io::Result<Found> {
    if word != "picture" {
        return check_answers(rt, alloc, word, rest);
    }
    match rest.split_once(' ') {
        Some((word, name)) => check_picture(rt, alloc, word, name),
        None => check_picture(rt, alloc, "", rest),
    }
}

/// Tells what was found.
fn tell(rt: &HostRuntime, line: &str, found: Found) -> io::Result<()> {
    let status = found.status;
    if found.as_written {
        return println!(rt; "{line}: as written, status {status}");
    }
    println!(rt; "{line}: otherwise, status {status}")
}

/// How many files have an ending.
fn count_of(rt: &HostRuntime, ending: &str) -> io::Result<u64> {
    let mut count: u64 = 0;
    for entry in fs::read_dir(rt, ".")? {
        if entry?.file_name().ends_with(ending) {
            count = count.saturating_add(1);
        }
    }
    Ok(count)
}

/// Does what each argument asks for, and tells how many examples and pictures there are, so that none is left out unseen.
fn main(rt: HostRuntime) -> io::Result<()> {
    let alloc = rt.alloc();
    for line in env::args(&rt)?.skip(1) {
        let line = line.as_str();
        match line.split_once(' ') {
            Some((word, rest)) => {
                let found = check(&rt, alloc, word, rest)?;
                tell(&rt, line, found)?;
            }
            None => println!(rt; "{line}: no word and no name")?,
        }
    }
    let scripts = count_of(&rt, ".xfs")?;
    let pictures = count_of(&rt, ".svg")?;
    println!(rt; "{scripts} examples, {pictures} pictures")
}
