//! Draws the run of a script over a simulated serverless file system: `xfs_picture` reads a script from standard input
//! as `xfs` does and writes one SVG, a chart of its messages. `README.md` shows one.
#![tactic(auto)]

use picture_call::picture;
use std::env;
use std::io::ErrorKind;
use std::process::ExitCode;
use xfs_top::{StdSink, StdSource};

/// Why a call ends with this status, where its output doesn't say so.
fn cause(status: u8) -> Option<&'static str> {
    match status {
        4 => Some("xfs_picture: standard input can't be read"),
        5 => Some("xfs_picture: standard output can't be written"),
        7 => Some("xfs_picture: no memory left"),
        _ => None,
    }
}

/// Ends with this status, and one line on standard error where the output doesn't say why.
fn end(rt: &HostRuntime, status: u8) -> ExitCode {
    if let Some(line) = cause(status) {
        let _ = rt.eprintln(line);
    }
    ExitCode::from(status)
}

/// Makes the real source and sink, calls `picture` with the words after the program's name, and ends with its status, or
/// with 7 where memory is wanting for the words. Words that are not UTF-8 are handed in as one word, which is no form.
fn main(rt: HostRuntime) -> ExitCode {
    let alloc = rt.alloc();
    let mut words = Vec::new(alloc);
    match env::args(&rt) {
        Ok(args) => {
            for word in args.skip(1) {
                if words.push(word).is_err() {
                    return end(&rt, 7);
                }
            }
        }
        Err(error) => {
            if error.kind() == ErrorKind::OutOfMemory {
                return end(&rt, 7);
            }
            if words.push(String::new(alloc)).is_err() {
                return end(&rt, 7);
            }
        }
    }
    let mut source = StdSource::new(rt.stdin());
    let mut sink = StdSink::new(rt.stdout());
    let status = picture(alloc, &words, &mut source, &mut sink);
    end(&rt, status)
}
