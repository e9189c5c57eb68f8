//! Runs scripts over a simulated serverless file system: `xfs run` reads a script from standard input and
//! writes one answer line a call. `README.md` has an example.
#![tactic(auto)]

use std::env;
use std::io::ErrorKind;
use std::process::ExitCode;
use xfs_top::{OpenGate, StdSink, StdSource, ended, xfs};

/// Why a run ends with this status, where its output doesn't say so.
fn cause(status: u8) -> Option<&'static str> {
    match status {
        4 => Some("xfs: standard input can't be read"),
        5 => Some("xfs: standard output can't be written"),
        7 => Some("xfs: no memory left"),
        _ => None,
    }
}

/// Ends with this status, and one line on standard error where the output doesn't say why.
fn end(rt: &HostRuntime, status: u8) -> ExitCode {
    if let Some(line) = cause(status) {
        let _ = rt.eprintln(line);
    }
    ExitCode::from(status)
}

/// Makes the real source and sink, calls `xfs` with the words after the program's name, and ends with its
/// status, or with 7 where memory is wanting for the words. Words that are not UTF-8 are handed in as no
/// words, which are no form.
fn main(rt: HostRuntime) -> ExitCode {
    let alloc = rt.alloc();
    let mut words = Vec::new(alloc);
    match env::args(&rt) {
        Ok(args) => {
            for word in args.skip(1) {
                if words.push(word).is_err() {
                    return end(&rt, 7);
                }
            }
        }
        Err(error) => {
            if error.kind() == ErrorKind::OutOfMemory {
                return end(&rt, 7);
            }
        }
    }
    let mut source = StdSource::new(rt.stdin());
    let mut sink = StdSink::new(rt.stdout());
    let outcome = xfs(&rt, alloc, &words, &mut source, &mut sink, &OpenGate);
    end(&rt, ended(outcome))
}
