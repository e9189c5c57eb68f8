//! The first script that is drawn, as its generator was written down; and which inputs are no scripts.
use script_print::{generate, print};
use script_text::{Kind, ScriptError, parse};
use std::alloc::Global;
use xfs_base::Mem;

const DRAWN: &[u8] =
    b"xfs 1\nclients 4\nmanagers 2\nservers 6\ngroup 1 2 3\ngroup 4 5 6\ncache 8\nc3 bget 259 11\n";

const SETUP: &[u8] = b"xfs 1\nclients 2\nmanagers 1\nservers 3\ngroup 1 2 3\n";

const SERVERS: &[u8] = b"xfs 1\nclients 8\nmanagers 4\nservers 12\n";

const EIGHT_GROUPS: &[u8] =
    b"group 1 2 3\ngroup 1 2 3 4 5 6 7 8\ngroup2 1 2 3 4\ngroup2 5 6 7 8 9 10 11 12\ngroup 4 5 6\ngroup 7 8 9\ngroup 10 11 12\ngroup 2 1 3\n";

const WORDS: [&[u8]; 25] = [
    b"foo\n",
    b"c sync\n",
    b"c1x sync\n",
    b"c1\n",
    b"c1 sync \n",
    b"c1  sync\n",
    b" c1 sync\n",
    b"c1 sync\r\n",
    b"\r\n",
    b"after\n",
    b"after 1\n",
    b"after 1 foo\n",
    b"after 1 net hold\n",
    b"after 1 after 1 c1 sync\n",
    b"after 1 clients 2\n",
    b"reg move 9 m\n",
    b"reg move 0 x1\n",
    b"groupx\n",
    b"net\n",
    b"net hold 1\n",
    b"c1 mk /a /b\n",
    b"c1 get /a 0\n",
    b"c1 bput 1 0\n",
    b"s1 crash\n",
    b"d1 sync\n",
];

const NUMBERS: [&[u8]; 23] = [
    b"c01 sync\n",
    b"c4294967296 sync\n",
    b"after 01 c9 sync\n",
    b"after 4294967296 c1 sync\n",
    b"after  c1 sync\n",
    b"after -1 c1 sync\n",
    b"reg move 8 m1\n",
    b"reg move 0 m01\n",
    b"reg move +1 m9\n",
    b"c1 bget 01 0\n",
    b"c1 bget 4294967296 0\n",
    b"c1 bget 1 0x\n",
    b"c1 bput 136 0 \"a\"\n",
    b"c1 bput 0 0 \"\"\n",
    b"c1 bput 1 01 \"\"\n",
    b"c1 get /a 0 65537\n",
    b"cl clean 0\n",
    b"cl clean 101\n",
    b"net lose 20001\n",
    b"net again 20001\n",
    b"net mix 2147483648\n",
    b"net step 20001\n",
    b"s1 stop 1001\n",
];

const TEXTS: [&[u8]; 16] = [
    b"c1 bput 1 0 \"he",
    b"c1 bput 1 0 \"\\x0A\"\n",
    b"c1 bput 1 0 \"\"\n",
    b"c1 bput 1 0 0*\"x\"\n",
    b"c1 bput 1 0 01*\"x\"\n",
    b"c1 bput 1 0 4294967296*\"x\"\n",
    b"c1 bput 1 0 \"a\" b\n",
    b"c1 bput 1 0 \n",
    b"c1 bput 1 0 \"\\a\"\n",
    b"c1 bput 1 0 \"\t\"\n",
    b"c1 bput 1 0 \"\\\"\n",
    b"c1 mk a\n",
    b"c1 mk \n",
    b"c1 put a 01 q\n",
    b"c1 put /a 0 q\n",
    b"c1 mv /a b\n",
];

const LONG: [&[u8]; 4] = [
    b"c1 bput 1 0 8193*\"a\"\n",
    b"c1 bput 1 0 4294967295*\"x\"\n",
    b"c1 put /a 0 65537*\"a\"\n",
    b"c1 mk /1/2/3/4/5/6/7/8/9/a/b/c/d/e/f/g/h\n",
];

const NODES: [&[u8]; 11] = [
    b"c0 sync\n",
    b"c3 sync\n",
    b"c4294967295 sync\n",
    b"c9 bput 0 0 \"\"\n",
    b"m2 crash\n",
    b"s4 lose\n",
    b"s0 stop 2000\n",
    b"b4 stop\n",
    b"b0 start\n",
    b"reg move 0 m9\n",
    b"reg move 0 m0\n",
];

const SETUP_LINES: [&[u8]; 12] = [
    b"clients 2\n",
    b"xfs\n",
    b"xfs 1\n",
    b"acts x\n",
    b"group\n",
    b"group2 1 2 3\n",
    b"cache 0\n",
    b"cache 1025\n",
    b"cache 01\n",
    b"cache\n",
    b"managers\n",
    b"servers x y\n",
];

const GROUPS: [&[u8]; 8] = [
    b"group 1 2\n",
    b"group 1 2 3 4 5 6 7 8 9\n",
    b"group 1 2 2\n",
    b"group 1 2 13\n",
    b"group2 1 2 3\n",
    b"group2 1 2 3 4 5 6 7 8 9\n",
    b"group2 1 2 3 3\n",
    b"group2 1 2 3 13\n",
];

/// How many items the input behind these lines has, or where it is refused.
fn told(alloc: Global, front: &[u8], input: &[u8], live: bool) -> Mem<Result<usize, ScriptError>> {
    let mut bytes = Vec::from_slice(alloc, front)?;
    bytes.extend_from_slice(input)?;
    match parse(alloc, &bytes, live) {
        Ok(script) => Ok(Ok(script.copy(alloc)?.lines.len())),
        Err(error) => Ok(Err(error)),
    }
}

fn bad(line: u32, kind: Kind) -> Result<usize, ScriptError> {
    Err(ScriptError::Bad(line, kind))
}

/// So many bytes, each of them this one.
fn many(alloc: Global, byte: u8, count: u32) -> Mem<Vec<u8>> {
    let mut bytes = Vec::new(alloc);
    for _ in 0..count {
        bytes.push(byte)?;
    }
    Ok(bytes)
}

/// Whether the first script that is drawn is printed so.
pub fn is_drawn_so(alloc: Global) -> Mem<bool> {
    let script = generate(alloc, 1, 1)?;
    let text = print(alloc, &script)?;
    Ok(text.as_bytes() == DRAWN)
}

// Whether each of these lines is refused so, behind these lines.
fn are_refused(alloc: Global, front: &[u8], lines: &[&[u8]], line: u32, kind: Kind) -> Mem<bool> {
    for input in lines {
        if told(alloc, front, input, false)? != bad(line, kind) {
            return Ok(false);
        }
    }
    Ok(true)
}

/// Whether each line that has one fault is refused for it.
pub fn are_faults_told(alloc: Global) -> Mem<bool> {
    Ok(
        are_refused(alloc, SETUP, &WORDS, 6, Kind::BadWord)?
            && are_refused(alloc, SETUP, &NUMBERS, 6, Kind::BadNumber)?
            && are_refused(alloc, SETUP, &TEXTS, 6, Kind::BadText)?
            && are_refused(alloc, SETUP, &LONG, 6, Kind::TooLong)?
            && are_refused(alloc, SETUP, &NODES, 6, Kind::NoNode)?
            && are_refused(alloc, SETUP, &SETUP_LINES, 6, Kind::BadSetup)?
            && are_refused(alloc, SERVERS, &GROUPS, 5, Kind::BadSetup)?,
    )
}

/// Whether an input may have 20,000 lines and 1,048,576 bytes, and no more.
pub fn are_limits_kept(alloc: Global) -> Mem<bool> {
    let lines = many(alloc, b'\n', 19_995)?;
    let more_lines = many(alloc, b'\n', 19_996)?;
    let bytes = many(alloc, b'#', 1_048_527)?;
    let more_bytes = many(alloc, b'#', 1_048_528)?;
    Ok(
        told(alloc, SETUP, &lines, false)? == Ok(0)
            && told(alloc, SETUP, &more_lines, false)? == bad(20_001, Kind::TooLong)
            && told(alloc, SETUP, &bytes, false)? == Ok(0)
            && told(alloc, SETUP, &more_bytes, false)? == bad(6, Kind::TooLong),
    )
}

/// Whether eight groups are taken and a ninth is refused.
pub fn are_groups_counted(alloc: Global) -> Mem<bool> {
    let mut nine = Vec::from_slice(alloc, EIGHT_GROUPS)?;
    nine.extend_from_slice(b"group 7 8 9\n")?;
    Ok(
        told(alloc, SERVERS, EIGHT_GROUPS, false)? == Ok(0)
            && told(alloc, SERVERS, &nine, false)? == bad(13, Kind::BadSetup)
            && told(alloc, b"xfs 1\n", b"clients 2\n", false)? == bad(3, Kind::BadSetup),
    )
}

/// Whether the first bad line counts, and in a line the first fault.
pub fn is_first_fault_told(alloc: Global) -> Mem<bool> {
    Ok(
        told(alloc, SETUP, b"foo\nc1 bput 1 0 \"he\n", false)? == bad(6, Kind::BadWord)
            && told(alloc, SETUP, b"c9 bput 01 0 \"he\n", false)? == bad(6, Kind::NoNode)
            && told(alloc, SETUP, b"c1 bput 01 0 8193*\"a\"\n", false)? == bad(6, Kind::BadNumber)
            && told(alloc, SETUP, b"c1 sync", false)? == Ok(1),
    )
}
