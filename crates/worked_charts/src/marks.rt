//! The marks of a run in which one packet is lost and one is repeated.
ghost use Rattle.std.specs.Prelude.{IfOk, IfSome};
ghost use Rattle.node_base.specs.Setups.{IsSetup};

use core_world::AnyNode;
use play::play;
use run_chart::mark::marks_of;
use run_chart::row::rows_of;
use run_chart::{Mark, Span};
use script_text::{Script, ScriptError, parse};
use std::alloc::{AllocError, Global};
use world_base::Estate;
use xfs_base::Mem;

/// One client writes two blocks; the first packet of the first call is lost, that of the second is repeated.
const SCRIPT: &[u8] =
    b"xfs 1\nclients 1\nmanagers 1\nservers 3\ngroup 1 2 3\nnet lose 1\nc1 bput 1 0 \"a\"\nnet again 1\nc1 bput 2 0 \"b\"\n";

/// Its marks. The first Want is lost, and a round of ticks follows it (rows 1 to 7): the client asks again, and the
/// registry tells six nodes of its maps. The Want of the second call comes twice, of one row, and so does its Grant,
/// of two; only the first of these is written. What is written at the rows stands behind all else.
const MARKS: [Mark; 36] = [
    Mark::Lost { row: 0, nth: 0 },
    Mark::Arrow {
        row: 8,
        sent: Some(1),
    },
    Mark::Arrow {
        row: 9,
        sent: Some(7),
    },
    Mark::Arrow {
        row: 10,
        sent: Some(7),
    },
    Mark::Arrow {
        row: 11,
        sent: Some(7),
    },
    Mark::Arrow {
        row: 12,
        sent: Some(7),
    },
    Mark::Arrow {
        row: 13,
        sent: Some(7),
    },
    Mark::Arrow {
        row: 14,
        sent: Some(7),
    },
    Mark::Arrow {
        row: 15,
        sent: Some(8),
    },
    Mark::Done { row: 15, nth: 0 },
    Mark::Arrow {
        row: 17,
        sent: Some(16),
    },
    Mark::Arrow {
        row: 18,
        sent: Some(17),
    },
    Mark::Done { row: 18, nth: 0 },
    Mark::Arrow {
        row: 19,
        sent: Some(16),
    },
    Mark::Arrow {
        row: 20,
        sent: Some(19),
    },
    Mark::Label { row: 0 },
    Mark::Label { row: 1 },
    Mark::Label { row: 2 },
    Mark::Label { row: 3 },
    Mark::Label { row: 4 },
    Mark::Label { row: 5 },
    Mark::Label { row: 6 },
    Mark::Label { row: 7 },
    Mark::Label { row: 8 },
    Mark::Label { row: 9 },
    Mark::Label { row: 10 },
    Mark::Label { row: 11 },
    Mark::Label { row: 12 },
    Mark::Label { row: 13 },
    Mark::Label { row: 14 },
    Mark::Label { row: 15 },
    Mark::Label { row: 16 },
    Mark::Label { row: 17 },
    Mark::Label { row: 18 },
    Mark::Label { row: 19 },
    Mark::Label { row: 20 },
];

/// The run of a script, of whose setup a run can be started.
fn played(alloc: Global, script: &Script) -> Mem<Estate<AnyNode>>
    requires { IsSetup script.now.setup }
    ensures { IfOk result (λ estate. IsSetup estate.script.setup) }
{
    let estate = play::<AnyNode>(alloc, script)?;
    Ok(estate)
}

/// The run of the script that an input spells, where it spells one.
fn run(alloc: Global, input: &[u8]) -> Mem<Option<Estate<AnyNode>>>
    ensures { IfOk result (λ found. IfSome found (λ estate. IsSetup estate.script.setup)) }
{
    match parse(alloc, input, false) {
        Ok(script) => {
            let estate = played(alloc, &script)?;
            Ok(Some(estate))
        }
        Err(ScriptError::Memory) => Err(AllocError),
        Err(ScriptError::Bad(_, _)) => Ok(None),
    }
}

/// Whether the marks of the script's run are those reckoned by hand.
pub fn are_as_reckoned(alloc: Global) -> Mem<bool> {
    match run(alloc, SCRIPT)? {
        None => Ok(false),
        Some(estate) => {
            let rows = rows_of(alloc, &estate.script, Span::Whole, estate.events.as_slice())?;
            let marks = marks_of(alloc, &estate, rows.as_slice())?;
            Ok(marks.as_slice() == &MARKS[..])
        }
    }
}
