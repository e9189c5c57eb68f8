//! The workers: each goes round over all nodes, and lets one at a time have its turns, under that node's lock.
ghost use Rattle.std.specs.Prelude.{◌≡◌, ◌||◌, nat_le};

use live_links::{Cell, RunName};
use std::alloc::Global;
use std::sync::{Mutex, Wait};
use std::thread;
use std::thread::Threads;
use world_base::Member;
use xfs_base::{Gate, Mem, NodeId};

/// How many turns more than one a node has at most under one lock.
pub const MORE: u8 = 63;

/// After how many rounds, one after the other, in which a worker moved nothing, it lets time pass at the nodes; those that
/// are whole count as more.
pub const QUIET: u8 = 255;

/// As how many such rounds a whole one counts: where nobody else is at any cell, or is to come to it, nothing is under way
/// but time. Two of them are enough.
const WHOLE: u8 = 128;

/// After how many rounds a worker lets time pass at the nodes, even if they moved in each.
pub const LONGEST: u16 = 4096;

/// After how many rounds in which time passed, and no item was answered, a worker leaves.
pub const PATIENCE: u16 = 1024;

/// What stands behind a lock, and lets workers have turns with it.
pub trait Visited: Drop {
    /// The name of its node.
    fn node(&self) -> NodeId;

    /// Makes some turns, one after the other, or none, and says whether it made any. Time passes at the node at most once,
    /// and only where the worker is idle. Where memory is wanting the node is given up with its run.
    fn have_turns(self, alloc: Global, idle: bool) -> Mem<(Self, bool)>;

    /// Whether each item of its node was begun and is answered.
    fn is_over(&self) -> bool;

    /// How many answers its node gave to items of its own.
    fn answers(&self) -> usize;

    /// Whether a worker that isn't idle would find nothing to do, as far as it is known.
    fn is_still(&self) -> bool;

    /// Whether someone who is no worker is to move it next.
    fn is_awaiting(&self) -> bool;
}

impl<N: Member, R: RunName> Visited for Cell<N, R> {
    fn node(&self) -> NodeId {
        self.name()
    }

    fn have_turns(self, alloc: Global, idle: bool) -> Mem<(Cell<N, R>, bool)> {
        self.act_on(alloc, idle, MORE)
    }

    fn is_over(&self) -> bool {
        self.done()
    }

    fn answers(&self) -> usize {
        self.answered().len()
    }

    fn is_still(&self) -> bool {
        self.rests(true)
    }

    fn is_awaiting(&self) -> bool {
        false
    }
}

/// A cell, or what has one, behind a lock. None is left there only after want of memory.
pub type Seat<T> = Mutex<Option<T>>;

/// What a worker found at a seat.
#[derive(Clone, Copy)]
enum Found {
    /// No cell.
    Nothing,
    /// Another worker.
    Busy,
    /// A cell, whether it had a turn, whether it answered an item in it, whether it awaits someone who is no worker, and
    /// whether all its items are answered.
    Cell {
        moved: bool,
        answered: bool,
        awaiting: bool,
        done: bool,
    },
}

/// What a worker found in a round over seats.
#[derive(Clone, Copy)]
pub struct Round {
    /// Whether a cell was gone.
    pub gone: bool,
    /// Whether some cell had a turn.
    pub moved: bool,
    /// Whether some cell answered an item.
    pub answered: bool,
    /// Whether it came to all cells, and found no other worker at any, and none that awaits someone else.
    pub whole: bool,
    /// Whether all items of all cells are answered.
    pub done: bool,
}

impl Round {
    /// A round in which no cell was found yet, over all of them or over some.
    pub fn over(all: bool) -> Round {
        Round {
            gone: false,
            moved: false,
            answered: false,
            whole: all,
            done: all,
        }
    }

    /// With what was found at one seat more.
    fn with(self, found: Found) -> Round {
        match found {
            Found::Nothing => Round { gone: true, ..self },
            Found::Busy => Round {
                whole: false,
                done: false,
                ..self
            },
            Found::Cell {
                moved,
                answered,
                awaiting,
                done,
            } => Round {
                gone: self.gone,
                moved: self.moved || moved,
                answered: self.answered || answered,
                whole: self.whole && !awaiting,
                done: self.done && done,
            },
        }
    }

    /// Two rounds over cells of two kinds, as one.
    pub fn and(self, other: Round) -> Round {
        Round {
            gone: self.gone || other.gone,
            moved: self.moved || other.moved,
            answered: self.answered || other.answered,
            whole: self.whole && other.whole,
            done: self.done && other.done,
        }
    }
}

/// What is found at a seat where a worker that isn't idle has nothing to do; else none.
fn look<T: Visited>(seat: &Option<T>) -> Option<Found> {
    match seat {
        None => Some(Found::Nothing),
        Some(cell) => {
            if cell.is_still() {
                Some(Found::Cell {
                    moved: false,
                    answered: false,
                    awaiting: cell.is_awaiting(),
                    done: cell.is_over(),
                })
            } else {
                None
            }
        }
    }
}

/// Lets the node of a seat have its turns, where no other worker is there. A cell that has none is left where it stands.
fn visit<T: Visited, G: Gate>(alloc: Global, seat: &Seat<T>, idle: bool, gate: &G) -> Found {
    let mut guard = match seat.try_lock() {
        None => return Found::Busy,
        Some(guard) => guard,
    };
    if !idle {
        match look(&*guard) {
            None => {}
            Some(found) => return found,
        }
    }
    let cell = match guard.take() {
        None => return Found::Nothing,
        Some(cell) => cell,
    };
    let node = cell.node();
    let before = cell.answers();
    gate.enter(node);
    let acted = cell.have_turns(alloc, idle);
    gate.leave(node);
    match acted {
        Err(_) => Found::Nothing,
        Ok((cell, moved)) => {
            let answered = before < cell.answers();
            let awaiting = cell.is_awaiting();
            let done = cell.is_over();
            *guard = Some(cell);
            Found::Cell {
                moved,
                answered,
                awaiting,
                done,
            }
        }
    }
}

/// What a worker knows of the rounds that it made.
#[derive(Clone, Copy)]
pub struct Watch {
    /// How many rounds, one after the other, moved nothing last, where a whole one counts as 128.
    quiet: u8,
    /// How many rounds were made since time passed.
    since: u16,
    /// In how many rounds time passed since an item was answered.
    passed: u16,
}

impl Watch {
    /// Of none.
    pub fn new() -> Watch
        ensures { result ≡ record { quiet = 0; since = 0; passed = 0 } }
    {
        Watch {
            quiet: 0,
            since: 0,
            passed: 0,
        }
    }

    /// Whether time is to pass in the next round: so many moved nothing, or it is long since time passed.
    pub fn is_idle(&self, quiet: u8) -> bool
        ensures { result ≡ (nat_le quiet self.now.quiet || nat_le 4096 self.now.since) }
    {
        self.quiet >= quiet || self.since >= LONGEST
    }

    /// Whether time passed in so many rounds since an item was answered.
    pub fn has_passed(&self, rounds: u16) -> bool
        ensures { result ≡ nat_le rounds self.now.passed }
    {
        self.passed >= rounds
    }

    /// With one round more, in which time was to pass or not.
    pub fn with(self, idle: bool, round: Round) -> Watch {
        let quiet = if round.moved {
            0
        } else if round.whole {
            u8::saturating_add(self.quiet, WHOLE)
        } else {
            u8::saturating_add(self.quiet, 1)
        };
        let passes = idle && round.moved;
        let since = if passes {
            0
        } else {
            u16::saturating_add(self.since, 1)
        };
        let passed = if round.answered {
            0
        } else if passes {
            u16::saturating_add(self.passed, 1)
        } else {
            self.passed
        };
        Watch {
            quiet,
            since,
            passed,
        }
    }
}

/// One round over the seats, beginning at one of them. It ends where a cell is gone.
pub fn go_round<T: Visited, G: Gate>(
    alloc: Global,
    seats: &[Seat<T>],
    first: usize,
    idle: bool,
    gate: &G,
) -> Round {
    let mut round = Round::over(true);
    let count = seats.len();
    for step in 0..count {
        let place = first.wrapping_add(step) % count;
        round = round.with(visit(alloc, &seats[place], idle, gate));
        if round.gone {
            return round;
        }
    }
    round
}

/// One round over a worker's own seats, of which no two workers have one: from one of them on each that is so many further.
/// No time passes, and it ends where a cell is gone.
pub fn go_own<T: Visited, G: Gate>(
    alloc: Global,
    seats: &[Seat<T>],
    first: usize,
    workers: usize,
    gate: &G,
) -> Round {
    let mut round = Round::over(false);
    for step in 0..seats.len() {
        let place = first.saturating_add(step.saturating_mul(workers));
        if place >= seats.len() {
            return round;
        }
        round = round.with(visit(alloc, &seats[place], false, gate));
        if round.gone {
            return round;
        }
    }
    round
}

/// Goes round over its own seats while it moves something there, and else over all, until all items of all nodes are
/// answered or a cell is gone, or time passed in so many of its rounds since it last saw an item answered. Time passes at
/// the nodes only in a round after so many in which nothing moved, or after very many. A worker that moved nothing lets
/// other threads go on.
fn work<T: Visited, W: Wait, G: Gate>(
    rt: &W,
    alloc: Global,
    seats: &[Seat<T>],
    first: usize,
    workers: usize,
    gate: &G,
) {
    let mut watch = Watch::new();
    let mut moved = true;
    for _ in rt.forever() {
        let idle = watch.is_idle(QUIET);
        let round = if moved && !idle {
            go_own(alloc, seats, first, workers, gate)
        } else {
            go_round(alloc, seats, first, idle, gate)
        };
        if round.gone || round.done {
            return;
        }
        watch = watch.with(idle, round);
        if watch.has_passed(PATIENCE) {
            return;
        }
        moved = round.moved;
        if !moved && workers > 1 {
            thread::yield_now();
        }
    }
}

/// Runs so many workers, and returns when all have returned. What one that can't be started would do is done here.
pub(crate) fn run_workers<T: Visited + Send, W: Threads + Wait + Sync, G: Gate>(
    rt: &W,
    alloc: Global,
    seats: &[Seat<T>],
    workers: u8,
    gate: &G,
) {
    let all = usize::from(workers);
    thread::scope(thread::scope_env(), rt, |scope| {
        for worker in 0..workers {
            let first = usize::from(worker);
            if scope
                .spawn(move || work(rt, alloc, seats, first, all, gate))
                .is_err()
            {
                work(rt, alloc, seats, first, all, gate);
            }
        }
    });
}
