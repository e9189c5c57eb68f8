//! The threads of a run with applications: the workers, and one for each application.
use crate::bell::Bell;
use crate::{Application, MountName, MountedCell};
use live_links::Cell;
use live_run::{PATIENCE, QUIET, Round, Seat, Watch, go_own, go_round};
use std::alloc::Global;
use std::sync::atomic::{AtomicU64, Ordering};
use std::sync::{Arc, Wait};
use std::thread;
use std::thread::Threads;
use world_base::Member;
use xfs_base::Gate;

/// A flag by which a thread that finds memory wanting tells all others to return, and by which workers tell that they
/// have left.
#[derive(Drop)]
struct Flag {
    raised: AtomicU64,
    left: AtomicU64,
}

impl Flag {
    /// A flag that isn't raised.
    fn new() -> Flag {
        Flag {
            raised: AtomicU64::new(0),
            left: AtomicU64::new(0),
        }
    }

    /// Raises it.
    fn raise(&self) {
        self.raised.store(1, Ordering::SeqCst);
    }

    /// Whether it is raised.
    fn is_raised(&self) -> bool {
        self.raised.load(Ordering::SeqCst) > 0
    }

    /// One worker leaves.
    fn leave(&self) {
        self.left.fetch_add(1, Ordering::SeqCst);
    }

    /// Whether so many have left, so that no reply comes any more while threads run.
    fn have_left(&self, workers: u8) -> bool {
        self.left.load(Ordering::SeqCst) >= u64::from(workers)
    }
}

/// What was found where an application is.
#[derive(Clone, Copy)]
enum Found {
    /// None: memory was wanting.
    Nothing,
    /// One, whether it did something, and whether it has nothing left to do.
    Application { moved: bool, over: bool },
}

/// Lets an application go on: it takes a reply and makes a call, where it can.
fn attend<R: MountName, W: Wait, G: Gate>(rt: &W, seat: &Seat<Application<R>>, gate: &G) -> Found {
    let mut guard = seat.lock(rt);
    let application = match guard.take() {
        None => return Found::Nothing,
        Some(application) => application,
    };
    match application.go_on(gate) {
        Err(_) => Found::Nothing,
        Ok((application, moved)) => {
            let over = application.is_over();
            *guard = Some(application);
            Found::Application { moved, over }
        }
    }
}

/// What rings when an application is replied; none where memory was wanting.
fn bell_of<R: MountName, W: Wait>(
    rt: &W,
    seat: &Seat<Application<R>>,
) -> Option<Arc<Bell, Global>> {
    let guard = seat.lock(rt);
    match &*guard {
        None => None,
        Some(application) => application.bell().ok(),
    }
}

/// Lets an application go on, and behind it its client, where no worker is there: so an answer that needs no other node
/// comes without one.
fn attend_both<N: Member, R: MountName, W: Wait, G: Gate>(
    rt: &W,
    alloc: Global,
    seat: &Seat<Application<R>>,
    clients: &[Seat<MountedCell<N, R>>],
    place: usize,
    gate: &G,
) -> Found {
    let (moved, over) = match attend(rt, seat, gate) {
        Found::Nothing => return Found::Nothing,
        Found::Application { moved, over } => (moved, over),
    };
    if over {
        return Found::Application { moved, over };
    }
    let served = go_own(alloc, clients, place, clients.len(), gate);
    if served.gone {
        return Found::Nothing;
    }
    Found::Application {
        moved: moved || served.moved,
        over,
    }
}

/// An application's thread: it goes on until it has nothing left to do, or all workers have left, or memory is wanting
/// somewhere. Where neither it nor its client can do anything it sleeps until it is replied.
fn apply<N: Member, R: MountName, W: Wait, G: Gate>(
    rt: &W,
    alloc: Global,
    seat: &Seat<Application<R>>,
    clients: &[Seat<MountedCell<N, R>>],
    place: usize,
    flag: &Flag,
    workers: u8,
    gate: &G,
) {
    let bell = match bell_of(rt, seat) {
        None => {
            flag.raise();
            return;
        }
        Some(bell) => bell,
    };
    for _ in rt.forever() {
        if flag.is_raised() || flag.have_left(workers) {
            return;
        }
        let replies = bell.replies();
        match attend_both(rt, alloc, seat, clients, place, gate) {
            Found::Nothing => {
                flag.raise();
                return;
            }
            Found::Application { moved, over } => {
                if over {
                    return;
                }
                if !moved {
                    bell.sleep(rt, replies);
                }
            }
        }
    }
}

/// Lets each application go on, and says whether one did something; where one is gone the flag is raised.
fn attend_all<R: MountName, W: Wait, G: Gate>(
    rt: &W,
    seats: &[Seat<Application<R>>],
    flag: &Flag,
    gate: &G,
) -> bool {
    let mut any_moved = false;
    for place in 0..seats.len() {
        match attend(rt, &seats[place], gate) {
            Found::Nothing => flag.raise(),
            Found::Application { moved, over: _ } => any_moved = any_moved || moved,
        }
    }
    any_moved
}

/// One round over all cells, beginning at one of each kind.
fn go_over<N: Member, R: MountName, G: Gate>(
    alloc: Global,
    clients: &[Seat<MountedCell<N, R>>],
    others: &[Seat<Cell<N, R>>],
    first: usize,
    idle: bool,
    gate: &G,
) -> Round {
    let one = go_round(alloc, clients, first, idle, gate);
    let other = go_round(alloc, others, first, idle, gate);
    one.and(other)
}

/// One round over a worker's own cells of both kinds.
fn go_over_own<N: Member, R: MountName, G: Gate>(
    alloc: Global,
    clients: &[Seat<MountedCell<N, R>>],
    others: &[Seat<Cell<N, R>>],
    first: usize,
    workers: usize,
    gate: &G,
) -> Round {
    let one = go_own(alloc, clients, first, workers, gate);
    let other = go_own(alloc, others, first, workers, gate);
    one.and(other)
}

/// What a worker does: it goes round over the cells until all items of all nodes are answered, or memory is wanting
/// somewhere, or time passed in so many of its rounds since it last saw an item answered. Time passes at the nodes only
/// in a round after so many in which nothing moved, or after very many.
fn work<N: Member, R: MountName, W: Wait, G: Gate>(
    rt: &W,
    alloc: Global,
    clients: &[Seat<MountedCell<N, R>>],
    others: &[Seat<Cell<N, R>>],
    first: usize,
    workers: u8,
    flag: &Flag,
    gate: &G,
) {
    let workers = usize::from(workers);
    let mut watch = Watch::new();
    let mut moved = true;
    for _ in rt.forever() {
        let idle = watch.is_idle(QUIET);
        let round = if moved && !idle {
            go_over_own(alloc, clients, others, first, workers, gate)
        } else {
            go_over(alloc, clients, others, first, idle, gate)
        };
        if round.gone {
            flag.raise();
        }
        if round.done || flag.is_raised() {
            return;
        }
        watch = watch.with(idle, round);
        if watch.has_passed(PATIENCE) {
            return;
        }
        moved = round.moved;
        if !moved {
            thread::yield_now();
        }
    }
}

/// What the caller does in the place of threads that can't be started: it goes round as a worker, and lets the
/// applications go on between its rounds.
fn work_for_all<N: Member, R: MountName, W: Wait, G: Gate>(
    rt: &W,
    alloc: Global,
    clients: &[Seat<MountedCell<N, R>>],
    others: &[Seat<Cell<N, R>>],
    applications: &[Seat<Application<R>>],
    flag: &Flag,
    gate: &G,
) {
    let mut watch = Watch::new();
    for _ in rt.forever() {
        let attended = attend_all(rt, applications, flag, gate);
        let idle = watch.is_idle(QUIET);
        let cells = go_over(alloc, clients, others, 0, idle, gate);
        if cells.gone {
            flag.raise();
        }
        if cells.done || flag.is_raised() {
            return;
        }
        let round = Round {
            moved: cells.moved || attended,
            ..cells
        };
        watch = watch.with(idle, round);
        if watch.has_passed(PATIENCE) {
            return;
        }
        if !round.moved {
            thread::yield_now();
        }
    }
}

/// Runs so many workers and a thread for each application, and returns when all have returned. What threads that can't
/// be started would do is done here. With no worker nothing is done.
pub(crate) fn run_threads<
    N: Member + Send,
    R: MountName + Send + Sync,
    W: Threads + Wait + Sync,
    G: Gate,
>(
    rt: &W,
    alloc: Global,
    clients: &[Seat<MountedCell<N, R>>],
    others: &[Seat<Cell<N, R>>],
    applications: &[Seat<Application<R>>],
    workers: u8,
    gate: &G,
) {
    if workers == 0 {
        return;
    }
    let flag = Flag::new();
    let raised = &flag;
    thread::scope(thread::scope_env(), rt, |scope| {
        let mut all_started = true;
        for place in 0..applications.len() {
            let seat = &applications[place];
            if scope
                .spawn(move || apply(rt, alloc, seat, clients, place, raised, workers, gate))
                .is_err()
            {
                all_started = false;
            }
        }
        for worker in 0..workers {
            let first = usize::from(worker);
            if scope
                .spawn(move || {
                    work(rt, alloc, clients, others, first, workers, raised, gate);
                    raised.leave();
                })
                .is_err()
            {
                raised.leave();
                all_started = false;
            }
        }
        if !all_started {
            work_for_all(rt, alloc, clients, others, applications, raised, gate);
        }
    });
}
