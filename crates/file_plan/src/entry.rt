//! What is done at the last name of a path.
ghost use Rattle.std.specs.Prelude.{◌≡◌, IfOk};
ghost use Rattle.file_plan.specs.Format.{read_rows};
ghost use Rattle.file_plan.specs.Plan.{fits, entering, leaving, needs_file, at_entry, found, unfound, looked, entered};

use crate::bucket::{bucket_bytes, read_bucket};
use crate::content::putting;
use crate::gather::gathering;
use crate::places::{BLOCK_SIZE, BUCKETS};
use crate::rows::{named, with_row, without};
use crate::walk::{refuses, walking_path};
use crate::{Job, Name, Node, PlanState, Task};
use std::alloc::Global;
use version_model::{Answer, FileFault};
use xfs_base::{Ino, List, Mem};

fn fits(alloc: Global, rows: &[(Name, Node)]) -> Mem<bool>
    ensures { IfOk result (λ answer. answer ≡ fits rows.now) }
{
    let bytes = bucket_bytes(alloc, rows)?;
    Ok(bytes.len() <= BLOCK_SIZE as usize)
}

/// A new entry comes, where none has the name.
fn entering(
    alloc: Global,
    dir: Ino,
    name: Name,
    ver: u64,
    rows: List<(Name, Node)>,
    node: Node,
    job: Job,
) -> Mem<PlanState>
    ensures { IfOk result (λ state. state ≡ entering dir name ver rows node job) }
{
    let rows = with_row(rows, name.copy(alloc)?, node)?;
    if !fits(alloc, rows.as_slice())? {
        return Ok(refuses(FileFault::DirFull));
    }
    Ok(PlanState::Enters {
        dir,
        name,
        ver,
        rows,
        ino: node.ino,
        job,
    })
}

/// The entry of a name goes.
fn leaving(
    dir: Ino,
    name: Name,
    ver: u64,
    rows: List<(Name, Node)>,
    ino: Ino,
    job: Job,
) -> PlanState
    ensures { result ≡ leaving dir name ver rows ino job }
{
    let rows = without(rows, &name);
    PlanState::Enters {
        dir,
        name,
        ver,
        rows,
        ino,
        job,
    }
}

/// Whether a job is done at a file alone.
fn needs_file(job: &Job) -> bool
    ensures { result ≡ needs_file job.now }
{
    match job {
        Job::Puts { .. } | Job::Gets { .. } | Job::Sizes | Job::Removes | Job::Moves { .. } => true,
        Job::Makes(_) | Job::Lists | Job::Links { .. } | Job::Unlinks(_) => false,
    }
}

/// The name has an entry, of a kind that fits the job.
fn at_entry(
    alloc: Global,
    dir: Ino,
    name: Name,
    ver: u64,
    rows: List<(Name, Node)>,
    job: Job,
    node: Node,
) -> Mem<PlanState>
    ensures { IfOk result (λ state. state ≡ at_entry dir name ver rows job node) }
{
    let ino = node.ino;
    match job {
        Job::Makes(_) => Ok(refuses(FileFault::Exists)),
        Job::Puts { offset, bytes } => Ok(putting(ino, offset, bytes)),
        Job::Gets { offset, len } => {
            let task = Task::Cuts { offset, len };
            Ok(PlanState::Measures { ino, task })
        }
        Job::Sizes => {
            let task = Task::Tells;
            Ok(PlanState::Measures { ino, task })
        }
        Job::Lists => {
            if !node.is_directory() {
                return Ok(refuses(FileFault::NotDir));
            }
            gathering(alloc, ino, 0, BUCKETS, List::new(alloc))
        }
        Job::Removes => Ok(leaving(dir, name, ver, rows, ino, Job::Removes)),
        Job::Moves { to } => {
            let job = Job::Links {
                node,
                from: dir,
                old: name,
            };
            Ok(walking_path(to, FileFault::Exists, job))
        }
        Job::Links { .. } => Ok(refuses(FileFault::Exists)),
        Job::Unlinks(old) => {
            if !old.is_same(node) {
                return Ok(PlanState::Ends(Answer::Done));
            }
            Ok(leaving(dir, name, ver, rows, ino, Job::Unlinks(old)))
        }
    }
}

/// The name has an entry.
fn found(
    alloc: Global,
    dir: Ino,
    name: Name,
    ver: u64,
    rows: List<(Name, Node)>,
    job: Job,
    node: Node,
) -> Mem<PlanState>
    ensures { IfOk result (λ state. state ≡ found dir name ver rows job node) }
{
    if needs_file(&job) && node.is_directory() {
        return Ok(refuses(FileFault::IsDir));
    }
    at_entry(alloc, dir, name, ver, rows, job, node)
}

/// The name has no entry.
fn unfound(
    alloc: Global,
    dir: Ino,
    name: Name,
    ver: u64,
    rows: List<(Name, Node)>,
    job: Job,
) -> Mem<PlanState>
    ensures { IfOk result (λ state. state ≡ unfound dir name ver rows job) }
{
    match job {
        Job::Makes(node) => entering(alloc, dir, name, ver, rows, node, Job::Makes(node)),
        Job::Links { node, from, old } => {
            let job = Job::Links { node, from, old };
            entering(alloc, dir, name, ver, rows, node, job)
        }
        Job::Unlinks(_) => Ok(PlanState::Ends(Answer::Done)),
        _ => Ok(refuses(FileFault::NoEntry)),
    }
}

/// The bucket of a path's last name was read.
pub(crate) fn looked(
    alloc: Global,
    dir: Ino,
    name: Name,
    ver: u64,
    job: Job,
    block: &[u8],
) -> Mem<PlanState>
    ensures { IfOk result (λ state. state ≡ looked dir name ver job (read_rows block.now)) }
{
    match read_bucket(alloc, block)? {
        None => Ok(refuses(FileFault::BadDir)),
        Some(rows) => match named(rows.as_slice(), &name) {
            None => unfound(alloc, dir, name, ver, rows, job),
            Some(node) => found(alloc, dir, name, ver, rows, job, node),
        },
    }
}

/// The bucket was written.
pub(crate) fn entered(job: Job, ino: Ino) -> PlanState
    ensures { result ≡ entered job ino }
{
    match job {
        Job::Makes(node) => PlanState::Ends(Answer::Made(node.ino.0)),
        Job::Removes => PlanState::Measures {
            ino,
            task: Task::Clears,
        },
        Job::Links { node, from, old } => PlanState::Syncs {
            dir: from,
            name: old,
            node,
        },
        _ => PlanState::Ends(Answer::Done),
    }
}
