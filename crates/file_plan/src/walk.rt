//! The way along a path.
ghost use Rattle.std.specs.Prelude.{◌≡◌, ◌∷◌, [], ◌&&◌, MatchOption, IfOk, if◌then◌else◌};
ghost use Rattle.std.specs.List.{list_all};
ghost use Rattle.file_plan.specs.Names.{is_good};
ghost use Rattle.file_plan.specs.Format.{read_rows};
ghost use Rattle.file_plan.specs.Plan.{refuses, walking, walking_path, walked_to, walked, listing, start};

use crate::bucket::read_bucket;
use crate::gather::gathering;
use crate::name::names_of;
use crate::places::{BUCKETS, ROOT};
use crate::rows::named;
use crate::{Job, Kind, Name, Node, PlanState};
use std::alloc::Global;
use version_model::{Answer, FileCall, FileFault};
use xfs_base::{Ino, List, Mem, Text};

pub(crate) fn refuses(fault: FileFault) -> PlanState
    ensures { result ≡ refuses fault }
{
    PlanState::Ends(Answer::File(fault))
}

fn split_first(names: List<Name>) -> Option<(Name, List<Name>)>
    ensures { MatchOption result (names ≡ []) (λ split. names ≡ split.0 ∷ split.1) }
{
    let mut names = names.into_vec();
    if names.is_empty() {
        return None;
    }
    let first = names.remove(0);
    Some((first, List::from_vec(names)))
}

/// In a directory, with this name and more to come.
fn walking(dir: Ino, name: Name, rest: List<Name>, job: Job) -> PlanState
    ensures { result ≡ walking dir name rest job }
{
    match split_first(rest) {
        None => PlanState::Looks { dir, name, job },
        Some((onto, rest)) => PlanState::Walks {
            dir,
            name,
            onto,
            rest,
            job,
        },
    }
}

/// From the root along a path; the root itself is refused.
pub(crate) fn walking_path(path: List<Name>, at_root: FileFault, job: Job) -> PlanState
    ensures { result ≡ walking_path path at_root job }
{
    match split_first(path) {
        None => refuses(at_root),
        Some((name, rest)) => walking(ROOT, name, rest, job),
    }
}

fn walked_to(onto: Name, rest: List<Name>, job: Job, found: Option<Node>) -> PlanState
    ensures { result ≡ walked_to onto rest job found }
{
    match found {
        None => refuses(FileFault::NoEntry),
        Some(node) => {
            if node.is_directory() {
                walking(node.ino, onto, rest, job)
            } else {
                refuses(FileFault::NotDir)
            }
        }
    }
}

/// The bucket of a name was read, with more names to come.
pub(crate) fn walked(
    alloc: Global,
    name: &Name,
    onto: Name,
    rest: List<Name>,
    job: Job,
    block: &[u8],
) -> Mem<PlanState>
    ensures { IfOk result (λ state. state ≡ walked name.now onto rest job (read_rows block.now)) }
{
    match read_bucket(alloc, block)? {
        None => Ok(refuses(FileFault::BadDir)),
        Some(rows) => Ok(walked_to(onto, rest, job, named(rows.as_slice(), name))),
    }
}

fn on_path(alloc: Global, path: &List<Text>, at_root: FileFault, job: Job) -> Mem<PlanState>
    ensures { IfOk result (λ state. state ≡ (if list_all is_good path.now then walking_path path.now at_root job else refuses FileFault.BadName)) }
{
    match names_of(alloc, path)? {
        None => Ok(refuses(FileFault::BadName)),
        Some(path) => Ok(walking_path(path, at_root, job)),
    }
}

fn listing(alloc: Global, path: &List<Text>) -> Mem<PlanState>
    ensures { IfOk result (λ state. state ≡ (if list_all is_good path.now then listing path.now else refuses FileFault.BadName)) }
{
    match names_of(alloc, path)? {
        None => Ok(refuses(FileFault::BadName)),
        Some(path) => match split_first(path) {
            None => gathering(alloc, ROOT, 0, BUCKETS, List::new(alloc)),
            Some((name, rest)) => Ok(walking(ROOT, name, rest, Job::Lists)),
        },
    }
}

fn moving(alloc: Global, from: &List<Text>, to: &List<Text>) -> Mem<PlanState>
    ensures { IfOk result (λ state. state ≡
        (if list_all is_good from.now && list_all is_good to.now then walking_path from.now FileFault.IsDir (Job.Moves to.now)
        else refuses FileFault.BadName)) }
{
    match names_of(alloc, to)? {
        None => Ok(refuses(FileFault::BadName)),
        Some(to) => on_path(alloc, from, FileFault::IsDir, Job::Moves { to }),
    }
}

/// Where a call begins; a file or a directory that it makes gets this index number.
pub(crate) fn start(alloc: Global, call: &FileCall, ino: Ino) -> Mem<PlanState>
    ensures { IfOk result (λ state. state ≡ start call.now ino) }
{
    match call {
        FileCall::Mk { path } => {
            let kind = Kind::File;
            let job = Job::Makes(Node { kind, ino });
            on_path(alloc, path, FileFault::Exists, job)
        }
        FileCall::Mkdir { path } => {
            let kind = Kind::Directory;
            let job = Job::Makes(Node { kind, ino });
            on_path(alloc, path, FileFault::Exists, job)
        }
        FileCall::Put {
            path,
            offset,
            bytes,
        } => {
            let offset = *offset;
            let bytes = List::from_vec(Vec::from_slice(alloc, bytes.as_slice())?);
            on_path(alloc, path, FileFault::IsDir, Job::Puts { offset, bytes })
        }
        FileCall::Get { path, offset, len } => {
            let (offset, len) = (*offset, *len);
            on_path(alloc, path, FileFault::IsDir, Job::Gets { offset, len })
        }
        FileCall::Size { path } => on_path(alloc, path, FileFault::IsDir, Job::Sizes),
        FileCall::Ls { path } => listing(alloc, path),
        FileCall::Rm { path } => on_path(alloc, path, FileFault::IsDir, Job::Removes),
        FileCall::Mv { from, to } => moving(alloc, from, to),
    }
}
