//! Entries in rising order of names.
ghost use Rattle.std.specs.Prelude.{◌≡◌, ◌<◌, ◌≤◌, ◌++◌, IfOk, IfSome, IsTrue, OnOk, MatchOption, MatchResult, length, take, drop, remove, insert, slice_set};
ghost use Rattle.file_plan.specs.declared.node.Node.{Node as NodeValue};
ghost use Rattle.std.specs.FinMap.Entries.{is_sorted};
ghost use Rattle.std.specs.Map.{remove_entry};
ghost use Rattle.std.specs.BTreeMap.{is_at, insert_entry};
ghost use Rattle.file_plan.specs.Names.{name_cmp, named};
ghost use Rattle.file_plan.specs.Merging.{Passes};
ghost use Rattle.file_plan.specs.Plan.{insert_all};

use crate::{Name, Node};
use std::alloc::Global;
use std::cmp::Ordering;
use std::collections::VecDeque;
use xfs_base::{List, Mem};

/// How many entries stand before a name.
fn count_before(rows: &[(Name, Node)], name: &Name) -> usize
    requires { IsTrue (is_sorted name_cmp rows.now) }
    ensures { named name.now (take 1 (drop result rows.now)) ≡ named name.now rows.now }
{
    rows.partition_point(|row| name.order(&row.0).is_gt())
}

/// What a name leads to.
pub(crate) fn named(rows: &[(Name, Node)], name: &Name) -> Option<Node>
    requires { IsTrue (is_sorted name_cmp rows.now) }
    ensures { result ≡ named name.now rows.now }
{
    let i = count_before(rows, name);
    if i >= rows.len() {
        return None;
    }
    if name.order(&rows[i].0).is_eq() {
        Some(rows[i].1)
    } else {
        None
    }
}

/// The place of a name among entries, or the place before which it would stand.
fn search(rows: &[(Name, Node)], name: &Name) -> Result<usize, usize>
    ensures within { MatchResult result (λ i. i < length rows.now) (λ i. i ≤ length rows.now) }
    ensures placed { MatchResult result (λ i. (node : NodeValue) → insert_entry name_cmp rows.now name.now node ≡ slice_set rows.now i (name.now, node))
        (λ i. (node : NodeValue) → insert_entry name_cmp rows.now name.now node ≡ insert rows.now i (name.now, node)) }
{
    for i in 0..rows.len() {
        match name.order(&rows[i].0) {
            Ordering::Less => return Err(i),
            Ordering::Equal => return Ok(i),
            Ordering::Greater => {}
        }
    }
    Err(rows.len())
}

/// The entries with another one, which takes the place of one of its name.
pub(crate) fn with_row(rows: List<(Name, Node)>, name: Name, node: Node) -> Mem<List<(Name, Node)>>
    ensures { IfOk result (λ more. more ≡ insert_entry name_cmp rows name node) }
{
    let mut rows = rows.into_vec();
    match search(&rows, &name) {
        Ok(i) => {
            rows[i] = (name, node);
            Ok(List::from_vec(rows))
        }
        Err(i) => {
            rows.insert(i, (name, node))?;
            Ok(List::from_vec(rows))
        }
    }
}

/// Moves the entries before a name from the front of the others, and lets that of the name go.
fn pass(all: &mut Vec<(Name, Node)>, rest: &mut VecDeque<(Name, Node)>, name: &Name) -> Mem<()>
    ensures { OnOk result (Passes all.old.items rest.old.items name.now all.new.items rest.new.items) }
{
    while let Some((key, _)) = rest.front() {
        match name.order(key) {
            Ordering::Less => return Ok(()),
            Ordering::Equal => {
                let _ = rest.pop_front();
                return Ok(());
            }
            Ordering::Greater => {
                if let Some(row) = rest.pop_front() {
                    all.push(row)?;
                }
            }
        }
    }
    Ok(())
}

/// The entries and those after them.
fn with_rest(all: Vec<(Name, Node)>, rest: VecDeque<(Name, Node)>) -> Mem<List<(Name, Node)>>
    ensures { IfOk result (λ rows. rows ≡ all.items ++ rest.items) }
{
    let mut rows = all;
    for row in rest {
        rows.push(row)?;
    }
    Ok(List::from_vec(rows))
}

/// The entries and more of them in rising order of names, which take the places of those of their names:
/// each is moved once.
pub(crate) fn insert_all(
    alloc: Global,
    rows: List<(Name, Node)>,
    more: List<(Name, Node)>,
) -> Mem<List<(Name, Node)>>
    requires { IsTrue (is_sorted name_cmp more) }
    ensures { IfOk result (λ all. all ≡ insert_all rows more) }
{
    let mut all = Vec::with_capacity(alloc, rows.len().saturating_add(more.len()))?;
    let mut rest = VecDeque::from(rows.into_vec());
    for (name, node) in more.into_vec() {
        pass(&mut all, &mut rest, &name)?;
        all.push((name, node))?;
    }
    with_rest(all, rest)
}

fn place_of(rows: &[(Name, Node)], name: &Name) -> Option<usize>
    ensures within { MatchOption result (remove_entry (is_at (name_cmp name.now)) rows.now ≡ rows.now) (λ i. i < length rows.now) }
    ensures placed { IfSome result (λ i. remove_entry (is_at (name_cmp name.now)) rows.now ≡ remove rows.now i) }
{
    for i in 0..rows.len() {
        if name.order(&rows[i].0).is_eq() {
            return Some(i);
        }
    }
    None
}

/// The entries without that of a name.
pub(crate) fn without(rows: List<(Name, Node)>, name: &Name) -> List<(Name, Node)>
    ensures { result ≡ remove_entry (is_at (name_cmp name.now)) rows }
{
    let mut rows = rows.into_vec();
    match place_of(&rows, name) {
        None => List::from_vec(rows),
        Some(i) => {
            let _ = rows.remove(i);
            List::from_vec(rows)
        }
    }
}
