//! The reports of the clients and the cleaner.
ghost use Rattle.std.specs.Prelude.{◌≡◌, ◌++◌, ◌+◌, ◌≤◌, IfOk, OnOk, map};
ghost use Rattle.std.specs.List.{list_any};
ghost use Rattle.xfs_base.specs.Nodes.{same_node};
ghost use Rattle.takeover.specs.Reports.{polled, is_heard, unheard, awaited_of, end_from, end_of, horizon_at, applied_at, applied_of, with_client, held_by, beliefs_of};

use std::alloc::Global;
use xfs_base::limits::BLOCK_LOGS;
use xfs_base::{BlockId, End, List, LogId, Mem, Mode, NodeId};

/// What a node reported.
#[derive(Drop)]
pub(crate) struct Report {
    /// The node.
    pub from: NodeId,
    /// What it holds.
    pub held: List<(BlockId, Mode)>,
    /// How far its log reaches.
    pub end: End,
}

/// The number behind the last log that says where blocks lie.
pub(crate) const LOGS_END: u8 = BLOCK_LOGS + 1;

/// The nodes that are polled and whose report is not in: clients in order, then the cleaner.
pub(crate) fn awaited_of(alloc: Global, clients: u8, reports: &[Report]) -> Mem<List<NodeId>>
    ensures { IfOk result (λ nodes. nodes ≡ awaited_of clients reports.now) }
{
    let all = polled(alloc, clients)?;
    unheard(alloc, reports, all.as_slice())
}

/// Those of these nodes whose report is not in, in order.
fn unheard(alloc: Global, reports: &[Report], nodes: &[NodeId]) -> Mem<List<NodeId>>
    ensures { IfOk result (λ left. left ≡ unheard reports.now nodes.now) }
{
    let mut left = List::new(alloc);
    for node in nodes {
        if !is_heard(reports, *node) {
            left.push(*node)?;
        }
    }
    Ok(left)
}

/// The nodes that are polled.
fn polled(alloc: Global, clients: u8) -> Mem<List<NodeId>>
    ensures { IfOk result (λ nodes. nodes ≡ polled clients) }
{
    let mut nodes = List::new(alloc);
    for before in 0..clients {
        nodes.push(NodeId::Client(before + 1))?;
    }
    nodes.push(NodeId::Cleaner)?;
    Ok(nodes)
}

fn is_heard(reports: &[Report], node: NodeId) -> bool
    ensures { result ≡ is_heard reports.now node }
{
    reports.iter().any(|report| report.from.is_same(node))
}

/// Whether the node is one of these.
pub(crate) fn is_among(nodes: &[NodeId], node: NodeId) -> bool
    ensures { result ≡ list_any (λ n. same_node n node) nodes.now }
{
    nodes.iter().any(|other| other.is_same(node))
}

/// The end that a node reported; nothing is settled where it is not heard.
fn end_from(reports: &[Report], node: NodeId) -> End
    ensures { result ≡ end_from node reports.now }
{
    for report in reports {
        if report.from.is_same(node) {
            return report.end;
        }
    }
    End::none()
}

/// The reported end of a log, 1 to 9.
pub(crate) fn end_of(reports: &[Report], log: u8) -> End
    ensures { result ≡ end_of reports.now log }
{
    end_from(reports, LogId(log).block_writer())
}

/// The first number of a log, 1 to 9, that the checkpoint does not cover.
pub(crate) fn horizon_at(horizon: &[u32], log: u8) -> u32
    requires { 1 ≤ log }
    ensures { result ≡ horizon_at horizon.now log }
{
    match horizon.get(usize::from(log) - 1) {
        Some(seq) => *seq,
        None => 0,
    }
}

/// Up to which number a log, 1 to 9, is in the index.
fn applied_at(horizon: &[u32], reports: &[Report], log: u8) -> u32
    requires { 1 ≤ log }
    ensures { result ≡ applied_at horizon.now reports.now log }
{
    let covered = horizon_at(horizon, log).saturating_sub(1);
    let end = end_of(reports, log).seq;
    if end < covered { covered } else { end }
}

/// Up to which number each log, from log 1 to 9, is in the index.
#[tactic(auto, unfolding(crate::specs::Reports::applied_of))]
pub(crate) fn applied_of(alloc: Global, horizon: &[u32], reports: &[Report]) -> Mem<List<u32>>
    ensures { IfOk result (λ applied. applied ≡ applied_of horizon.now reports.now) }
{
    let mut applied = List::new(alloc);
    for log in 1..LOGS_END {
        applied.push(applied_at(horizon, reports, log))?;
    }
    Ok(applied)
}

/// Which client holds what.
pub(crate) fn beliefs_of(alloc: Global, reports: &[Report]) -> Mem<List<(BlockId, u8, Mode)>>
    ensures { IfOk result (λ beliefs. beliefs ≡ beliefs_of reports.now) }
{
    let mut beliefs = List::new(alloc);
    for report in reports {
        add_held(&mut beliefs, report)?;
    }
    Ok(beliefs)
}

fn add_held(beliefs: &mut List<(BlockId, u8, Mode)>, report: &Report) -> Mem<()>
    ensures { OnOk result (beliefs.new ≡ beliefs.old ++ held_by report.now.from report.now.held) }
{
    match report.from {
        NodeId::Client(client) => add_of(beliefs, client, report.held.as_slice()),
        _ => Ok(()),
    }
}

fn add_of(beliefs: &mut List<(BlockId, u8, Mode)>, client: u8, held: &[(BlockId, Mode)]) -> Mem<()>
    ensures { OnOk result (beliefs.new ≡ beliefs.old ++ map (with_client client) held.now) }
{
    for (block, mode) in held {
        beliefs.push((*block, client, *mode))?;
    }
    Ok(())
}
