//! Names of logs and of their segments.
ghost use Rattle.std.specs.Prelude.{◌≡◌, ◌↔◌, IsTrue};
ghost use Rattle.xfs_base.specs.Logs.{block_writer, writer_of};
ghost use Rattle.xfs_base.specs.Segments.{pass_cmp, seg_cmp, same_name, same_segment, no_end, names_none};

use crate::NodeId;
use crate::limits::BLOCK_LOGS;
use std::cmp::Ordering;

/// A log: 1 to 8 are the clients', 9 is the cleaner's, 10 to 13 are the managers'.
#[derive(Clone, Copy, PartialEq, Eq, PartialOrd, Ord)]
pub struct LogId(pub u8);

impl LogId {
    /// The node that writes this log, one of those that say where blocks lie: the cleaner or a client.
    pub fn block_writer(self) -> NodeId
        ensures { result ≡ block_writer self.0 }
    {
        if self.0 == BLOCK_LOGS {
            NodeId::Cleaner
        } else {
            NodeId::Client(self.0)
        }
    }

    /// The node that writes this log: a client, the cleaner or a manager.
    pub fn writer(self) -> NodeId
        ensures { result ≡ writer_of self.0 }
    {
        if BLOCK_LOGS < self.0 {
            NodeId::Manager(self.0 - BLOCK_LOGS)
        } else {
            self.block_writer()
        }
    }
}

/// By which try a segment was written: the incarnation of its writer, then the attempt of that
/// incarnation. The order is by incarnation, then by attempt.
#[derive(Clone, Copy, Debug, PartialEq, Eq, PartialOrd, Ord)]
pub struct Pass {
    /// The incarnation of the writer; it rises at each restart.
    pub inc: u32,
    /// The attempt; it rises each time the segment is striped anew.
    pub att: u32,
}

impl Pass {
    /// Where this pass stands to another.
    pub fn order(self, other: Pass) -> Ordering
        ensures { result ≡ pass_cmp self other }
    {
        self.cmp(&other)
    }
}

/// The name of a segment. One name names one content for ever. The order is by log, then number, then
/// pass.
#[derive(Clone, Copy, PartialEq, Eq, PartialOrd, Ord)]
pub struct SegName {
    /// The log that it is part of.
    pub log: LogId,
    /// Its number in the log, from 1.
    pub seq: u32,
    /// The try by which it was written.
    pub pass: Pass,
}

impl SegName {
    /// Where this name stands to another.
    pub fn order(self, other: SegName) -> Ordering
        ensures { result ≡ seg_cmp self other }
    {
        self.cmp(&other)
    }

    /// Whether both are one name.
    pub fn is_same(self, other: SegName) -> bool
        ensures exact { IsTrue result ↔ (self ≡ other) }
        ensures test { result ≡ same_name self other }
    {
        self.order(other).is_eq()
    }
}

/// A segment and the stripe group over which it lies (the 1996 paper, "The Stripe Group Map": a log address holds
/// the group).
#[derive(Clone, Copy, PartialEq, Eq)]
pub struct SegRef {
    /// The segment.
    pub name: SegName,
    /// The id of its stripe group.
    pub group: u32,
}

impl SegRef {
    /// Whether both are one segment over one group.
    pub fn is_same(self, other: SegRef) -> bool
        ensures { result ≡ same_segment self other }
    {
        self.name.is_same(other.name) && self.group == other.group
    }
}

/// The newest settled segment of a log. A number of 0 says that nothing is settled.
#[derive(Clone, Copy, PartialEq, Eq)]
pub struct End {
    /// Its number.
    pub seq: u32,
    /// The try by which it was written.
    pub pass: Pass,
    /// The id of its stripe group.
    pub group: u32,
}

impl End {
    /// The end of a log of which nothing is settled.
    pub fn none() -> End
        ensures { result ≡ no_end }
    {
        End {
            seq: 0,
            pass: Pass { inc: 0, att: 0 },
            group: 0,
        }
    }
}

/// The segment before another in its log, whose number is one lower. All zero says that there is none.
#[derive(Clone, Copy, PartialEq, Eq)]
pub struct Prior {
    /// The try by which it was written.
    pub pass: Pass,
    /// The id of its stripe group.
    pub group: u32,
}

impl Prior {
    /// Whether it says that there is no segment before.
    pub fn names_none(self) -> bool
        ensures { result ≡ names_none self }
    {
        self.pass.inc == 0 && self.pass.att == 0 && self.group == 0
    }
}
