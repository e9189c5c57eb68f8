//! Bodies of packets.
ghost use Rattle.std.specs.Prelude.{◌≡◌, IfOk};

use crate::{
    Check, CkptAck, CkptDone, Dead, Delete, Deleted, DeltaAck, Deltas, Fence, Fenced, Fetch,
    Forward, Found, Gave, Gone, Grant, Hello, ListAsk, Listed, Live, Missing, News, Poll, Recall,
    Report, Shared, Store, Stored, Supply, Usage, UsageAsk, Want, Welcome,
};
use std::alloc::Global;
use xfs_base::{Copied, Crosses, Mem};

/// What a packet says. Each body has its own type, which says what its fields are.
pub enum Body {
    /// A client to a manager.
    Want(Want),
    /// A manager to a client.
    Grant(Shared<Grant>),
    /// A manager to a client.
    Forward(Forward),
    /// A client to a client.
    Supply(Supply),
    /// A manager to a client.
    Recall(Recall),
    /// A client to a manager.
    Gave(Gave),
    /// A manager to a client.
    Gone(Gone),
    /// The owner of a log to a manager.
    Deltas(Deltas),
    /// A manager to the owner of a log.
    DeltaAck(DeltaAck),
    /// A manager to a client or the cleaner.
    Poll(Poll),
    /// A client or the cleaner to a manager.
    Report(Report),
    /// The writer of a log to a server.
    Store(Store),
    /// A server to the writer of a log.
    Stored(Stored),
    /// Any node to a server.
    Fetch(Fetch),
    /// A server to who asked.
    Fragment(Found),
    /// A server to who asked.
    Missing(Missing),
    /// The owner of a log to a server.
    Fence(Fence),
    /// A server to the owner of a log.
    Fenced(Fenced),
    /// A server or the cleaner to a server.
    List(ListAsk),
    /// A server to who asked.
    Listed(Listed),
    /// The cleaner to a server.
    Delete(Delete),
    /// A server to the cleaner.
    Deleted(Deleted),
    /// The cleaner to a manager.
    Check(Check),
    /// A manager to the cleaner.
    Live(Live),
    /// A manager to the cleaner.
    Dead(Dead),
    /// The cleaner to a manager.
    UsageAsk(UsageAsk),
    /// A manager to the cleaner.
    Usage(Usage),
    /// Any node to the registry.
    Hello(Hello),
    /// The registry to who asked.
    Welcome(Shared<Welcome>),
    /// The registry to all nodes.
    MapNews(Shared<News>),
    /// A manager to the registry.
    CkptDone(Shared<CkptDone>),
    /// The registry to a manager.
    CkptAck(CkptAck),
}

impl Drop for Body {
    fn drop(self) {
        match self {
            Body::Want(_) => {}
            Body::Grant(part) => drop(part),
            Body::Forward(_) => {}
            Body::Supply(part) => drop(part),
            Body::Recall(_) => {}
            Body::Gave(_) => {}
            Body::Gone(_) => {}
            Body::Deltas(part) => drop(part),
            Body::DeltaAck(_) => {}
            Body::Poll(_) => {}
            Body::Report(part) => drop(part),
            Body::Store(part) => drop(part),
            Body::Stored(_) => {}
            Body::Fetch(_) => {}
            Body::Fragment(part) => drop(part),
            Body::Missing(_) => {}
            Body::Fence(_) => {}
            Body::Fenced(part) => drop(part),
            Body::List(_) => {}
            Body::Listed(part) => drop(part),
            Body::Delete(_) => {}
            Body::Deleted(_) => {}
            Body::Check(_) => {}
            Body::Live(_) => {}
            Body::Dead(_) => {}
            Body::UsageAsk(_) => {}
            Body::Usage(part) => drop(part),
            Body::Hello(_) => {}
            Body::Welcome(part) => drop(part),
            Body::MapNews(part) => drop(part),
            Body::CkptDone(part) => drop(part),
            Body::CkptAck(_) => {}
        }
    }
}

impl Body {
    /// A body equal to this one.
    pub fn copy(&self, alloc: Global) -> Mem<Body>
        ensures { IfOk result (λ copied. copied ≡ self.now) }
    {
        match self {
            Body::Want(want) => Ok(Body::Want(*want)),
            Body::Grant(grant) => Ok(Body::Grant(grant.copy(alloc)?)),
            Body::Forward(forward) => Ok(Body::Forward(*forward)),
            Body::Supply(supply) => Ok(Body::Supply(supply.copy(alloc)?)),
            Body::Recall(recall) => Ok(Body::Recall(*recall)),
            Body::Gave(gave) => Ok(Body::Gave(*gave)),
            Body::Gone(gone) => Ok(Body::Gone(*gone)),
            Body::Deltas(deltas) => Ok(Body::Deltas(deltas.copy(alloc)?)),
            Body::DeltaAck(ack) => Ok(Body::DeltaAck(*ack)),
            Body::Poll(poll) => Ok(Body::Poll(*poll)),
            Body::Report(report) => Ok(Body::Report(report.copy(alloc)?)),
            Body::Store(store) => Ok(Body::Store(store.copy(alloc)?)),
            Body::Stored(stored) => Ok(Body::Stored(*stored)),
            Body::Fetch(fetch) => Ok(Body::Fetch(*fetch)),
            Body::Fragment(found) => Ok(Body::Fragment(found.copy(alloc)?)),
            Body::Missing(missing) => Ok(Body::Missing(*missing)),
            Body::Fence(fence) => Ok(Body::Fence(*fence)),
            Body::Fenced(fenced) => Ok(Body::Fenced(fenced.copy(alloc)?)),
            Body::List(list) => Ok(Body::List(*list)),
            Body::Listed(listed) => Ok(Body::Listed(listed.copy(alloc)?)),
            Body::Delete(delete) => Ok(Body::Delete(*delete)),
            Body::Deleted(deleted) => Ok(Body::Deleted(*deleted)),
            Body::Check(check) => Ok(Body::Check(*check)),
            Body::Live(live) => Ok(Body::Live(*live)),
            Body::Dead(dead) => Ok(Body::Dead(*dead)),
            Body::UsageAsk(ask) => Ok(Body::UsageAsk(*ask)),
            Body::Usage(usage) => Ok(Body::Usage(usage.copy(alloc)?)),
            Body::Hello(hello) => Ok(Body::Hello(*hello)),
            Body::Welcome(welcome) => Ok(Body::Welcome(welcome.copy(alloc)?)),
            Body::MapNews(news) => Ok(Body::MapNews(news.copy(alloc)?)),
            Body::CkptDone(done) => Ok(Body::CkptDone(done.copy(alloc)?)),
            Body::CkptAck(ack) => Ok(Body::CkptAck(*ack)),
        }
    }
}

impl Copied for Body {
    fn copied(&self, alloc: Global) -> Mem<Body> {
        self.copy(alloc)
    }
}

impl Crosses for Body {}
