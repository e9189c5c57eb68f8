//! Who sends, as a manager asks of a packet.
ghost use Rattle.std.specs.Prelude.{◌≡◌};
ghost use Rattle.manager_serving.specs.Serving.{client_in, fed_log};

use xfs_base::{LogId, NodeId};

/// The number of a client.
pub fn client_in(node: NodeId) -> Option<u8>
    ensures { result ≡ client_in node }
{
    match node {
        NodeId::Client(number) => Some(number),
        NodeId::Manager(_) | NodeId::Server(_) | NodeId::Cleaner | NodeId::Registry => None,
    }
}

/// The log that a client or the cleaner feeds to managers.
pub fn fed_log(from: NodeId) -> Option<LogId>
    ensures { result ≡ fed_log from }
{
    match from {
        NodeId::Client(_) | NodeId::Cleaner => Some(from.log()),
        NodeId::Manager(_) | NodeId::Server(_) | NodeId::Registry => None,
    }
}
