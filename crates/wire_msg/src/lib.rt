//! What nodes say to each other: packets with their bodies, what happens to a node, and the trait of all
//! nodes. `docs/PROTOCOL_NODES.md` says who sends each body to whom, and when. This crate knows nothing of what
//! a node does with a packet.
#![tactic(auto)]

pub mod actor;
pub mod body;
pub mod cleaning;
pub mod deltas;
pub mod packet;
pub mod registry;
pub mod shared;
pub mod shared_packet;
pub mod storage;
pub mod tokens;

pub use actor::Actor;
pub use body::Body;
pub use cleaning::{Check, Dead, Live, Usage, UsageAsk};
pub use deltas::{DeltaAck, Deltas, Poll, Report};
pub use packet::{Do, Packet};
pub use registry::{CkptAck, CkptDone, Hello, News, Welcome};
pub use shared::Shared;
pub use shared_packet::SharedPacket;
pub use storage::{
    Delete, Deleted, Fence, Fenced, Fetch, Found, ListAsk, Listed, Missing, Store, Stored,
};
pub use tokens::{Forward, Gave, Gone, Grant, Recall, Supply, Want};
