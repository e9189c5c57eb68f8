//! What a line of a script asks for.
ghost use Rattle.std.specs.Prelude.{◌≡◌, IfOk};

use crate::FileCall;
use std::alloc::Global;
use xfs_base::{BlockId, Copied, Crosses, Mem, NodeId, Value};

/// What a line of a script asks of a node, or of the network. `docs/LANGUAGE.md` has the lines.
pub enum Work {
    /// A client writes a block of a raw file.
    Bput {
        /// The client.
        client: u8,
        /// The block.
        block: BlockId,
        /// What is written; never Absent.
        value: Value,
    },
    /// A client reads a block.
    Bget {
        /// The client.
        client: u8,
        /// The block.
        block: BlockId,
    },
    /// A client waits until all that it changed is settled.
    Sync {
        /// The client.
        client: u8,
    },
    /// A client calls on files.
    File {
        /// The client.
        client: u8,
        /// The call.
        call: FileCall,
    },
    /// A client, a manager or the cleaner crashes.
    Crash {
        /// The node.
        node: NodeId,
    },
    /// A client, a manager or the cleaner starts again.
    Restart {
        /// The node.
        node: NodeId,
    },
    /// A manager writes a checkpoint of its slots.
    Checkpoint {
        /// The manager.
        manager: u8,
    },
    /// A storage server loses its disk.
    Lose {
        /// The server.
        server: u8,
    },
    /// A storage server fills its shelf again from the others.
    Rebuild {
        /// The server.
        server: u8,
    },
    /// The registry gives a slot to a manager.
    Move {
        /// The slot, 0 to 7.
        slot: u8,
        /// The manager.
        manager: u8,
    },
    /// The cleaner empties old segments.
    Clean {
        /// At most how many.
        count: u32,
    },
    /// The network loses the next so many packets.
    NetLose(u32),
    /// The network repeats the next so many packets.
    NetAgain(u32),
    /// The network delivers packets in an order drawn from this number; 0 ends it.
    NetMix(u32),
    /// The network holds all packets back.
    NetHold,
    /// The network delivers what it holds.
    NetGo,
    /// The network delivers at most so many packets, one after the other, though it holds them back.
    NetStep(u32),
    /// A board of the replicated registry stops.
    BoardStop(u8),
    /// A board of the replicated registry starts again.
    BoardStart(u8),
    /// A storage server stops within the disk write or sync that follows so many more.
    ServerStop {
        /// The server.
        server: u8,
        /// How many writes and syncs of its disk still pass.
        passes: u32,
    },
    /// A storage server starts again from its disk.
    ServerStart(u8),
}

impl Drop for Work {
    fn drop(self) {
        match self {
            Work::Bput {
                client: _,
                block: _,
                value,
            } => drop(value),
            Work::Bget {
                client: _,
                block: _,
            } => {}
            Work::Sync { client: _ } => {}
            Work::File { client: _, call } => drop(call),
            Work::Crash { node: _ } => {}
            Work::Restart { node: _ } => {}
            Work::Checkpoint { manager: _ } => {}
            Work::Lose { server: _ } => {}
            Work::Rebuild { server: _ } => {}
            Work::Move {
                slot: _,
                manager: _,
            } => {}
            Work::Clean { count: _ } => {}
            Work::NetLose(_) => {}
            Work::NetAgain(_) => {}
            Work::NetMix(_) => {}
            Work::NetHold => {}
            Work::NetGo => {}
            Work::NetStep(_) => {}
            Work::BoardStop(_) => {}
            Work::BoardStart(_) => {}
            Work::ServerStop {
                server: _,
                passes: _,
            } => {}
            Work::ServerStart(_) => {}
        }
    }
}

impl Work {
    /// A work equal to this one.
    pub fn copy(&self, alloc: Global) -> Mem<Work>
        ensures { IfOk result (λ copied. copied ≡ self.now) }
    {
        match self {
            Work::Bput {
                client,
                block,
                value,
            } => Ok(Work::Bput {
                client: *client,
                block: *block,
                value: value.copy(alloc)?,
            }),
            Work::Bget { client, block } => Ok(Work::Bget {
                client: *client,
                block: *block,
            }),
            Work::Sync { client } => Ok(Work::Sync { client: *client }),
            Work::File { client, call } => Ok(Work::File {
                client: *client,
                call: call.copy(alloc)?,
            }),
            Work::Crash { node } => Ok(Work::Crash { node: *node }),
            Work::Restart { node } => Ok(Work::Restart { node: *node }),
            Work::Checkpoint { manager } => Ok(Work::Checkpoint { manager: *manager }),
            Work::Lose { server } => Ok(Work::Lose { server: *server }),
            Work::Rebuild { server } => Ok(Work::Rebuild { server: *server }),
            Work::Move { slot, manager } => Ok(Work::Move {
                slot: *slot,
                manager: *manager,
            }),
            Work::Clean { count } => Ok(Work::Clean { count: *count }),
            Work::NetLose(count) => Ok(Work::NetLose(*count)),
            Work::NetAgain(count) => Ok(Work::NetAgain(*count)),
            Work::NetMix(number) => Ok(Work::NetMix(*number)),
            Work::NetHold => Ok(Work::NetHold),
            Work::NetGo => Ok(Work::NetGo),
            Work::NetStep(count) => Ok(Work::NetStep(*count)),
            Work::BoardStop(board) => Ok(Work::BoardStop(*board)),
            Work::BoardStart(board) => Ok(Work::BoardStart(*board)),
            Work::ServerStop { server, passes } => Ok(Work::ServerStop {
                server: *server,
                passes: *passes,
            }),
            Work::ServerStart(server) => Ok(Work::ServerStart(*server)),
        }
    }
}

impl Copied for Work {
    fn copied(&self, alloc: Global) -> Mem<Work> {
        self.copy(alloc)
    }
}

impl Crosses for Work {}
