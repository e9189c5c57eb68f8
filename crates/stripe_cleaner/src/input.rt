//! What a job of the cleaner takes.
use group_map::GroupMap;
use segment_format::Segment;
use xfs_base::{BlockId, Crosses, Entry, FragMeta, List, SegName, SlotNews};

/// What a job of the cleaner takes. What does not answer something that is awaited changes nothing.
#[derive(Drop)]
pub enum In {
    /// The registry's answer to the job's Hello. By its horizons the job judges to its end; a Welcome of other
    /// than eight slots changes nothing.
    Welcome {
        /// The slots 0 to 7, in order, each with the horizon of its newest checkpoint.
        slots: List<SlotNews>,
        /// The stripe groups as the node then has them.
        groups: GroupMap,
    },
    /// The node has promised a slot's epoch to its manager. Only a greater one than before changes anything;
    /// what the slot's usage was is then forgotten and asked for again.
    Promise {
        /// The slot, 0 to 7.
        slot: u8,
        /// The epoch.
        epoch: u32,
    },
    /// The stripe groups as the node has them now: those that were, and maybe more.
    Maps(GroupMap),
    /// What a storage server holds. Its groups are among those of the job.
    Listed {
        /// The server.
        server: u8,
        /// What is said of each fragment that it holds.
        held: List<FragMeta>,
    },
    /// How many live blocks of a slot each segment has. It counts only in the promised epoch.
    Usage {
        /// The slot, 0 to 7.
        slot: u8,
        /// The epoch in which its manager counted.
        epoch: u32,
        /// The counts above 0.
        counts: List<(SegName, u32)>,
    },
    /// The segment that was to be read; none where it is lost, and then it is passed over.
    Read(Option<Segment>),
    /// The newest version of a block lies at the place that was asked for. It counts only in the promised
    /// epoch of the block's slot, and where the block may be moved once more.
    Live {
        /// The block.
        block: BlockId,
        /// The epoch in which its manager answered.
        epoch: u32,
        /// What the index holds of it.
        entry: Entry,
    },
    /// The newest version of a block lies elsewhere. It counts only in the promised epoch of the block's slot.
    /// It names no item, so it counts for each Block item of that block in the segment: an owner puts a block
    /// into a segment of its log at most once, and the job relies on that.
    Dead {
        /// The block.
        block: BlockId,
        /// The epoch in which its manager answered.
        epoch: u32,
    },
    /// What was to be moved is settled in the cleaner's log.
    Moved,
    /// A storage server has deleted a segment, and never keeps it again.
    Deleted {
        /// The server.
        server: u8,
        /// The segment.
        name: SegName,
    },
    /// Time passes: what is awaited is asked for again. The first one says Hello.
    Tick,
}

impl Crosses for In {}
