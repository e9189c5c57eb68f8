//! A run and what it leaves.
use crate::{Event, World};
use script_text::Script;
use xfs_base::List;

/// A run: its script, its events and the world that they leave.
pub struct Estate<N> {
    /// The script.
    pub script: Script,
    /// What happened, in order.
    pub events: List<Event>,
    /// The world at the end.
    pub world: World<N>,
}

impl<N: Drop> Drop for Estate<N> {
    fn drop(self) {
        let Estate {
            script,
            events,
            world,
        } = self;
        drop(script);
        drop(events);
        drop(world);
    }
}
