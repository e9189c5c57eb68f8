//! A run with boards and what it leaves.
ghost use Rattle.std.specs.Prelude.{◌≡◌};

use board_world::BoardEvent;
use world_base::Estate;
use xfs_base::List;

/// A run with three boards in the registry's place.
pub struct BoardEstate<N> {
    /// The run of the one registry that the boards make together: its events are those of the other nodes, and
    /// for each command that became chosen, where it became so, what happened to the registry by it.
    pub estate: Estate<N>,
    /// What happened, in order, to the other nodes and to the boards.
    pub events: List<BoardEvent>,
}

impl<N: Drop> Drop for BoardEstate<N> {
    fn drop(self) {
        let BoardEstate { estate, events } = self;
        drop(estate);
        drop(events);
    }
}

impl<N: Drop> BoardEstate<N> {
    /// The run with one registry, and what happened to nodes and boards.
    pub fn into_parts(self) -> (Estate<N>, List<BoardEvent>)
        ensures { result ≡ (self.estate, self.events) }
    {
        let BoardEstate { estate, events } = self;
        (estate, events)
    }
}
