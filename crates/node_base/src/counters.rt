//! The ends of counters.
ghost use Rattle.std.specs.Prelude.{◌≡◌};
ghost use Rattle.node_base.specs.Room.{has_room, has_long_room};

use xfs_base::limits::COUNTER_ROOM;

/// Whether a counter is at least 65,536 below its end. A node looks at each of its counters before it takes
/// an event; where one isn't that far below, the event changes nothing.
pub fn has_room(counter: u32) -> bool
    ensures { result ≡ has_room counter }
{
    counter <= u32::MAX - COUNTER_ROOM
}

/// Whether a long counter is at least 65,536 below its end.
pub fn has_long_room(counter: u64) -> bool
    ensures { result ≡ has_long_room counter }
{
    counter <= u64::MAX - u64::from(COUNTER_ROOM)
}
