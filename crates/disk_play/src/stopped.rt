//! A server that is stopped takes no event. It has no code of the product: the function below stands for the law that its contract states.

ghost use Rattle.disk_play.specs.Stopped.{StoppedTakeNone};

/// Whatever would happen to a server that is stopped, a packet that comes to it, time or a Begin, the play and the disks are left as they were.
pub fn stopped_servers_take_no_event<N>()
    ensures takes_none { StoppedTakeNone N }
{}
