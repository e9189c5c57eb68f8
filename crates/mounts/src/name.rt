//! What all cells of one run with applications agree on.
use live_links::RunName;
use std::marker::Brand;

/// The name of a run with applications: what stands before its first event, and the ports as they were made. Each call
/// that runs applications picks one.
pub trait MountName: RunName {
    ghost use Rattle.std.specs.Prelude.{List as Seq};
    ghost use Rattle.mounts.specs.declared.port.Port.{Port};

    /// The ports of the clients, as they were made, in order of clients.
    ghost ports: { Seq Port };
}

impl MountName for Brand {
    ghost use Rattle.std.specs.Prelude.{[]};

    ghost ports = { [] };
}
