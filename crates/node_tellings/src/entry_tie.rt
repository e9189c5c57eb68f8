//! Where blocks lie, as nodes hear and tell it: each entry that a node holds, or that a packet bears, came from a segment that was filed. It has no code: each
//! function below has an empty body, and its contract is a law. `specs/entry_tie/Told.antt` says what of a packet tells where a block lies.
//!
//! The laws are stated of the rows that filed segments say; they are proved of any entries that are told, in `proofs/entry_tie/ClientPhases.antt`,
//! `proofs/entry_tie/Managers.antt`, `proofs/entry_tie/CleanerPhases.antt`, `proofs/entry_tie/Servers.antt` and `proofs/entry_tie/Registries.antt`.

ghost use Rattle.node_tellings.specs.entry_tie.CleanerTells.{CleanerHoldsRise, CleanerStartsTold, CleanerTellsTold};
ghost use Rattle.node_tellings.specs.entry_tie.ClientTells.{ClientHoldsRise, ClientStartsTold, ClientsTellTold};
ghost use Rattle.node_tellings.specs.entry_tie.ManagerTells.{ManagerHoldsRise, ManagerStartsTold, ManagersTellTold};
ghost use Rattle.node_tellings.specs.entry_tie.OtherTells.{RegistryTellsNone, ServersTellNone};

/// What a client holds and tells of where blocks lie was filed.
///
/// - `start`: a client at its start holds nothing of it.
/// - `rises`: what filed segments said they say later too.
/// - `events`: where the place of each block that the client fetches or reads, each row that its feed keeps, and what the packet that comes tells, is what
///   filed segments say, and so is what the segment says that its log has in flight, and each that it read back, where it acts them to be filed in the event,
///   then so is all that it holds after the event, and all that it sends.
pub fn clients_tell_told_entries()
    ensures start { ClientStartsTold }
    ensures rises { ClientHoldsRise }
    ensures events { ClientsTellTold }
{}

/// What a manager holds and tells of where blocks lie was filed.
///
/// - `start`: a manager at its start holds nothing of it.
/// - `rises`: what filed segments said they say later too.
/// - `events`: where each row of the indexes of its slots, of what its takeovers have read, and of the pages of checkpoints that wait or are in flight, and
///   what the packet that comes tells, is what filed segments say, and so is what a segment says that an answer to a takeover completes, then so is all that it
///   holds after the event, and all that it sends: each grant tells what a filed segment said of the block, or that nothing is known of it.
pub fn managers_tell_told_entries()
    ensures start { ManagerStartsTold }
    ensures rises { ManagerHoldsRise }
    ensures events { ManagersTellTold }
{}

/// What the cleaner holds and tells of where blocks lie was filed.
///
/// - `start`: the cleaner at its start holds nothing of it.
/// - `rises`: what filed segments said they say later too.
/// - `events`: where what its job knows of live blocks, what waits in its log, and what is in flight there, is what filed segments say, moved once more, and
///   each row that its feed keeps, and what the packet that comes tells, is what filed segments say, and so is what the segment says that its log has in
///   flight, and each that it read back, where it acts them to be filed in the event, then so is all that it holds after the event, and all that it sends.
pub fn cleaner_tells_told_entries()
    ensures start { CleanerStartsTold }
    ensures rises { CleanerHoldsRise }
    ensures events { CleanerTellsTold }
{}

/// A storage server tells nothing of where blocks lie.
///
/// - `events`: whatever was filed, and whatever happens to the server, no packet that it sends tells where a block lies.
pub fn servers_tell_no_entries()
    ensures events { ServersTellNone }
{}

/// The registry tells nothing of where blocks lie.
///
/// - `events`: whatever was filed, and whatever happens to the registry, no packet that it sends tells where a block lies.
pub fn registry_tells_no_entries()
    ensures events { RegistryTellsNone }
{}
