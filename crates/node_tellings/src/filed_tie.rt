//! What nodes tell of logs was filed: no node holds, nor says, that more of a log is settled than what was acted to be filed. It has no code: each function
//! below has an empty body, and its contract is a law. `specs/filed_tie/Reach.antt` says what of a packet tells of it.
//!
//! `specs/filed_tie/Bounds.antt` says where managers and the registry have numbers of logs: they keep to bounds of any kind to which
//! `proofs/filed_tie/Bounding.antt` applies. Two are stated: that nothing is held and told but what was filed (`specs/filed_tie/ManagerReach.antt`,
//! `specs/filed_tie/RegistryReach.antt`), and that nothing falls below the horizons with which epochs begin (`specs/filed_tie/Floor.antt`).

ghost use Rattle.node_tellings.specs.filed_tie.CleanerReach.{CleanerReachRises, CleanerStartsReaching, CleanerTellsFiled};
ghost use Rattle.node_tellings.specs.filed_tie.ClientReach.{ClientReachRises, ClientStartsReaching, ClientsTellFiled};
ghost use Rattle.node_tellings.specs.filed_tie.Floor.{ManagerStartsAbove, ManagersStayAbove, RegistryKeepsAbove, RegistryStartsAbove};
ghost use Rattle.node_tellings.specs.filed_tie.ManagerReach.{ManagerReachRises, ManagerStartsReaching, ManagersTellFiled, ManagersTellNoMore};
ghost use Rattle.node_tellings.specs.filed_tie.RegistryReach.{RegistryReachRises, RegistryStartsReaching, RegistryTellsFiled, RegistryTellsNoMore};
ghost use Rattle.node_tellings.specs.filed_tie.ServerReach.{ServersTellFiled, ServersTellNoMore};

/// What a client tells of its log was filed.
///
/// - `start`: a client at its start holds nothing that wasn't.
/// - `rises`: what was filed stays so: where more is filed, what a client holds was.
/// - `events`: where what a client holds, and what the packet that comes tells, was filed before an event, what it holds then, and what each packet that it
///   sends tells, was filed before the event or in it.
pub fn clients_tell_what_is_filed()
    ensures start { ClientStartsReaching }
    ensures rises { ClientReachRises }
    ensures events { ClientsTellFiled }
{}

/// What the cleaner tells of its log was filed.
///
/// - `start`: the cleaner at its start holds nothing that wasn't.
/// - `rises`: what was filed stays so: where more is filed, what the cleaner holds was.
/// - `events`: where what the cleaner holds, and what the packet that comes tells, was filed before an event, what it holds then, and what each packet that it
///   sends tells, was filed before the event or in it.
pub fn cleaner_tells_what_is_filed()
    ensures start { CleanerStartsReaching }
    ensures rises { CleanerReachRises }
    ensures events { CleanerTellsFiled }
{}

/// A storage server tells nothing of what was filed.
///
/// - `events`: it holds nothing of it after an event, and no packet that it sends tells of it.
/// - `alone`: so it is whatever it acts to be filed itself.
pub fn servers_tell_what_is_filed()
    ensures events { ServersTellFiled }
    ensures alone { ServersTellNoMore }
{}

/// What a manager has applied of logs, and what its checkpoints cover, was filed.
///
/// - `start`: a manager at its start holds nothing that wasn't.
/// - `rises`: what was filed stays so: where more is filed, what a manager holds was.
/// - `events`: where what a manager holds, and what the packet that comes tells, was filed before an event, what it holds then, and what each packet that it
///   sends tells, was filed before the event or in it: no horizon is more than one beyond the last segment that was filed of its log.
/// - `alone`: so it is of what was filed before the event, whatever the manager acts to be filed in it: of its own log it tells nothing.
pub fn managers_tell_what_is_filed()
    ensures start { ManagerStartsReaching }
    ensures rises { ManagerReachRises }
    ensures events { ManagersTellFiled }
    ensures alone { ManagersTellNoMore }
{}

/// What the registry keeps of checkpoints, and what its maps tell of them, was filed.
///
/// - `start`: at the start of a run it keeps no horizon above 1.
/// - `rises`: what was filed stays so: where more is filed, what the registry keeps was.
/// - `events`: where the horizons that the registry keeps, and those of a checkpoint of which it is told, are no more than one beyond what was filed before an
///   event, those that it keeps then, and those of the maps that it sends, are no more than one beyond what was filed before the event or in it.
/// - `alone`: so it is of what was filed before the event, whatever the registry acts to be filed in it.
pub fn registry_tells_what_is_filed()
    ensures start { RegistryStartsReaching }
    ensures rises { RegistryReachRises }
    ensures events { RegistryTellsFiled }
    ensures alone { RegistryTellsNoMore }
{}

/// What a manager has applied of logs never falls below the horizons that it was told: from the checkpoint on with which it took a slot over, nothing of a log
/// is missing.
///
/// - `start`: a manager at its start has epoch 1 of its slots, with nothing applied, where no horizon of epoch 1 is above 1.
/// - `events`: where what a manager has applied of a slot in an epoch, and each horizon of a slot and an epoch in the packet that comes, is above the floor of
///   that slot and epoch, so is what it has applied after the event, and each horizon that it tells.
pub fn managers_stay_above_their_floor()
    ensures start { ManagerStartsAbove }
    ensures events { ManagersStayAbove }
{}

/// What the registry keeps of checkpoints never falls below the horizons with which the epochs of the slots began.
///
/// - `start`: the registry at its start has epoch 1 of each slot, whose horizons are 1.
/// - `events`: where each horizon that the registry keeps, and each in the packet that comes, is above the floor of its slot and epoch, and the floor of an
///   epoch that begins in the event is no higher than the horizon that is kept of its slot, so is each that it keeps after the event, and each that it sends.
pub fn registry_stays_above_its_floor()
    ensures start { RegistryStartsAbove }
    ensures events { RegistryKeepsAbove }
{}
