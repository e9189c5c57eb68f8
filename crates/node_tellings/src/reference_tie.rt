//! What nodes refer to segments with: the parts of checkpoints, and the ends of logs that are reported. What is to hold of each such reference holds of all
//! that a node holds and sends, where it holds of what comes and of what is in flight. It has no code: each function below has an empty body, and its contract
//! is a law.

ghost use Rattle.node_tellings.specs.reference_tie.Managers.{ManagersKeepReferences, ManagersStartReferring};
ghost use Rattle.node_tellings.specs.reference_tie.Owners.{CleanerReportsItsEnd, ClientsReportTheirEnd};
ghost use Rattle.node_tellings.specs.reference_tie.Registries.{RegistryKeepsReferences, RegistryStartsReferring};

/// What a manager refers to.
///
/// - `start`: at its start it refers to nothing.
/// - `events`: whatever happens to it, it names as parts of checkpoints what it was told, and what it had in flight; and the ends that it holds were reported
///   to it.
pub fn managers_keep_references()
    ensures start { ManagersStartReferring }
    ensures events { ManagersKeepReferences }
{}

/// What the registry refers to.
///
/// - `start`: at its start it refers to nothing.
/// - `events`: whatever happens to it, it keeps, and tells, parts of checkpoints that it was told.
pub fn registry_keeps_references()
    ensures start { RegistryStartsReferring }
    ensures events { RegistryKeepsReferences }
{}

/// What owners of logs report.
///
/// - `clients`: each Report of a client bears the end that its log had before the event, where it served; a client that doesn't serve sends none.
/// - `cleaner`: so it is of the cleaner.
pub fn owners_report_their_ends()
    ensures clients { ClientsReportTheirEnd }
    ensures cleaner { CleanerReportsItsEnd }
{}
