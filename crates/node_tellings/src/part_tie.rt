//! The parts of checkpoints, as nodes name them: each part that a manager or the registry names, and each that a packet does, is a segment that a manager had
//! in flight in its log and acted to be filed, or one that is given from outside. It has no code: each function below has an empty body, and its contract is a
//! law.
//! `specs/part_tie/Names.antt` says what of a packet names parts.

ghost use Rattle.node_tellings.specs.part_tie.ManagerNames.{ManagerNamesRise, ManagersNameKnown, ManagersStartNaming};
ghost use Rattle.node_tellings.specs.part_tie.RegistryNames.{RegistryNamesKnown, RegistryNamesRise, RegistryStartsNaming};

/// What a manager names of checkpoints are segments that it had in flight, and what news told it.
///
/// - `start`: a manager at its start names nothing.
/// - `rises`: where more may be named, it names none but that still.
/// - `events`: where the parts that it names, and those that the packet that comes names, are known, and so is the segment that its log has in flight, if that
///   is acted to be filed in the event, then so are all that it names after the event, and all that it sends.
pub fn managers_name_what_flew()
    ensures start { ManagersStartNaming }
    ensures rises { ManagerNamesRise }
    ensures events { ManagersNameKnown }
{}

/// What the registry names of checkpoints managers named to it.
///
/// - `start`: the registry at its start names nothing.
/// - `rises`: where more may be named, it names none but that still.
/// - `events`: where the parts that it names, and those that the packet that comes names, are known, then so are all that it names after the event, and all
///   that it sends.
pub fn registry_names_what_it_heard()
    ensures start { RegistryStartsNaming }
    ensures rises { RegistryNamesRise }
    ensures events { RegistryNamesKnown }
{}
