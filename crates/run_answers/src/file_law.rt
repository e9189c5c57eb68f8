//! Each node that owns a log, a client, the cleaner or a manager, files it one segment after another. It has no code of the product: the function below stands for
//! the law that its contract states. `specs/Filings.antt` of `headline` says what that is.

ghost use Rattle.run_answers.specs.file_law.Runs.{EachRunsNodesFileOn};

/// In every run, whatever events it goes through: in each event before which a client, the cleaner or a manager serves, each segment that it acts to be filed is
/// of its own log and of the incarnation of that, and its number is one more than the number of the segment that it filed last, by the acts of the run; 0 stands
/// for that where it filed none. Behind a restart of a client or of the cleaner that is the opening segment's number; a manager that serves again begins a new
/// log, whose first segment is 1. The incarnation of its log is its own as it comes to serve, and stays as it is while it serves.
pub fn nodes_file_one_after_another()
    ensures runs { EachRunsNodesFileOn }
{}
