//! What a node answers fits where it stands. It has no code of the product: the function below stands for the law that its contract states.
//! `specs/Standings.antt` of `headline` says where a node stands, and what it may answer then.

ghost use Rattle.run_answers.specs.standing_law.Runs.{EachAnswerFits};

/// Whatever events a script's world goes through: a node answers that it is busy only to a call that begins while another of its items is open, and it serves;
/// that it is down only to what begins while it doesn't serve, and to a crash only where it is down already; that it is up only to a restart that begins while it
/// isn't down. By a crash that is done it falls in that event, and had not fallen; by a restart that is done it serves, and had not; by a loss that is done a
/// server's shelf is left as a loss leaves it. What is cut was open, and its node falls in that event. A slot that the registry answers an epoch of has that epoch
/// and that manager behind the event. A count answers a checkpoint or a cleaning, and how much is filled again a rebuild; all else calls, by a node that serves.
pub fn answers_fit_where_a_node_stands()
    ensures fits { EachAnswerFits }
{}
