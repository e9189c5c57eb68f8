//! Each run is linearizable, block by block. It has no code of the product: the function below stands for the law that its contract states.
//! `specs/Courses.antt` of `headline` says what a call does, and `specs/Linear.antt` of `headline` says it of runs; `specs/Updates.antt` there
//! says when no update is lost.

ghost use Rattle.run_answers.specs.linear_law.Linear.{EachRunIsLinearizable, EachRunLosesNoUpdate};

use run_laws::world_reads::every_runs_acts_are_legal;

/// In each run of a script of whose setup a run can be started: each act by which a client reads, writes or syncs is one of a call of it that has begun and isn't
/// answered before; what it acted of blocks since the Begin of the call is what the answers to its calls on blocks tell of, each of them the next one that the
/// call makes by what those before were answered; and where the call is answered, as it can be where it is done, that is what it replies to them. A client falls
/// only in an event by which a crash of it begins, and is back only in one in which a restart of it is done. Up to the first doubtful restart these acts are a
/// legal history of each block: each read is of the newest version, with its value, a write answers the newest version, and no fall takes back a version that was
/// synced or read elsewhere.
///
/// - `linear`: so it is.
/// - `updates`: and up to there, where a call writes over a version that it named, the block has just so many versions before.
pub fn runs_are_linearizable()
    ensures linear { EachRunIsLinearizable }
    ensures updates { EachRunLosesNoUpdate }
{
    every_runs_acts_are_legal();
}
