//! What servers tell a reader that they miss, over the counts of a run of the nodes, and what it proves. It has no code of the product: each function below
//! calls the laws that it stands on, and its contract is a law. `specs/missing_law/Missed.antt` and `specs/missing_law/Stored.antt` say them in words of the
//! nodes.

ghost use Rattle.run_losses.specs.missing_law.Missed.{AnswersTellOfMisses, WhatIsMissingTwiceWasTorn};
ghost use Rattle.run_losses.specs.missing_law.Stored.{WhatIsFiledIsStored};

use log_law::laws_of_logs;
use log_tie::settings_exist;
use run_laws::world_logs::runs_keep_logs;

/// Answers tell of misses: each Missing that a server sends a reader answers a fetch of the reader by its number, and tells of a moment at which that number
/// was drawn. So it is in every run, of each reader all of whose fetches are by numbers that it drew and whose numbers never fall.
pub fn answers_tell_of_misses()
    ensures told { AnswersTellOfMisses }
{
    settings_exist();
    runs_keep_logs();
}

/// What is missing twice was torn: where in two times, one after the other, more of the same servers, each in one generation, missed a segment than the parity
/// of its group makes good, it was torn at each moment between the two, unless a server was told by the end to delete it (the 1996 paper, on RAID). So it is in
/// every run, however disks are lost and rebuilt between.
pub fn what_is_missing_twice_was_torn()
    ensures torn { WhatIsMissingTwiceWasTorn }
{}

/// What is filed is stored: at each moment of every run, of each segment that a client, the cleaner or a manager told to be filed, and that no server was told
/// to delete, each member of its group holds its fragment or has lost its disk since the group was made; so where it is torn more have lost their disk than
/// the parity makes good (the 1996 paper, on RAID).
pub fn what_is_filed_is_stored()
    ensures stored { WhatIsFiledIsStored }
{
    settings_exist();
    runs_keep_logs();
    laws_of_logs();
}
