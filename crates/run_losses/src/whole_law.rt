//! What a reopening says is lost had been whole, in every run of the nodes' world. It has no code of the product: the function below calls the laws that it
//! stands on, and its contract is a law. `specs/whole_law/Whole.antt` says it in words of the nodes.

ghost use Rattle.run_losses.specs.whole_law.Whole.{ReopeningsLoseWhatWasWhole, WhatReopeningsReadIsWhole};

use crate::torn_law::reopenings_lose_what_is_torn;
use log_law::laws_of_logs;
use log_tie::settings_exist;
use run_laws::world_logs::runs_keep_logs;

/// Whatever messages are lost, repeated or reordered, however disks are lost and rebuilt, and whichever nodes stop and start again, after doubtful restarts
/// too: of each segment that a client, or the cleaner, reads while it opens its log, whether it was filed or not, each member of its group holds its
/// fragment, or has lost its disk since the group was made, unless a server was told to delete the segment (the 1996 paper, on recovery). So where it says
/// that a segment is lost, there was a moment since it began to open its log at which the segment was torn and no server had been told to delete it, and at
/// which each member of its group held its fragment or had lost its disk: more had lost their disk than the parity makes good (the 1996 paper, on RAID). So
/// it is in every run of a script of whose setup a run can be started.
pub fn reopenings_lose_what_was_whole()
    ensures read { WhatReopeningsReadIsWhole }
    ensures lost { ReopeningsLoseWhatWasWhole }
{
    settings_exist();
    runs_keep_logs();
    laws_of_logs();
    reopenings_lose_what_is_torn();
}
