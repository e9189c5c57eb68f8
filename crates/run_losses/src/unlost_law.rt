//! Where no server loses its disk nothing is refused as lost. It has no code of the product: the function below calls the laws that it stands on, and its
//! contract is a law. `specs/unlost_law/Unlost.antt` says it of runs.

ghost use Rattle.run_losses.specs.unlost_law.Unlost.{ScriptsWithoutLossesLoseNothing};

use crate::answer_law::lost_answers_are_said;
use crate::earned_law::each_lost_act_is_earned;
use run_laws::restart_law::without_losses_no_restart_is_doubtful;

/// In a run of a script without a line by which a server loses its disk no client, nor the cleaner, says that a segment is lost, and no item is answered so,
/// whatever messages are lost, repeated or reordered and whichever nodes stop: what either says is lost had more members lose their disk than the parity makes
/// good (the 1996 paper, on RAID).
pub fn nothing_is_lost_without_losses()
    ensures lost { ScriptsWithoutLossesLoseNothing }
{
    without_losses_no_restart_is_doubtful();
    each_lost_act_is_earned();
    lost_answers_are_said();
}
