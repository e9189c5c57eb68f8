//! The law of losses in the small world of one log: what a reopening says is lost was torn, and had been whole, so that disks were lost. It has no code: each
//! function below calls the laws that it stands on, and its contract is a law, which asks nothing of restarts, nor of how many disks are lost and when.
//! `specs/Losses.antt` says what is asked of each Missing.
#![tactic(auto)]

ghost use Rattle.loss_law.specs.Losses.{AReopeningLosesWhatIsTorn, ATornSegmentLostDisks, FragmentsGoWithDisks};

use log_law::{logs_stay_whole, what_is_read_is_whole};

/// A reopening loses what is torn: where each Missing that openings took in answer to the question of a round was true of some moment since the question was
/// drawn, and an opening says that a segment is lost, there was a moment of this opening at which more members of the group over which it is read than the
/// group's parity makes good lacked their fragments, no Delete of the segment had been sent, and the segment had been whole, filed or not: each member held
/// its fragment or had lost its disk, so more had lost their disk than the parity makes good (the 1996 paper, on RAID). So it is in every run, after doubtful
/// restarts too, and however disks are lost and rebuilt between the rounds.
pub fn a_reopening_loses_what_is_torn()
    ensures earned { AReopeningLosesWhatIsTorn }
{
    what_is_read_is_whole();
}

/// A torn segment lost disks: at each moment of every run, of a filed segment that is torn over its group, and of which no Delete was sent, more members have
/// lost their disk since the group was made than its parity makes good (the 1996 paper, on RAID).
pub fn a_torn_segment_lost_disks()
    ensures disks { ATornSegmentLostDisks }
{
    logs_stay_whole();
}

/// A fragment goes only with its disk: from each moment of every run to a later one, a server that held a fragment of the log and holds none of that name then,
/// while no Delete of it was sent, has lost its disk in between.
pub fn fragments_go_with_disks()
    ensures gone { FragmentsGoWithDisks }
{}
