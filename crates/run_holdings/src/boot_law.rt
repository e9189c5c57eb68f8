//! Where the cleaner comes back, the segment that was filed then is the first of its incarnation. It has no code of the product: the function below calls the laws
//! that it stands on, and its contract is a law. `specs/Boots.antt` of `headline` says it of runs.

ghost use Rattle.run_holdings.specs.boot_law.Boots.{EveryRunFilesOne};

use log_law::openings_go_on;
use log_tie::settings_exist;
use run_laws::world_logs::runs_keep_logs;

/// In each run of a script of whose setup a run can be started: where the cleaner doesn't serve before an event and serves behind it, as it does where its restart
/// is answered, no two segments that it acted to be filed by then are of the incarnation in which it is. So it had filed none of that but the one whose end opened
/// its log; all else that was filed is of earlier ones.
pub fn the_cleaner_files_one_segment_of_its_boot()
    ensures one { EveryRunFilesOne }
{
    openings_go_on();
    settings_exist();
    runs_keep_logs();
}
