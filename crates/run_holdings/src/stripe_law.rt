//! What is filed is read back from what servers hold, in every run of the nodes' world. It has no code of the product: each function below calls the laws that it
//! stands on, and its contract is a law. `specs/Stripes.antt` of `headline` says it in words of the nodes.

ghost use Rattle.run_holdings.specs.stripe_law.ReadBack.{WhatIsFiledIsReadBack};

use log_law::{logs_stay_whole, one_name_one_text, what_flew_is_written};
use log_tie::settings_exist;
use node_slots::owner_index_tie::server_index_events_are_seen;
use run_laws::world_law::nodes_are_seen;
use run_laws::world_logs::runs_keep_logs;

/// What is filed is read back (the 1996 paper, on RAID): at each moment of every run, whatever messages are lost, repeated or reordered, whichever nodes stop and
/// however disks are lost, of each segment that was acted to be filed by then, while no more members of its group lack their fragment than the parity makes
/// good, what the others hold, each at its place, is joined to the segment's text, and that decodes to the segment: the same one throughout the run.
pub fn what_is_filed_is_read_back()
    ensures back { WhatIsFiledIsReadBack }
{
    logs_stay_whole();
    one_name_one_text();
    what_flew_is_written();
    settings_exist();
    nodes_are_seen();
    server_index_events_are_seen();
    runs_keep_logs();
}
