//! What a client says is lost while it reads a block for its open call was torn, in every run of the nodes' world. It has no code of the product: the functions
//! below call the laws that they stand on, and their contracts are laws. `specs/fetching_law/Fetchings.antt` says it in words of the nodes.

ghost use Rattle.run_losses.specs.fetching_law.Fetchings.{CallsReadBlocks, FetchesLossesEarned};
ghost use Rattle.run_losses.specs.fetching_law.Present.{ReadsByPresentGroups};

use crate::missing_law::answers_tell_of_misses;
use group_map::laws::groups_stay_as_made;
use log_tie::settings_exist;
use run_laws::world_law::nodes_are_seen;
use run_laws::world_logs::runs_keep_logs;

/// Whatever messages are lost, repeated or reordered, however disks are lost and rebuilt, and whichever nodes stop and start again, in every run of a script of
/// whose setup a run can be started:
///
/// - `earned`: where a client that serves says that a segment is lost, either a Gone came that names it, of the block of its open want and of the epoch that it
///   has promised; or its open call reads the segment, and a Grant came that its tokens accept and that leads to that very place. Then there were two moments
///   since which the call of the same item has read the segment, the first no later than the second, such that at the first more members of the segment's group
///   than its parity makes good lacked their fragments, where no server had been told at the second to delete it; and the Grant was sent after the second (the
///   1996 paper, on RAID). From whom the Gone came, `gone_law` tells.
/// - `blocks`: what the open call of a client reads it reads for a block.
pub fn fetches_lose_what_is_torn()
    ensures earned { FetchesLossesEarned }
    ensures blocks { CallsReadBlocks }
{
    settings_exist();
    runs_keep_logs();
    answers_tell_of_misses();
    groups_stay_as_made();
    nodes_are_seen();
}

/// After any events that bring maps of groups, as each is by its type, the map by which a client reads, back through its log or for its open call, is one: so
/// each member of a current group is at the generation that its server has in the map. Of the map over which it stripes `node_slots::client_law` says the same.
pub fn reads_by_present_groups()
    ensures present { ReadsByPresentGroups }
{}
