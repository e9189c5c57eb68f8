//! What one server lists of the log.
ghost use Rattle.std.specs.Prelude.{◌≡◌};
ghost use Rattle.log_scan.specs.Pick.{has_name, lacks, has_list};

use group_map::Member;
use xfs_base::{FragMeta, List, SegName};

/// The list of one server.
pub struct Listing {
    /// The server.
    pub server: u8,
    /// Its generation.
    pub generation: u32,
    /// What is said of each fragment of the log that it holds.
    pub held: List<FragMeta>,
}

impl Drop for Listing {
    fn drop(self) {
        let Listing {
            server: _,
            generation: _,
            held,
        } = self;
        drop(held);
    }
}

impl Listing {
    /// Whether this is the list of the member's server, at the member's generation, and lacks the segment.
    pub(crate) fn lacks(&self, name: SegName, member: Member) -> bool
        ensures { result ≡ lacks name member self.now }
    {
        self.server == member.server
            && self.generation == member.generation
            && !has_name(name, self.held.as_slice())
    }
}

fn has_name(name: SegName, metas: &[FragMeta]) -> bool
    ensures { result ≡ has_name name metas.now }
{
    metas.iter().any(|meta| meta.name.is_same(name))
}

/// Whether the list of this server is among these.
pub(crate) fn has_list(server: u8, lists: &[Listing]) -> bool
    ensures { result ≡ has_list server lists.now }
{
    lists.iter().any(|list| list.server == server)
}
