//! Which pages a checkpoint writes.
ghost use Rattle.std.specs.Prelude.{◌≡◌, IfOk};
ghost use Rattle.checkpoint.specs.Plan.{writes_all, plan_of};

use index_pages::Pages;
use std::alloc::Global;
use xfs_base::{BlockId, Crosses, Entry, List, Mem, SegRef};

/// What a checkpoint writes, and what it names again.
#[derive(Drop)]
pub struct Plan {
    /// The rows of each page that is to be written.
    pub pages: List<List<(BlockId, Entry)>>,
    /// The segments of the checkpoint before that are named again.
    pub parts: List<SegRef>,
}

impl Crosses for Plan {}

/// A checkpoint that would follow more parts than these writes all pages anew.
const MOST_PARTS: usize = 64;

fn writes_all(parts: usize) -> bool
    ensures { result ≡ writes_all parts }
{
    parts == 0 || MOST_PARTS < parts
}

/// The plan of the next checkpoint of a slot that has these pages, and whose last checkpoint named these
/// parts. The pages that changed since are written, and the parts are named again; where there are no
/// parts, or more than 64, all pages are written and the parts are dropped. The pages are to be clean
/// from the moment of the plan on.
pub fn plan_of(alloc: Global, pages: &Pages, parts: List<SegRef>) -> Mem<Plan>
    ensures { IfOk result (λ plan. plan ≡ plan_of pages.now parts) }
{
    if writes_all(parts.len()) {
        return Ok(Plan {
            pages: pages.all_rows(alloc)?,
            parts: List::new(alloc),
        });
    }
    Ok(Plan {
        pages: pages.changed_rows(alloc)?,
        parts,
    })
}
