//! What is settled of blocks, and whether some of them are still to be given up.
ghost use Rattle.std.specs.Prelude.{◌≡◌, IfOk, OnOk, fold};
ghost use Rattle.token_client.specs.Settling.{is_giving, is_to_give, note_row};

use crate::tokens::Tokens;
use std::alloc::Global;
use xfs_base::{BlockId, Entry, Mem};

impl Tokens {
    /// The versions of these rows are settled.
    pub fn note_settled(&mut self, rows: &[(BlockId, Entry)]) -> Mem<()>
        ensures { OnOk result (self.new ≡ fold note_row self.old rows.now) }
    {
        for row in rows {
            self.note_row(*row)?;
        }
        Ok(())
    }

    #[tactic(auto, unfolding(crate::specs::Settling::note_row))]
    fn note_row(&mut self, row: (BlockId, Entry)) -> Mem<()>
        ensures { OnOk result (self.new ≡ note_row self.old row) }
    {
        self.on_settled(row.0, row.1.ver)
    }

    /// Whether some block is to be given up.
    pub fn is_giving(&self, alloc: Global) -> Mem<bool>
        ensures { IfOk result (λ giving. giving ≡ is_giving self.now) }
    {
        let dirty = self.dirty(alloc)?;
        let blocks = dirty.as_slice();
        Ok(blocks.iter().any(|block| self.is_to_give(*block)))
    }

    fn is_to_give(&self, block: BlockId) -> bool
        ensures { result ≡ is_to_give self.now block }
    {
        self.giving(block).is_some()
    }
}
