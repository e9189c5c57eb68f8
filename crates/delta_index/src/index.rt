//! The index.
ghost use Rattle.std.specs.Prelude.{◌≡◌, [], OnOk, OnErr, IfOk};
ghost use Rattle.std.specs.List.Sorted.{IsStrictlySortedBy};
ghost use Rattle.std.specs.Map.{keys_of};
ghost use Rattle.xfs_base.specs.Blocks.{block_cmp};
ghost use Rattle.xfs_base.specs.declared.block.BlockId.{BlockId};
ghost use Rattle.delta_index.specs.Entries.{is_newer};
ghost use Rattle.delta_index.specs.Index.{entry_of, merged, merged_all, HoldsJust};
ghost use Rattle.delta_index.specs.Join.{join};

use std::alloc::Global;
use std::collections::BTreeMap;
use std::marker::Model;
use xfs_base::{BlockId, Crosses, Entry, List, Mem};

/// For each block the entry of greatest version and hop that was merged (the 1996 paper, "The Imap":
/// the imap and the index nodes give a block's place; here one index does the work of both, and the
/// deltas in the logs keep it current). Contracts see its rows, in the order of blocks.
pub struct DeltaIndex {
    entries: BTreeMap<BlockId, Entry>,
}

impl Drop for DeltaIndex {
    fn drop(self) {
        let DeltaIndex { entries } = self;
        drop(entries);
    }
}

impl Model for DeltaIndex {
    ghost use Rattle.std.specs.Prelude.{List as Seq};
    ghost use Rattle.xfs_base.specs.declared.block.BlockId.{BlockId};
    ghost use Rattle.xfs_base.specs.declared.entry.Entry.{Entry};
    ghost use Rattle.delta_index.specs.Index.{AllHeld};

    ghost Value = { Seq (BlockId × Entry) };

    ghost view = { λ index. index.entries.entries };

    ghost invariant = { λ index. AllHeld index.entries.entries };
}

impl Crosses for DeltaIndex {}

fn is_newer_entry(entry: Entry, held: Entry) -> bool
    ensures { result ≡ is_newer entry held }
{
    entry.ver > held.ver || entry.ver == held.ver && entry.hop > held.hop
}

impl DeltaIndex {
    /// An index of nothing. It keeps the allocator and takes no memory.
    pub fn new(alloc: Global) -> DeltaIndex
        ensures { result ≡ [] }
    {
        DeltaIndex {
            entries: BTreeMap::new(alloc),
        }
    }

    /// The index after these merges, in their order. What it holds of each block is the join of them.
    pub fn from_merges(alloc: Global, merges: &[(BlockId, Entry)]) -> Mem<DeltaIndex>
        ensures rows { IfOk result (λ index. index ≡ merged_all [] merges.now) }
        ensures joins { IfOk result (λ index. (block : BlockId) → entry_of index block ≡ join merges.now block) }
    {
        let mut index = DeltaIndex::new(alloc);
        for (block, entry) in merges {
            index.merge(alloc, *block, *entry)?;
        }
        Ok(index)
    }

    /// What is held of a block: version 0, hop 0 and no place where nothing is.
    pub fn get(&self, block: BlockId) -> Entry
        ensures { result ≡ entry_of self.now block }
    {
        match self.entries.get(&block) {
            Some(entry) => *entry,
            None => Entry {
                ver: 0,
                hop: 0,
                place: None,
            },
        }
    }

    /// All that is held: by block just the blocks whose entry is above version 0 and hop 0, each with it.
    pub fn rows(&self, alloc: Global) -> Mem<List<(BlockId, Entry)>>
        ensures all { IfOk result (λ rows. rows ≡ self.now) }
        ensures by_block { IfOk result (λ rows. IsStrictlySortedBy block_cmp (keys_of rows)) }
        ensures just_held { IfOk result (λ rows. HoldsJust (entry_of self.now) rows) }
    {
        let mut rows = List::new(alloc);
        for (block, entry) in &self.entries {
            rows.push((*block, *entry))?;
        }
        Ok(rows)
    }

    /// Takes the entry where its version, or at one version its hop, is greater than that of what `get`
    /// gives, and answers whether it did: of equal ones the earlier stays. Where memory is wanting the
    /// index is unchanged.
    #[tactic(auto, unfolding(crate::specs::Index::merged))]
    pub fn merge(&mut self, _alloc: Global, block: BlockId, entry: Entry) -> Mem<bool>
        ensures taken { IfOk result (λ taken. taken ≡ is_newer entry (entry_of self.old block)) }
        ensures ok { OnOk result (self.new ≡ merged self.old block entry) }
        ensures err { OnErr result (self.new ≡ self.old) }
    {
        if !is_newer_entry(entry, self.get(block)) {
            return Ok(false);
        }
        self.entries.insert(block, entry)?;
        Ok(true)
    }
}
