//! The shelf.
ghost use Rattle.std.specs.Prelude.{◌≡◌, ◌≢◌, ◌↔◌, ◌⊎◌, ◌||◌, IfOk, OnOk, OnErr, IsErrOf, IsTrue, IsFalse, MatchResult, Some, None, Contains, map, not};
ghost use Rattle.std.specs.List.Sorted.{IsStrictlySortedBy};
ghost use Rattle.xfs_base.specs.declared.segment.SegName.{SegName};
ghost use Rattle.xfs_base.specs.Segments.{seg_cmp};
ghost use Rattle.fragment_store.specs.declared.store_error.StoreError.TheVariants.{Memory};
ghost use Rattle.fragment_store.specs.ShelfState.{ShelfState, new_shelf, held_at, is_held, is_marked, fence_of};
ghost use Rattle.fragment_store.specs.Calls.{refusal, shelf_store, on_fence, on_list, on_delete, on_fill, on_lose, barred, in_order};

use crate::{Missing, StoreError};
use std::alloc::Global;
use std::collections::{BTreeMap, BTreeSet};
use std::marker::Model;
use xfs_base::{Crosses, FragMeta, Fragment, List, LogId, Mem, Pass, SegName};

/// What a storage server keeps (the 1996 paper, "Storage Servers" and "RAID"): its generation, the
/// fragments by name, for each log the pass below which no store is taken, and the names that were
/// deleted. Look-ups and stores take time logarithmic in what is held and marked.
pub struct Shelf {
    generation: u32,
    held: BTreeMap<SegName, Fragment>,
    fences: BTreeMap<LogId, Pass>,
    marks: BTreeSet<SegName>,
}

impl Drop for Shelf {
    fn drop(self) {
        let Shelf {
            generation: _,
            held,
            fences,
            marks,
        } = self;
        drop(held);
        drop(fences);
        drop(marks);
    }
}

impl Model for Shelf {
    ghost use Rattle.std.specs.Map.{values_of};
    ghost use Rattle.fragment_store.specs.ShelfState.{ShelfState, IsShelf};

    ghost Value = { ShelfState };

    ghost view = { λ s. record { generation = s.generation; held = values_of s.held.entries; fences = s.fences.entries; marks = s.marks.keys } };

    ghost invariant = { λ s. IsShelf s.held.entries s.marks.keys };
}

impl Crosses for Shelf {}

impl Shelf {
    /// An empty shelf of generation 1. It keeps the allocator and takes no memory.
    pub fn new(alloc: Global) -> Shelf
        ensures { result ≡ new_shelf }
    {
        Shelf::in_generation(alloc, 1)
    }

    /// An empty shelf of this generation. It keeps the allocator and takes no memory.
    pub fn in_generation(alloc: Global, generation: u32) -> Shelf
        ensures { result ≡ record new_shelf { generation = generation } }
    {
        Shelf {
            generation,
            held: BTreeMap::new(alloc),
            fences: BTreeMap::new(alloc),
            marks: BTreeSet::new(alloc),
        }
    }

    /// How often the disk was lost, and one, up to the greatest number. Takes no memory.
    pub fn generation(&self) -> u32
        ensures { result ≡ self.now.generation }
    {
        self.generation
    }

    /// Keeps the fragment; one of its name that is held stays instead. The first refusal of these comes,
    /// exactly where it holds: `WrongGeneration` with the shelf's where the generations differ, `Marked`
    /// where the name was deleted, `Fenced` with the fence where the pass is below that of the log. A
    /// refused store, and one for want of memory, changes nothing.
    pub fn store(
        &mut self,
        alloc: Global,
        fragment: Fragment,
        generation: u32,
    ) -> Result<(), StoreError>
        ensures ok { OnOk result (self.new ≡ shelf_store self.old fragment) }
        ensures refused { (e : _) → e ≢ Memory → IsErrOf result e ↔ (refusal self.old fragment.meta.name generation ≡ Some e) }
        ensures err { OnErr result (self.new ≡ self.old) }
    {
        if let Some(refusal) = self.refusal(fragment.meta.name, generation) {
            return Err(refusal);
        }
        match self.keep(alloc, fragment) {
            Ok(_) => Ok(()),
            Err(_) => Err(StoreError::Memory),
        }
    }

    /// The fragment that is held of a segment. `Missing` exactly where none is. Takes no memory.
    pub fn fetch(&self, name: SegName) -> Result<&Fragment, Missing>
        ensures { MatchResult result (λ fragment. held_at self.now.held name ≡ Some fragment.now) (λ _. held_at self.now.held name ≡ None) }
    {
        match self.held.get(&name) {
            Some(fragment) => Ok(fragment),
            None => Err(Missing),
        }
    }

    /// Bars from now on a store of what is of this log and below this pass, though no `fill` of it: of the
    /// pass and the log's fence the greater is kept and answered. Where memory is wanting the shelf is
    /// unchanged.
    pub fn fence(&mut self, _alloc: Global, log: LogId, pass: Pass) -> Mem<Pass>
        ensures ok { OnOk result (self.new ≡ on_fence self.old log pass) }
        ensures kept { IfOk result (λ fence. fence ≡ fence_of self.new.fences log) }
        ensures err { OnErr result (self.new ≡ self.old) }
    {
        let fence = self.fence_of(log);
        if !pass.order(fence).is_gt() {
            return Ok(fence);
        }
        self.fences.insert(log, pass)?;
        Ok(pass)
    }

    /// What is said of all fragments that are held, by log, number and pass.
    pub fn list(&self, alloc: Global) -> Mem<List<FragMeta>>
        ensures exact { IfOk result (λ metas. metas ≡ on_list self.now) }
        ensures sorted { IfOk result (λ metas. IsStrictlySortedBy seg_cmp (map (λ m. m.name) metas)) }
    {
        let mut metas = List::new(alloc);
        for fragment in self.held.values() {
            metas.push(fragment.meta)?;
        }
        Ok(metas)
    }

    /// Removes what is held of a segment, and marks its name, so that nothing of it is taken again. Where
    /// memory is wanting the shelf is unchanged.
    pub fn delete(&mut self, _alloc: Global, name: SegName) -> Mem<()>
        ensures ok { OnOk result (self.new ≡ on_delete self.old name) }
        ensures err { OnErr result (self.new ≡ self.old) }
    {
        self.marks.insert(name)?;
        self.held.remove(&name);
        Ok(())
    }

    /// Keeps a fragment that was made anew from the others of its stripe, whatever the generation and the
    /// fence. False exactly where its name is marked or held; then, and where memory is wanting, the shelf
    /// is unchanged.
    pub fn fill(&mut self, alloc: Global, fragment: Fragment) -> Mem<bool>
        ensures filled { IfOk result (λ filled. filled ≡ not (is_marked self.old.marks fragment.meta.name || is_held self.old fragment.meta.name)) }
        ensures ok { OnOk result (self.new ≡ on_fill self.old fragment) }
        ensures err { OnErr result (self.new ≡ self.old) }
    {
        if self.is_marked(fragment.meta.name) {
            return Ok(false);
        }
        self.keep(alloc, fragment)
    }

    /// The shelf once its disk is lost: nothing is kept, and the generation is one higher, or stays where it
    /// is the greatest number. Takes no memory.
    pub fn lose(self) -> Shelf
        ensures { result ≡ on_lose self }
    {
        let mut lost = self;
        lost.held.clear();
        lost.fences.clear();
        lost.marks.clear();
        lost.generation = lost.generation.saturating_add(1);
        lost
    }

    /// The names that are held or marked, by log, number and pass.
    pub fn barred(&self, alloc: Global) -> Mem<List<SegName>>
        ensures exact { IfOk result (λ names. names ≡ barred self.now) }
        ensures sorted { IfOk result (λ names. IsStrictlySortedBy seg_cmp names) }
        ensures just_these { IfOk result
            (λ names. (name : SegName) → Contains names name ↔ (Contains self.now.marks name ⊎ Contains (map (λ f. f.meta.name) self.now.held) name)) }
    {
        let mut names = self.marked(alloc)?;
        for fragment in self.held.values() {
            names.insert(fragment.meta.name)?;
        }
        listed(alloc, &names)
    }

    // The names that are marked.
    fn marked(&self, alloc: Global) -> Mem<BTreeSet<SegName>>
        ensures { IfOk result (λ names. names.keys ≡ in_order self.now.marks) }
    {
        let mut names = BTreeSet::new(alloc);
        for name in &self.marks {
            names.insert(*name)?;
        }
        Ok(names)
    }

    /// Why `store` refuses a fragment of this name that is meant for this generation, `None` where it takes
    /// it: the first of `WrongGeneration`, `Marked` and `Fenced` that holds, as there. Takes no memory.
    pub fn refusal(&self, name: SegName, generation: u32) -> Option<StoreError>
        ensures { result ≡ refusal self.now name generation }
    {
        if generation != self.generation {
            return Some(StoreError::WrongGeneration(self.generation));
        }
        if self.is_marked(name) {
            return Some(StoreError::Marked);
        }
        let fence = self.fence_of(name.log);
        if fence.order(name.pass).is_gt() {
            return Some(StoreError::Fenced(fence));
        }
        None
    }

    /// The pass below which no store of this log is taken: (0, 0) where none was given. Takes no memory.
    pub fn fence_of(&self, log: LogId) -> Pass
        ensures { result ≡ fence_of self.now.fences log }
    {
        match self.fences.get(&log) {
            Some(pass) => *pass,
            None => Pass { inc: 0, att: 0 },
        }
    }

    /// Whether a name was deleted: nothing of it is held then, and to delete it again changes nothing. Takes
    /// no memory.
    pub fn is_marked(&self, name: SegName) -> bool
        ensures exact { result ≡ is_marked self.now.marks name }
        ensures away { IsTrue result → held_at self.now.held name ≡ None }
        ensures again { IsTrue result → on_delete self.now name ≡ self.now }
    {
        self.marks.contains(&name)
    }

    // Keeps the fragment, whose name isn't marked, and answers true, where none of its name is held.
    fn keep(&mut self, _alloc: Global, fragment: Fragment) -> Mem<bool>
        requires { IsFalse (is_marked self.old.marks fragment.meta.name) }
        ensures new { IfOk result (λ new. new ≡ not (is_held self.old fragment.meta.name)) }
        ensures ok { OnOk result (self.new ≡ shelf_store self.old fragment) }
        ensures err { OnErr result (self.new ≡ self.old) }
    {
        if self.held.contains_key(&fragment.meta.name) {
            return Ok(false);
        }
        self.held.insert(fragment.meta.name, fragment)?;
        Ok(true)
    }
}

// The names of a set, in order.
fn listed(alloc: Global, names: &BTreeSet<SegName>) -> Mem<List<SegName>>
    ensures same { IfOk result (λ listed. listed ≡ names.now.keys) }
    ensures sorted { IfOk result (λ listed. IsStrictlySortedBy seg_cmp listed) }
{
    let mut listed = List::new(alloc);
    for name in names {
        listed.push(*name)?;
    }
    Ok(listed)
}
