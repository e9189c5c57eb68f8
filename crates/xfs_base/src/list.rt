//! A list that contracts see as the list of its items.
ghost use Rattle.std.specs.Prelude.{◌≡◌, ◌∷◌, ◌++◌, [], length, slice_get, slice_set, IfOk, OnOk, OnErr, IsTrue, ◌↔◌, MatchOption, Some, None};
ghost use Rattle.std.specs.Borrow.{LendsIf, sem};

use std::alloc::{AllocError, Global};
use std::marker::Model;

/// What a call answers that can fail only for want of memory.
pub type Mem<T> = Result<T, AllocError>;

/// A list of values. Contracts see it as the list of its items, so a struct that holds one is, in a
/// clause, a plain record with a list in it.
pub struct List<T> {
    vec: Vec<T>,
}

impl<T: Drop> Drop for List<T> {
    fn drop(self) {
        let List { vec } = self;
        drop(vec);
    }
}

impl<T> Model for List<T> {
    ghost use Rattle.std.specs.Prelude.{List as Seq};

    ghost Value = { Seq T };

    ghost view = { λ l. l.vec.items };
}

impl<T> List<T> {
    ghost use Rattle.xfs_base.specs.contracts.list.List.{the_row};

    /// The empty list. It keeps the allocator and takes no memory.
    pub fn new(alloc: Global) -> List<T>
        ensures { result ≡ [] }
    {
        List {
            vec: Vec::new(alloc),
        }
    }

    /// The list of a vector's items. It takes no memory.
    pub fn from_vec(vec: Vec<T>) -> List<T>
        ensures { result ≡ vec.items }
    {
        List { vec }
    }

    /// The items as a vector. It takes no memory.
    pub fn into_vec(self) -> Vec<T>
        ensures { result.items ≡ self }
    {
        let List { vec } = self;
        vec
    }

    /// The items as a slice.
    pub fn as_slice(&self) -> &[T]
        ensures { result.now ≡ self.now }
    {
        &self.vec
    }

    /// How many items there are.
    pub fn len(&self) -> usize
        ensures { result ≡ length self.now }
    {
        self.vec.len()
    }

    /// Whether there is no item.
    pub fn is_empty(&self) -> bool
        ensures { IsTrue result ↔ (length self.now ≡ 0) }
    {
        self.vec.len() == 0
    }

    /// The item at a place, counted from 0; none past the end.
    pub fn get(&self, place: usize) -> Option<&T>
        ensures { MatchOption result (slice_get self.now place ≡ None) (λ x. slice_get self.now place ≡ Some x.now) }
    {
        self.vec.as_slice().get(place)
    }

    /// The item at a place, counted from 0, to be changed where it lies; none past the end.
    pub fn get_mut(&mut self, place: usize) -> Option<&mut T>
        ensures* writes_back { sem 𝓛 (LendsIf (the_row T.row) T.row self.entry result (slice_set self.old place) self.old) }
        ensures value { MatchOption result (slice_get self.old place ≡ None) (λ x. slice_get self.old place ≡ Some x.now) }
    {
        self.vec.get_mut(place)
    }

    /// Appends an item. Where memory is wanting the list is unchanged.
    pub fn push(&mut self, item: T) -> Mem<()>
    where
        T: Drop,
        ensures ok { OnOk result (self.new ≡ self.old ++ item ∷ []) }
        ensures err { OnErr result (self.new ≡ self.old) }
    {
        self.vec.push(item)?;
        Ok(())
    }
}

impl<T: Copy> List<T> {
    /// A list equal to this one.
    pub fn copy(&self, alloc: Global) -> Mem<List<T>>
        ensures { IfOk result (λ copied. copied ≡ self.now) }
    {
        Ok(List {
            vec: Vec::from_slice(alloc, &self.vec)?,
        })
    }
}
