//! A set of numbers below a bound, as a list and the place of each number in it.

ghost use Rattle.std.specs.Prelude.{◌≡◌, ◌<◌, ◌==◌, false, true, length, count_by, replicate, slice_index_or, slice_set, IfOk};
ghost use Rattle.odb_dense.specs.Lists.{ListsOnce};

use std::alloc::{AllocError, Global};
use std::marker::Model;

/// The place of a number that is not in the set. No list is so long.
const ABSENT: u32 = u32::MAX;

/// A set of the numbers below a bound, as a sparse set (Briggs and Torczon): a list that begins with
/// the numbers of the set, and for each number below the bound its place in that list.
#[derive(Drop)]
pub(crate) struct SparseSet {
    items: Vec<u32>,
    places: Vec<u32>,
    count: usize,
}

impl Model for SparseSet {
    ghost use Rattle.std.specs.Prelude.{List, Bool};

    ghost Value = { List Bool };

    ghost use Rattle.odb_dense.specs.Places.{members, IsPlaced};

    ghost view = { members };

    ghost invariant = { IsPlaced };
}

impl SparseSet {
    /// Returns the empty set of numbers below a bound.
    ///
    /// # Errors
    ///
    /// If memory for `bound` numbers cannot be allocated.
    pub(crate) fn new(alloc: Global, bound: u32) -> Result<SparseSet, AllocError>
        ensures { IfOk result (λ s. s ≡ replicate bound false) }
    {
        Ok(SparseSet {
            items: vec![in alloc; 0_u32; bound as usize]?,
            places: vec![in alloc; ABSENT; bound as usize]?,
            count: 0,
        })
    }

    /// Returns the numbers of the set, each once, in no particular order.
    pub(crate) fn as_slice(&self) -> &[u32]
        ensures len { length result.now ≡ count_by (λ b. b) self.now }
        ensures listed { ListsOnce (length self.now) (λ i. slice_index_or self.now i false)
            result.now }
    {
        &self.items[..self.count]
    }

    /// Returns how many numbers are in the set.
    pub(crate) fn len(&self) -> usize
        ensures { result ≡ count_by (λ b. b) self.now }
    {
        self.as_slice().len()
    }

    /// Returns whether the set is empty.
    pub(crate) fn is_empty(&self) -> bool
        ensures { result ≡ (count_by (λ b. b) self.now == 0) }
    {
        self.count == 0
    }

    /// Adds a number below the bound to the set, if it is not in it.
    pub(crate) fn insert(&mut self, i: u32)
        requires { i < length self.old }
        ensures { self.new ≡ slice_set self.old i true }
    {
        if self.places[i as usize] == ABSENT {
            self.items[self.count] = i;
            self.places[i as usize] = self.count as u32;
            self.count += 1;
        }
    }

    /// Removes a number below the bound from the set, if it is in it. The last of the list takes its
    /// place.
    pub(crate) fn remove(&mut self, i: u32)
        requires { i < length self.old }
        ensures { self.new ≡ slice_set self.old i false }
    {
        let place = self.places[i as usize];
        if place != ABSENT {
            self.count -= 1;
            let last = self.items[self.count];
            self.items[place as usize] = last;
            self.places[last as usize] = place;
            self.places[i as usize] = ABSENT;
        }
    }
}
