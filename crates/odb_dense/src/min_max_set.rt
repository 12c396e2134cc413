//! A set of numbers below a bound that returns its least and its greatest.

ghost use Rattle.std.specs.Prelude.{◌≡◌, ◌<◌, ◌≤◌, ◌==◌, ℕ, false, true, None, length, count_by, replicate, slice_index_or, slice_set, IfOk, IfSome};
ghost use Rattle.odb_dense.specs.Extremes.{IsLeastOf, IsGreatestOf};
ghost use Rattle.odb_dense.specs.Lists.{ListsOnce};

use crate::bit_set::BitSet;
use crate::sparse_set::SparseSet;
use std::alloc::{AllocError, Global};
use std::marker::Model;

/// A set of the numbers below a bound, as a list, which returns its least and its greatest number, as bits.
#[derive(Drop)]
pub struct MinMaxSet {
    listed: SparseSet,
    bits: BitSet,
}

impl Model for MinMaxSet {
    ghost use Rattle.std.specs.Prelude.{List, Bool};

    ghost Value = { List Bool };

    ghost use Rattle.odb_dense.specs.Both.{members, AreSame};

    ghost view = { members };

    ghost invariant = { AreSame };
}

impl MinMaxSet {
    /// Returns the empty set of numbers below a bound.
    ///
    /// # Errors
    ///
    /// If memory for `bound` numbers cannot be allocated.
    pub fn new(alloc: Global, bound: u32) -> Result<MinMaxSet, AllocError>
        ensures { IfOk result (λ s. s ≡ replicate bound false) }
    {
        Ok(MinMaxSet {
            listed: SparseSet::new(alloc, bound)?,
            bits: BitSet::new(alloc, bound)?,
        })
    }

    /// Returns the numbers of the set, each once, in no particular order.
    pub fn as_slice(&self) -> &[u32]
        ensures len { length result.now ≡ count_by (λ b. b) self.now }
        ensures listed { ListsOnce (length self.now) (λ i. slice_index_or self.now i false)
            result.now }
    {
        self.listed.as_slice()
    }

    /// Returns how many numbers are in the set.
    pub fn len(&self) -> usize
        ensures { result ≡ count_by (λ b. b) self.now }
    {
        self.listed.len()
    }

    /// Returns whether the set is empty.
    pub fn is_empty(&self) -> bool
        ensures { result ≡ (count_by (λ b. b) self.now == 0) }
    {
        self.listed.is_empty()
    }

    /// Adds a number below the bound to the set, if it is not in it.
    pub fn insert(&mut self, i: u32)
        requires { i < length self.old }
        ensures { self.new ≡ slice_set self.old i true }
    {
        self.listed.insert(i);
        self.bits.insert(i);
    }

    /// Removes a number below the bound from the set, if it is in it.
    pub fn remove(&mut self, i: u32)
        requires { i < length self.old }
        ensures { self.new ≡ slice_set self.old i false }
    {
        self.listed.remove(i);
        self.bits.remove(i);
    }

    /// Returns the least number of the set, or `None` if it is empty.
    pub fn least(&mut self) -> Option<u32>
        ensures same { self.new ≡ self.old }
        ensures none { result ≡ None → (i : ℕ) → slice_index_or self.old i false ≡ false }
        ensures some { IfSome result (IsLeastOf self.old) }
    {
        self.bits.least()
    }

    /// Returns the greatest number of the set, or `None` if it is empty.
    pub fn greatest(&mut self) -> Option<u32>
        ensures same { self.new ≡ self.old }
        ensures none { result ≡ None → (i : ℕ) → slice_index_or self.old i false ≡ false }
        ensures some { IfSome result (IsGreatestOf self.old) }
    {
        self.bits.greatest()
    }
}
