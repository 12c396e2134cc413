//! A set of numbers below a bound, as the bits of words, that returns its least and its greatest.

ghost use Rattle.std.specs.Prelude.{◌≡◌, ◌<◌, ◌≤◌, ℕ, false, true, None, length, replicate, slice_index_or, slice_set, IfOk, IfSome};
ghost use Rattle.odb_dense.specs.Extremes.{IsLeastOf, IsGreatestOf};

use crate::bits;
use std::alloc::{AllocError, Global};
use std::marker::Model;

/// A set of the numbers below a bound, which returns its least and its greatest number.
///
/// There is a bit for each number, 64 to a word, and a summary with a bit for each word that is not 0. An end is found by the
/// summary and one word.
#[derive(Drop)]
pub struct BitSet {
    words: Vec<u64>,
    summary: Vec<u64>,
    bound: u32,
}

impl Model for BitSet {
    ghost use Rattle.std.specs.Prelude.{List, Bool};

    ghost Value = { List Bool };

    ghost use Rattle.odb_dense.specs.Bits.{members, HasBits};

    ghost view = { members };

    ghost invariant = { HasBits };
}

impl BitSet {
    /// Returns the empty set of numbers below a bound.
    ///
    /// # Errors
    ///
    /// If memory for `bound` bits cannot be allocated.
    pub fn new(alloc: Global, bound: u32) -> Result<BitSet, AllocError>
        ensures { IfOk result (λ s. s ≡ replicate bound false) }
    {
        let count = bound as usize / 64 + 1;
        Ok(BitSet {
            words: vec![in alloc; 0_u64; count]?,
            summary: vec![in alloc; 0_u64; count / 64 + 1]?,
            bound,
        })
    }

    /// Adds a number below the bound to the set, if it is not in it.
    pub fn insert(&mut self, i: u32)
        requires { i < length self.old }
        ensures { self.new ≡ slice_set self.old i true }
    {
        let at = i / 64;
        self.words[at as usize] |= 1 << (i % 64);
        self.summary[(at / 64) as usize] |= 1 << (at % 64);
    }

    /// Removes a number below the bound from the set, if it is in it.
    pub fn remove(&mut self, i: u32)
        requires { i < length self.old }
        ensures { self.new ≡ slice_set self.old i false }
    {
        let at = i / 64;
        self.words[at as usize] &= !(1 << (i % 64));
        if self.words[at as usize] == 0 {
            self.summary[(at / 64) as usize] &= !(1 << (at % 64));
        }
    }

    /// Returns the least number of the set, or `None` if it is empty.
    pub fn least(&mut self) -> Option<u32>
        ensures same { self.new ≡ self.old }
        ensures none { result ≡ None → (i : ℕ) → slice_index_or self.old i false ≡ false }
        ensures some { IfSome result (IsLeastOf self.old) }
    {
        let at = bits::first(&self.summary)?;
        Some(bits::first_at(&self.words, at))
    }

    /// Returns the greatest number of the set, or `None` if it is empty.
    pub fn greatest(&mut self) -> Option<u32>
        ensures same { self.new ≡ self.old }
        ensures none { result ≡ None → (i : ℕ) → slice_index_or self.old i false ≡ false }
        ensures some { IfSome result (IsGreatestOf self.old) }
    {
        let at = bits::last(&self.summary)?;
        Some(bits::last_at(&self.words, at))
    }
}
