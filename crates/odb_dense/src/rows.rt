//! Rows of values, in one list.

ghost use Rattle.std.specs.Prelude.{◌≡◌, ◌<◌, ◌≤◌, ◌++◌, ◌∷◌, ℕ, [], length, slice_index_or, IfOk, OnOk, OnErr};
ghost use Rattle.odb_dense.specs.ByKey.{of_key, HaveKeys};
ghost use Rattle.odb_dense.specs.Starts.{AreParts};

use std::alloc::{AllocError, Global};
use std::marker::Model;

/// Rows of values, one after the other in one flat list (compressed sparse rows).
#[derive(Drop)]
pub struct Rows<T> {
    flat: Vec<T>,
    /// Where each row begins and ends in the flat list.
    parts: Vec<(u32, u32)>,
}

impl<T> Model for Rows<T> {
    ghost use Rattle.std.specs.Prelude.{List};
    ghost use Rattle.std.specs.Coded.{coded_list};

    ghost Value = { List (List T) };

    ghost coded = { coded_list (coded_list T.code) };

    ghost use Rattle.odb_dense.specs.Parts.{rows_of, HasParts};

    ghost view = { λ rows. rows_of rows.flat.items rows.parts.items };

    ghost invariant = { λ rows. HasParts rows.flat.items rows.parts.items };
}

/// Returns a place in the flat list in 32 bits.
fn index(place: usize) -> Result<u32, AllocError>
    ensures { IfOk result (λ n. n ≡ place) }
{
    u32::try_from(place).map_err(|_| AllocError)
}

/// Returns an empty row for each key, with room for its numbers up to the row of the next key.
fn empty_rows(
    alloc: Global,
    keys: usize,
    pairs: &[(u32, u32)],
) -> Result<Vec<(u32, u32)>, AllocError>
    requires keys { HaveKeys keys pairs.now }
    requires few { length pairs.now ≤ 4294967295 }
    ensures len { IfOk result (λ parts. length parts.items ≡ keys) }
    ensures empty { IfOk result (λ parts. AreParts pairs.now [] parts.items) }
{
    let mut counts = vec![in alloc; 0_u32; keys]?;
    for &(key, _) in pairs {
        counts[key as usize] += 1;
    }
    let mut parts = Vec::with_capacity(alloc, keys)?;
    let mut from = 0;
    for key in 0..keys {
        parts.push((from, from))?;
        from += counts[key];
    }
    Ok(parts)
}

/// Returns the rows, once the second part of each pair is put at the end of the row of its key.
fn filled(
    alloc: Global,
    pairs: &[(u32, u32)],
    mut parts: Vec<(u32, u32)>,
) -> Result<Rows<u32>, AllocError>
    requires keys { HaveKeys (length parts.items) pairs.now }
    requires few { length pairs.now ≤ 4294967295 }
    requires empty { AreParts pairs.now [] parts.items }
    ensures len { IfOk result (λ rows. length rows ≡ length parts.items) }
    ensures rows { IfOk result (λ rows. (k : ℕ) → k < length parts.items
        → slice_index_or rows k [] ≡ of_key k pairs.now) }
{
    let mut flat = vec![in alloc; 0_u32; pairs.len()]?;
    for &(key, number) in pairs {
        let (from, place) = parts[key as usize];
        flat[place as usize] = number;
        parts[key as usize] = (from, place + 1);
    }
    Ok(Rows { flat, parts })
}

impl Rows<u32> {
    /// Returns the second parts of pairs by their first parts, each row in the order of the pairs.
    ///
    /// The first parts are below `keys`, the number of rows.
    ///
    /// # Errors
    ///
    /// If memory for the keys and the pairs cannot be allocated, or if there are more than 4,294,967,295 pairs.
    pub fn of(alloc: Global, keys: usize, pairs: &[(u32, u32)]) -> Result<Rows<u32>, AllocError>
        requires { HaveKeys keys pairs.now }
        ensures len { IfOk result (λ rows. length rows ≡ keys) }
        ensures rows { IfOk result (λ rows. (k : ℕ) → k < keys
            → slice_index_or rows k [] ≡ of_key k pairs.now) }
    {
        let _count = index(pairs.len())?;
        let parts = empty_rows(alloc, keys, pairs)?;
        filled(alloc, pairs, parts)
    }
}

impl<T: Copy> Rows<T> {
    /// Returns no rows.
    pub fn new(alloc: Global) -> Rows<T>
        ensures { result ≡ [] }
    {
        Rows {
            flat: Vec::new(alloc),
            parts: Vec::new(alloc),
        }
    }

    /// Adds a row after the others.
    ///
    /// # Errors
    ///
    /// If memory for the row cannot be allocated, or if the rows have more than 4,294,967,295 values. The rows stay as they
    /// were.
    pub fn push(&mut self, row: &[T]) -> Result<(), AllocError>
        ensures ok { OnOk result (self.new ≡ self.old ++ row.now ∷ []) }
        ensures err { OnErr result (self.new ≡ self.old) }
    {
        let from = index(self.flat.len())?;
        self.flat.extend_from_slice(row)?;
        let to = index(self.flat.len())?;
        self.parts.push((from, to))?;
        Ok(())
    }

    /// Returns the same rows, in memory of their own.
    ///
    /// # Errors
    ///
    /// If memory for the rows cannot be allocated.
    pub fn copied(&self, alloc: Global) -> Result<Rows<T>, AllocError>
        ensures { IfOk result (λ copy. copy ≡ self.now) }
    {
        Ok(Rows {
            flat: Vec::from_slice(alloc, &self.flat)?,
            parts: Vec::from_slice(alloc, &self.parts)?,
        })
    }
}

impl<T> Rows<T> {
    /// Returns the row with this number, which is below the number of rows.
    pub fn row(&self, i: u32) -> &[T]
        requires { i < length self.now }
        ensures row { result.now ≡ slice_index_or self.now i [] }
        ensures few { length result.now ≤ 4294967295 }
    {
        let (from, to) = self.parts[i as usize];
        &self.flat[from as usize..to as usize]
    }
}
