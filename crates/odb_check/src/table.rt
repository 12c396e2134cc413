//! A table from texts to numbers.

ghost use Rattle.std.specs.Prelude.{◌≡◌, ◌+◌, ℕ, List, Some, None, cond, bytes_eq, true, IfOk, OnOk};
ghost use Rattle.odb_check.specs.Firsts.{or_else};
ghost use Rattle.odb_check.specs.Starts.{table_start};
ghost use Rattle.odb_check.specs.Tables.{at_text, more_with, table_len};

use crate::seed::Start;
use indexmap::IndexMap;
use std::alloc::{AllocError, Global};
use std::collections::BTreeMap;

/// A number at each of some texts of the batch.
#[derive(Drop)]
pub(crate) enum Table<'b> {
    /// With a seed: O(1) for a look-up, unless the texts were chosen by someone who knows the seed.
    Hashed(IndexMap<&'b str, u32, Start>),
    /// Without one: O(log n), whatever the texts.
    Sorted(BTreeMap<String, u32>),
}

impl<'b> Table<'b> {
    /// An empty table: hashed from the start, if there is one.
    pub(crate) fn new(alloc: Global, start: Option<Start>) -> Table<'b>
        ensures empty { (q : List ℕ) → at_text result q ≡ None }
        ensures len { table_len result ≡ 0 }
        ensures start { table_start result ≡ start }
    {
        match start {
            Some(start) => Table::Hashed(IndexMap::with_hasher(alloc, start)),
            None => Table::Sorted(BTreeMap::new(alloc)),
        }
    }

    /// Makes room for some more texts, if that spares moving the others.
    pub(crate) fn reserve(&mut self, count: usize) -> Result<(), AllocError>
        ensures texts { OnOk result ((q : List ℕ) → at_text self.new q ≡ at_text self.old q) }
        ensures len { OnOk result (table_len self.new ≡ table_len self.old) }
        ensures start { table_start self.new ≡ table_start self.old }
    {
        match self {
            Table::Hashed(map) => map.reserve(count),
            Table::Sorted(_) => Ok(()),
        }
    }

    /// How many texts there are.
    pub(crate) fn len(&self) -> usize
        ensures { result ≡ table_len self.now }
    {
        match self {
            Table::Hashed(map) => map.len(),
            Table::Sorted(map) => map.len(),
        }
    }

    /// The number at the text.
    pub(crate) fn get(&self, text: &str) -> Option<u32>
        ensures { result ≡ at_text self.now text.now }
    {
        match self {
            Table::Hashed(map) => map.get(text).copied(),
            Table::Sorted(map) => map.get(text).copied(),
        }
    }

    /// Puts the number at the text, unless the text has one. Returns whether the text is new.
    ///
    /// It inserts first and puts an earlier number back: one look-up for a new text, where asking
    /// first would take two.
    #[tactic(auto, using(std::proofs::lemmas::Map::Text::text_keys))]
    pub(crate) fn note(
        &mut self,
        alloc: Global,
        text: &'b str,
        number: u32,
    ) -> Result<bool, AllocError>
        ensures new { IfOk result (λ is_new. is_new ≡ true → at_text self.old text.now ≡ None) }
        ensures len { OnOk result (table_len self.new
            ≡ table_len self.old + more_with self.old (Some text.now)) }
        ensures texts { OnOk result ((q : List ℕ) → at_text self.new q
            ≡ or_else (at_text self.old q) (cond (bytes_eq q text.now) (Some number) None)) }
        ensures start { table_start self.new ≡ table_start self.old }
    {
        match self {
            Table::Hashed(map) => {
                if let Some(before) = map.insert(text, number)? {
                    if before != number {
                        map.insert(text, before)?;
                    }
                    return Ok(false);
                }
            }
            Table::Sorted(map) => {
                if map.contains_key(text) {
                    return Ok(false);
                }
                map.insert(String::from_str(alloc, text)?, number)?;
            }
        }
        Ok(true)
    }
}
