//! Whether and where a list holds a text twice, and each text of it once.

ghost use Rattle.std.specs.Prelude.{◌≡◌, ◌<◌, true, false, bytes_eq, length, IfOk, OnOk, OnErr};
ghost use Rattle.std.specs.Cmp.Lexicographic.{slice_cmp};
ghost use Rattle.std.specs.List.{IsDistinct};
ghost use Rattle.std.specs.Ordering.{is_lt, nat_cmp};
ghost use Rattle.odb_doc.specs.Names.{distinct, texts_in, with_name};
ghost use Rattle.odb_doc.specs.SameTexts.{AreSameTexts, IsFirstRepeat, rises_by_length};

use smallvec::SmallVec;
use std::alloc::{AllocError, Global};
use std::collections::BTreeSet;

/// Texts, of which one alone is kept in place and takes no allocation, as the names in a `dependsOn`.
pub(crate) type Names<'a> = SmallVec<&'a str, 1>;

/// Up to how many texts are compared one by one. For so few that is quicker than a sort.
const FEW: usize = 8;

/// Returns whether a text repeats. Each is compared with those before it.
fn repeats_among_few(texts: &[&str]) -> bool
    ensures { result ≡ false → IsDistinct bytes_eq (texts_in texts.now) }
{
    for k in 0..texts.len() {
        if texts[..k].contains(&texts[k]) {
            return true;
        }
    }
    false
}

/// Returns whether each text comes before the next in byte order.
fn are_ascending(texts: &[&str]) -> bool
    ensures { result ≡ true → IsDistinct bytes_eq (texts_in texts.now) }
{
    texts.is_sorted_by(
        |x: &&str, y: &&str| -> bool
            ensures { result ≡ is_lt (slice_cmp nat_cmp x.now.now y.now.now) }
        { x < y },
    )
}

/// Returns whether each text comes before the next by length, and in byte order among equal lengths, as
/// numbers that count up do.
fn are_ascending_by_length(texts: &[&str]) -> bool
    ensures { result ≡ true → IsDistinct bytes_eq (texts_in texts.now) }
{
    texts.is_sorted_by(
        |x: &&str, y: &&str| -> bool
            ensures { result ≡ rises_by_length x.now.now y.now.now }
        { x.len() < y.len() || (x.len() == y.len() && x < y) },
    )
}

/// Returns whether a text repeats, by a sort unless they are in order already. It may report a repeat if
/// there is none.
fn may_repeat_among_many(alloc: Global, texts: &[&str]) -> Result<bool, AllocError>
    ensures { IfOk result (λ repeats. repeats ≡ false → IsDistinct bytes_eq (texts_in texts.now)) }
{
    if are_ascending_by_length(texts) || are_ascending(texts) {
        return Ok(false);
    }
    let mut sorted = Vec::from_slice(alloc, texts)?;
    sorted.sort_unstable();
    Ok(!are_ascending(sorted.as_slice()))
}

/// Returns whether a text repeats. It may report a repeat if there is none.
///
/// It takes O(n log n) for texts of n bytes, whatever they are, and no memory for up to 8 texts or for
/// texts that are in order, by bytes or by length first.
///
/// # Errors
///
/// If memory for a sorted list cannot be allocated.
pub(crate) fn may_repeat(alloc: Global, texts: &[&str]) -> Result<bool, AllocError>
    ensures apart { IfOk result (λ repeats. repeats ≡ false
        → IsDistinct bytes_eq (texts_in texts.now)) }
    ensures some { OnErr result (0 < length texts.now) }
{
    if texts.len() <= FEW {
        Ok(repeats_among_few(texts))
    } else {
        may_repeat_among_many(alloc, texts)
    }
}

/// Appends `text` unless `seen`, which holds the texts of the list, contains it.
fn keep<'a>(
    seen: &mut BTreeSet<&'a str>,
    texts: &mut Vec<&'a str>,
    text: &'a str,
) -> Result<(), AllocError>
    requires { AreSameTexts (texts_in seen.old.keys) (texts_in texts.old.items) }
    ensures texts { OnOk result (texts_in texts.new.items
        ≡ with_name (texts_in texts.old.items) text.now) }
    ensures seen { OnOk result (AreSameTexts (texts_in seen.new.keys) (texts_in texts.new.items)) }
{
    if seen.insert(text)? {
        texts.push(text)?;
    }
    Ok(())
}

/// Returns the texts without repeats, each at its first place, by a set.
fn first_places<'a>(alloc: Global, texts: &[&'a str]) -> Result<Vec<&'a str>, AllocError>
    ensures { IfOk result (λ kept. texts_in kept.items ≡ distinct (texts_in texts.now)) }
{
    let mut seen = BTreeSet::new(alloc);
    let mut kept = Vec::with_capacity(alloc, texts.len())?;
    for text in texts {
        keep(&mut seen, &mut kept, text)?;
    }
    Ok(kept)
}

/// Returns the texts without repeats, each at its first place.
///
/// It takes O(n log n) for texts of n bytes, whatever they are. A set is made only if a text may repeat.
///
/// # Errors
///
/// If memory for a sorted list, or for the set and the texts that it keeps, cannot be allocated.
pub(crate) fn without_repeats<'a>(alloc: Global, texts: Names<'a>) -> Result<Names<'a>, AllocError>
    ensures { IfOk result (λ kept. texts_in kept.items ≡ distinct (texts_in texts.entry.items)) }
{
    if texts.len() <= 1 {
        return Ok(texts);
    }
    if may_repeat(alloc, texts.as_slice())? {
        Ok(SmallVec::from_vec(first_places(alloc, texts.as_slice())?))
    } else {
        Ok(texts)
    }
}

/// Returns the position of the first text that an earlier one equals, or how many texts there are.
///
/// It takes O(n log n) for texts of n bytes, whatever they are. A set is made only if a text may repeat.
///
/// # Errors
///
/// If memory for a sorted list, or for the set, cannot be allocated.
pub(crate) fn first_repeat(alloc: Global, texts: &[&str]) -> Result<usize, AllocError>
    ensures first { IfOk result (IsFirstRepeat (texts_in texts.now)) }
    ensures some { OnErr result (0 < length texts.now) }
{
    if !may_repeat(alloc, texts)? {
        return Ok(texts.len());
    }
    let mut seen = BTreeSet::new(alloc);
    for k in 0..texts.len() {
        if !seen.insert(texts[k])? {
            return Ok(k);
        }
    }
    Ok(texts.len())
}
