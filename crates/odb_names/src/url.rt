//! The segments of a URL, and what it refers to.

ghost use Rattle.std.specs.Prelude.{◌≡◌, ◌+◌, ◌<◌, ◌↔◌, ℕ, List, length, drop, slice_index, codes, IsTrue, IsOk, IfOk, IfSome, IfNone};
ghost use Rattle.percent_encoding.specs.Percent.{percent_decode};
ghost use Rattle.odb_names.specs.Classes.{begins_with_sign};
ghost use Rattle.odb_names.specs.Fronts.{FrontForm, HasFront, form, reference};
ghost use Rattle.odb_names.specs.Segments.{HasNoEscape, HasNoSlash, IsAfterFirstSegment, IsFirstSegment, IsLastSegment, IsNestedBatch, slash};

use crate::run::{Class, split_run};
use crate::segment::Front;
use percent_encoding::percent_decode;
use std::alloc::{AllocError, Global};

/// Returns the part of a URL before its first `/`, `?` or `#`.
fn first_segment(url: &[u8]) -> &[u8]
    ensures { IsFirstSegment url.now result.now }
{
    split_run(url, Class::Segment).0
}

/// Returns the bytes of a URL after its first segment: from its first `/`, `?` or `#` on, and none if it has none
/// of these.
///
/// Of a URL that refers to a request ([`Front::Reference`]) they continue the URL of what that request has made
/// (OData JSON Format 4.01, section 19.1): `/Lines?x=1` of `$a/Lines?x=1`.
pub fn after_first_segment(url: &str) -> &[u8]
    ensures { IsAfterFirstSegment url.now result.now }
{
    split_run(url.as_bytes(), Class::Segment).1
}

/// Returns the position of the last `/` of a path.
fn last_slash(path: &[u8]) -> Option<usize>
    ensures none { IfNone result (HasNoSlash path.now) }
    ensures bound { IfSome result (λ i. i < length path.now) }
    ensures found { IfSome result (λ i. slice_index path.now i ≡ slash) }
    ensures last { IfSome result (λ i. HasNoSlash (drop (i + 1) path.now)) }
{
    path.iter().rposition(|byte| *byte == b'/')
}

/// Returns the part of a URL after the last `/` of its path.
fn last_segment(url: &[u8]) -> &[u8]
    ensures { IsLastSegment url.now result.now }
{
    let (path, _) = split_run(url, Class::Path);
    match last_slash(path) {
        Some(slash) => &path[slash + 1..],
        None => path,
    }
}

/// Returns whether the text begins with `$` or `%`. No other text begins with `$` once it is decoded.
fn begins_with_sign(text: &[u8]) -> bool
    ensures { result ≡ begins_with_sign text.now }
{
    match text.first() {
        Some(byte) => matches!(*byte, b'$' | b'%'),
        None => false,
    }
}

/// Returns what the first segment of a URL means, by decoding it.
fn decoded_front(alloc: Global, url: &str) -> Result<Front, AllocError>
    ensures front { IfOk result (λ found. HasFront url.now (form found)) }
    ensures memory { (segment : List ℕ) → IsFirstSegment url.now segment → HasNoEscape segment
        → ((id : List ℕ) → ¬ HasFront url.now (reference id)) → IsOk result }
{
    let segment = percent_decode(first_segment(url.as_bytes())).into_cow(alloc)?;
    Front::of_segment(alloc, segment.as_slice())
}

/// Returns what the first segment of a URL means in a batch (OData JSON Format 4.01, section 19.1).
///
/// The first segment of `url` ends before the first `/`, `?` or `#`, and is percent-decoded once;
/// a `%` without two hexadecimal digits is kept. Allocates the decoded segment if it has a
/// `%`, and the identifier of a reference; no other URL runs out of memory.
pub fn front(alloc: Global, url: &str) -> Result<Front, AllocError>
    ensures front { IfOk result (λ found. HasFront url.now (form found)) }
    ensures only { IfOk result (λ found. (other : FrontForm) → HasFront url.now other
        → other ≡ form found) }
    ensures memory { (segment : List ℕ) → IsFirstSegment url.now segment → HasNoEscape segment
        → ((id : List ℕ) → ¬ HasFront url.now (reference id)) → IsOk result }
{
    if begins_with_sign(url.as_bytes()) {
        decoded_front(alloc, url)
    } else {
        Ok(Front::Plain)
    }
}

/// Returns whether a URL may name a batch: it has a `$` or a `%`.
fn may_be_nested(url: &[u8]) -> bool
    ensures { IsNestedBatch url.now → IsTrue result }
{
    url.contains(&b'$') || url.contains(&b'%')
}

/// Returns whether a segment may be `$batch`, percent-decoded, by its length and its first byte.
fn may_be_batch(segment: &[u8]) -> bool
    ensures { percent_decode segment.now ≡ codes "$batch" → IsTrue result }
{
    (6..=18).contains(&segment.len()) && begins_with_sign(segment)
}

/// Returns whether the URL names a batch, which no request of a batch may be (OData ABNF 4.01, rule
/// `odataRelativeUri`): whether the last segment of its path, percent-decoded once, is `$batch`.
///
/// The path ends before the first `?` or `#`, and its last segment begins after its last `/`.
/// Allocates the decoded segment if it has a `%`; no other URL runs out of memory.
pub fn is_nested_batch(alloc: Global, url: &str) -> Result<bool, AllocError>
    ensures nested { IfOk result (λ nested. IsTrue nested ↔ IsNestedBatch url.now) }
    ensures memory { (segment : List ℕ) → IsLastSegment url.now segment → HasNoEscape segment
        → IsOk result }
{
    if !may_be_nested(url.as_bytes()) {
        return Ok(false);
    }
    let segment = last_segment(url.as_bytes());
    if !may_be_batch(segment) {
        return Ok(false);
    }
    let segment = percent_decode(segment).into_cow(alloc)?;
    Ok(segment.as_slice() == b"$batch".as_slice())
}
