//! Bytes and letters of URLs.

ghost use Rattle.std.specs.Prelude.{◌≡◌, ◌≢◌, ◌+◌, ◌<◌, ◌≤◌, drop, length, slice_index, IfNone, IfSome, take, OnOk, OnErr};
ghost use Rattle.odb_resolve.specs.Classes.{HasNoSlash};
ghost use Rattle.odb_resolve.specs.Roots.{encode, same_letters};
ghost use Rattle.odb_resolve.specs.Texts.{folder_len, slash};

use percent_encoding::{AsciiSet, CONTROLS, ascii_set, percent_encode};
use std::alloc::AllocError;

/// The ASCII bytes that no path and no query has (RFC 3986, sections 2.2, 2.3 and 3.3): all but letters, digits,
/// `-._~`, `!$&'()*+,;=`, `:@/?` and `%`.
pub(crate) const ESCAPED: AsciiSet = ascii_set!(
    CONTROLS
        .add(b' ')
        .add(b'"')
        .add(b'#')
        .add(b'<')
        .add(b'>')
        .add(b'[')
        .add(b'\\')
        .add(b']')
        .add(b'^')
        .add(b'`')
        .add(b'{')
        .add(b'|')
        .add(b'}')
);

/// Returns whether the texts are equal apart from the case of ASCII letters.
pub(crate) fn same_letters(text: &[u8], other: &[u8]) -> bool
    ensures { result ≡ same_letters text.now other.now }
{
    text.eq_ignore_ascii_case(other)
}

/// Returns the position of the last `/`.
fn last_slash(path: &[u8]) -> Option<usize>
    ensures none { IfNone result (HasNoSlash path.now) }
    ensures bound { IfSome result (λ i. i < length path.now) }
    ensures found { IfSome result (λ i. slice_index path.now i ≡ slash) }
    ensures last { IfSome result (λ i. HasNoSlash (drop (i + 1) path.now)) }
{
    path.iter().rposition(|byte| *byte == b'/')
}

/// Returns the length of a path up to its last `/`, with this `/`; 0 without one.
pub(crate) fn folder_len(path: &[u8]) -> usize
    ensures value { result ≡ folder_len path.now }
    ensures within { result ≤ length path.now }
{
    match last_slash(path) {
        Some(slash) => slash + 1,
        None => 0,
    }
}
