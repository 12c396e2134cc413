//! The media type of a `Content-Type` header, without its parameters.

ghost use Rattle.std.specs.Prelude.{◌≡◌, ◌≤◌, ◌<◌, ◌-◌, ℕ, true, false, not, List, length, slice_index, IfOk};
ghost use Rattle.std.specs.Char.{is_ascii_uppercase};
ghost use Rattle.std.specs.List.{list_any};
ghost use Rattle.std.specs.Str.{str_to_ascii_lowercase};
ghost use Rattle.odb_names.specs.Runs.{SplitsRun};
ghost use Rattle.odb_doc.specs.batch.MediaTypes.{HasType, IsEndOf, IsTrimmed, is_blank, is_in_type};
ghost use Rattle.odb_doc.specs.batch.BodyKinds.{AsksFor, HasKind};

use std::alloc::{AllocError, Global};

/// The kind of body that a media type asks for (OData JSON Format 4.01, section 19.1).
#[derive(Clone, Copy)]
pub(crate) enum BodyKind {
    /// Any JSON value.
    Any,
    /// A string.
    Text,
    /// A string that is base64url.
    Base64Url,
}

/// Returns whether the byte is neither a space nor a tab.
fn is_not_blank(byte: &u8) -> bool
    ensures { result ≡ not (is_blank byte.now) }
{
    !matches!(*byte, b' ' | b'\t')
}

/// Returns the text before the first `;`, with which the parameters begin.
fn without_parameters(value: &str) -> &str
    ensures { (rest : List ℕ) × SplitsRun is_in_type value.now result.now rest }
{
    match value.split_once(';') {
        Some((name, _)) => name,
        None => value,
    }
}

/// Returns the text after the spaces and tabs that it begins with.
fn without_leading_blanks(text: &[u8]) -> &[u8]
    ensures { (before : List ℕ) × SplitsRun is_blank text.now before result.now }
{
    let place = text.iter().position(is_not_blank);
    text.split_at(place.unwrap_or(text.len())).1
}

/// Returns where the spaces and tabs begin that the text ends with.
fn trailing_blanks_at(text: &[u8]) -> usize
    ensures bound { result ≤ length text.now }
    ensures after { (k : ℕ) → result ≤ k → k < length text.now
        → is_blank (slice_index text.now k) ≡ true }
    ensures stops { 0 < result → is_blank (slice_index text.now (result - 1)) ≡ false }
{
    match text.iter().rposition(is_not_blank) {
        Some(last) => last + 1,
        None => 0,
    }
}

/// Returns the text before the spaces and tabs that it ends with.
fn without_trailing_blanks(text: &[u8]) -> &[u8]
    ensures { IsEndOf text.now result.now }
{
    text.split_at(trailing_blanks_at(text)).0
}

/// Returns the text without the spaces and tabs at its ends.
fn trimmed(text: &[u8]) -> &[u8]
    ensures { IsTrimmed text.now result.now }
{
    without_trailing_blanks(without_leading_blanks(text))
}

/// Returns the media type of a `content-type`, as it is written.
fn media_type(value: &str) -> &[u8]
    ensures { HasType value.now result.now }
{
    trimmed(without_parameters(value).as_bytes())
}

/// Returns whether a letter of the text is in upper case.
pub(crate) fn has_uppercase(text: &[u8]) -> bool
    ensures { result ≡ list_any is_ascii_uppercase text.now }
{
    text.iter().any(u8::is_ascii_uppercase)
}

/// Returns a copy of the text in lower case.
fn lowercase(alloc: Global, text: &[u8]) -> Result<Vec<u8>, AllocError>
    ensures { IfOk result (λ folded. folded.items ≡ str_to_ascii_lowercase text.now) }
{
    let mut folded = Vec::from_slice(alloc, text)?;
    folded.make_ascii_lowercase();
    Ok(folded)
}

impl BodyKind {
    /// Returns the kind that the media type asks for, which is in lower case.
    fn asked_by(name: &[u8]) -> BodyKind
        ensures { AsksFor name.now result }
    {
        if name.is_empty() || name == b"application/json".as_slice() || name.ends_with(b"+json") {
            BodyKind::Any
        } else if name.starts_with(b"text/") {
            BodyKind::Text
        } else {
            BodyKind::Base64Url
        }
    }

    /// Returns the kind that a `content-type` asks for. An empty one asks for any JSON value. Only a
    /// media type with a letter in upper case is copied.
    #[inline(always)]
    pub(crate) fn of(alloc: Global, content_type: &str) -> Result<BodyKind, AllocError>
        ensures { IfOk result (HasKind content_type.now) }
    {
        let name = media_type(content_type);
        if has_uppercase(name) {
            let folded = lowercase(alloc, name)?;
            Ok(BodyKind::asked_by(folded.as_slice()))
        } else {
            Ok(BodyKind::asked_by(name))
        }
    }
}
