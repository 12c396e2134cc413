//! A member of one element.

ghost use Rattle.std.specs.Prelude.{◌≡◌, ◌<◌, ℕ, Some, length, IfOk, MatchOption, OnErr};
ghost use Rattle.odb_spans.specs.Spans.{IsWithin};
ghost use Rattle.odb_spans.specs.Parts.{GivesMember, IsGiven, IsNullAt};

use crate::byte::has_byte;
use crate::member::last_member;
use crate::span::Span;
use std::alloc::{AllocError, Global};

/// Returns whether the span is that of `null`.
fn is_null(document: &[u8], span: Span) -> bool
    ensures { IsNullAt document.now span result }
{
    span.start < document.len() && document[span.start] == b'n'
}

/// Returns the span, or none if it is that of `null`.
fn given(document: &[u8], value: Option<Span>) -> Option<Span>
    ensures given { IsGiven document.now value result }
    ensures bounds { (len : ℕ) → IsWithin len value → IsWithin len result }
    ensures same { MatchOption result (Unit {0}) (λ span. value ≡ Some span) }
{
    let span = value?;
    if is_null(document, span) {
        None
    } else {
        Some(span)
    }
}

/// Returns where the member of this name of the element at a position lies, if it has one that is not `null`.
///
/// # Errors
///
/// If memory for an unescaped name cannot be allocated.
pub(crate) fn given_at(
    alloc: Global,
    document: &[u8],
    at: usize,
    name: &str,
) -> Result<Option<Span>, AllocError>
    ensures gives { IfOk result (λ found. GivesMember name.now document.now at found) }
    ensures memory { OnErr result (at < length document.now) }
{
    if !has_byte(document, at, b'{') {
        return Ok(None);
    }
    let value = last_member(alloc, document, at + 1, name)?;
    Ok(given(document, value))
}
