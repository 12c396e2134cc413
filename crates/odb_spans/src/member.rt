//! The members of an object.

ghost use Rattle.std.specs.Prelude.{◌≡◌, ◌≤◌, ◌<◌, ◌∷◌, ℕ, List, [], length, get_or, false, IfOk, IfSome, bytes_eq};
ghost use Rattle.json.specs.Token as token;
ghost use Rattle.json.specs.Lex.{class, tokens};
ghost use Rattle.json.specs.Align.{is_blank};
ghost use Rattle.serde_json.specs.Data.{string};
ghost use Rattle.serde_json.specs.View.{view};
ghost use Rattle.odb_spans.specs.Parts.{FindsMember, IsMemberAt, IsNamed, IsNameIn};

use crate::extent::value_end;
use crate::span::Span;
use crate::walk::{next, past_separator};
use memchr::memchr;
use serde_json::Value;
use std::alloc::{AllocError, Global};

/// A member of an object: its name, with the quotes, and where its value begins.
#[derive(Clone, Copy)]
pub(crate) struct Member {
    pub(crate) name: Span,
    pub(crate) value: usize,
}

/// Returns the member whose name begins at a position.
pub(crate) fn member_at(document: &[u8], at: usize) -> Member
    requires within { at < length document.now }
    requires solid { is_blank (class (get_or document.now at 0)) ≡ false }
    ensures { IsMemberAt document.now at result }
{
    let end = value_end(document, at);
    let value = past_separator(document, end);
    Member {
        name: Span { start: at, end },
        value,
    }
}

/// Returns whether the value is this string.
fn is_text(value: &Value, text: &str) -> bool
    ensures { (k : List ℕ) → view value.now ≡ string k → result ≡ bytes_eq k text.now }
{
    match value.as_str() {
        Some(found) => found == text,
        None => false,
    }
}

/// Returns the content of a string that is written without escapes, none for any other text.
fn plain_content(string: &[u8]) -> Option<&[u8]>
    ensures { IfSome result (λ content. (k : List ℕ) → tokens string.now ≡ token.string k ∷ [] → content.now ≡ k) }
{
    let len = string.len();
    if len < 2 || string[0] != b'"' || string[len - 1] != b'"' {
        return None;
    }
    let content = &string[1..len - 1];
    match memchr(b'\\', content) {
        Some(_) => None,
        None => Some(content),
    }
}

/// Returns whether the text is read as this string.
///
/// # Errors
///
/// If memory for the string cannot be allocated.
fn is_read_as(alloc: Global, string: &[u8], text: &str) -> Result<bool, AllocError>
    ensures { IfOk result (IsNamed string.now text.now) }
{
    match Value::from_slice(alloc, string) {
        Ok(value) => Ok(is_text(&value, text)),
        Err(error) => {
            if error.is_memory() {
                Err(AllocError)
            } else {
                Ok(false)
            }
        }
    }
}

/// Returns whether the string is this name, however its characters are escaped. Only a string with escapes is read as a value.
///
/// # Errors
///
/// If memory for the unescaped name cannot be allocated.
pub(crate) fn is_named(
    alloc: Global,
    document: &[u8],
    string: Span,
    name: &str,
) -> Result<bool, AllocError>
    requires order { string.start ≤ string.end }
    requires within { string.end ≤ length document.now }
    ensures { IfOk result (IsNameIn document.now string name.now) }
{
    let text = string.bytes_in(document);
    match plain_content(text) {
        Some(content) => Ok(content == name.as_bytes()),
        None => is_read_as(alloc, text, name),
    }
}

/// Returns where the value of the last member of this name lies, if there is one. `start` is after the opening brace of the
/// object.
///
/// # Errors
///
/// If memory for an unescaped name cannot be allocated.
pub(crate) fn last_member(
    alloc: Global,
    document: &[u8],
    start: usize,
    name: &str,
) -> Result<Option<Span>, AllocError>
    requires { start ≤ length document.now }
    ensures { IfOk result (λ found. FindsMember name.now document.now start found) }
{
    let mut at = start;
    let mut last = None;
    'members: loop {
        let Some(first) = next(document, at) else {
            return Ok(last);
        };
        let member = member_at(document, first);
        at = value_end(document, member.value);
        if is_named(alloc, document, member.name, name)? {
            last = Some(Span {
                start: member.value,
                end: at,
            });
        }
    }
}
